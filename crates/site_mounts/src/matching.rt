//! Matching a path against a pattern: the pieces between the pattern's stars are found from the left, and the last one
//! at the path's end, so that no place of the path is tried twice for one piece.
ghost use Rattle.std.specs.Prelude.{◌≡◌, None};
ghost use Rattle.std.specs.Option.{option_map};
ghost use Rattle.site_config.specs.Cut.{cut_at};
ghost use Rattle.site_mounts.specs.Patterns.{stands_for, some_end, matches};
ghost use Rattle.site_mounts.specs.Pieces.{behind, first_behind};

use site_config::cut_at;

fn stands_for(c: u8, b: u8) -> bool
    ensures { result ≡ stands_for c b }
{
    c == b'?' || c == b
}

/// What follows the piece, where the path begins with it.
fn behind<'t>(piece: &[u8], path: &'t [u8]) -> Option<&'t [u8]>
    ensures { option_map (λ rest. rest.now) result ≡ behind piece.now path.now }
{
    let mut rest = path;
    for c in piece {
        let [b, others @ ..] = rest else {
            return None;
        };
        if !stands_for(*c, *b) {
            return None;
        }
        rest = others;
    }
    Some(rest)
}

/// What follows the first place where the piece stands.
fn first_behind<'t>(piece: &[u8], path: &'t [u8]) -> Option<&'t [u8]>
    ensures { option_map (λ rest. rest.now) result ≡ first_behind piece.now path.now }
{
    let mut rest = path;
    loop {
        if let Some(found) = behind(piece, rest) {
            return Some(found);
        }
        match rest {
            [_, others @ ..] => rest = others,
            [] => return None,
        }
    }
}

/// Whether the path ends with the piece.
fn ends_with(piece: &[u8], path: &[u8]) -> bool
    requires { cut_at 42 piece.now ≡ None }
    ensures { result ≡ some_end (matches piece.now) path.now }
{
    piece.len() <= path.len() && behind(piece, &path[path.len() - piece.len()..]).is_some()
}

/// Whether some end of the path matches the pattern.
fn end_matches(pattern: &[u8], path: &[u8]) -> bool
    ensures { result ≡ some_end (matches pattern.now) path.now }
{
    let mut pattern = pattern;
    let mut path = path;
    loop {
        let Some((piece, more)) = cut_at(pattern, b'*') else {
            return ends_with(pattern, path);
        };
        let Some(rest) = first_behind(piece, path) else {
            return false;
        };
        pattern = more;
        path = rest;
    }
}

/// Whether the pattern matches the whole path.
pub(crate) fn matches(pattern: &[u8], path: &[u8]) -> bool
    ensures { result ≡ matches pattern.now path.now }
{
    let Some((front, more)) = cut_at(pattern, b'*') else {
        return pattern.len() == path.len() && behind(pattern, path).is_some();
    };
    match behind(front, path) {
        Some(rest) => end_matches(more, rest),
        None => false,
    }
}
