//! The codes that stand for the names of headers.

ghost use Rattle.std.specs.Prelude.{◌≡◌, ◌<◌, length, map};
ghost use Rattle.std.specs.Str.{str_eq_ignore_ascii_case};
ghost use Rattle.ajp_wire.specs.Names.{code_of as code_in};

/// The code of the first name of a table.
pub const FIRST_CODE: u16 = 0xA001;

/// A table has fewer names than this.
pub const CODES_LIMIT: usize = 100;

/// The code that stands for a header's name in either case.
pub fn code_of(table: &[&[u8]], name: &[u8]) -> Option<u16>
    requires { length table.now < CODES_LIMIT }
    ensures { result ≡ code_in (map (λ s. s.now) table.now) name.now }
{
    let mut code = FIRST_CODE;
    for known in table {
        if is_same_name(known, name) {
            return Some(code);
        }
        code += 1;
    }
    None
}

fn is_same_name(known: &[u8], name: &[u8]) -> bool
    ensures { result ≡ str_eq_ignore_ascii_case known.now name.now }
{
    known.eq_ignore_ascii_case(name)
}
