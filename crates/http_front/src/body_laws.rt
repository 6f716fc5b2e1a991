//! Laws: the places that a reader goes through are those of the chunked coding's grammar.
ghost use Rattle.http_front.specs.Chunked.{ReadsSpelled, ReadsOnlySpelled, RefusesUnspelled};

/// Law: what the grammar spells is read as just its data, and as whole, and no byte after it is used.
pub fn chunked_bodies_are_read_whole()
    ensures { ReadsSpelled }
{}

/// Law: what is read as a whole body is spelled by the grammar.
pub fn only_chunked_bodies_are_read_whole()
    ensures { ReadsOnlySpelled }
{}

/// Law: a bad chunk line is met exactly where no body of the grammar goes on from the bytes, or ends within them.
pub fn bad_lines_are_what_no_body_has()
    ensures { RefusesUnspelled }
{}
