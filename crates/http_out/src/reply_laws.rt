//! Laws: a writer's steps make the reply's bytes, and what was written stays a prefix of each reply that goes on.
ghost use Rattle.http_out.specs.Writer.{GrowsByChunk, EndsWhole, StaysPrefix};

/// Law: a chunk writes just what it adds to the reply so far, and leaves the writer of the longer list.
pub fn replies_grow_by_chunks()
    ensures { GrowsByChunk }
{}

/// Law: the end writes just what a whole reply has beyond the reply so far.
pub fn replies_end_whole()
    ensures { EndsWhole }
{}

/// Law: what was written is a prefix of each reply that goes on from there.
pub fn what_is_written_stays_a_prefix()
    ensures { StaysPrefix }
{}
