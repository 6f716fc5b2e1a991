//! The parts that are measured.

/// The work of a part.
#[derive(Clone, Copy)]
pub enum Work {
    WriteRequests,
    ReadRequests,
    WriteReplies,
    ReadReplies,
    ReadHeads,
    ReadRow,
    ParseHeads,
    TakeByLength,
    TakeChunks,
    WriteByLength,
    WriteChunks,
    Book,
    Site,
    Map,
    Lines,
    Lists,
    Journal,
}

/// A part, and what is told of it.
pub struct Part {
    /// The word that asks for it.
    pub word: &'static str,
    pub work: Work,
    /// How much of it a small round is.
    pub few: u32,
    /// The words of its line, which stand round its figures.
    pub told: &'static [&'static str],
    /// What is counted a second.
    pub what: &'static str,
}

static PARTS: [Part; 17] = [
    Part {
        word: "ajp",
        work: Work::WriteRequests,
        few: 1,
        told: &["a Forward Request of ", " bytes"],
        what: "Forward Requests written",
    },
    Part {
        word: "ajp",
        work: Work::ReadRequests,
        few: 1,
        told: &[],
        what: "Forward Requests read",
    },
    Part {
        word: "ajp",
        work: Work::WriteReplies,
        few: 1,
        told: &["a reply of ", " bytes"],
        what: "replies written",
    },
    Part {
        word: "ajp",
        work: Work::ReadReplies,
        few: 1,
        told: &[],
        what: "replies read",
    },
    Part {
        word: "heads",
        work: Work::ReadHeads,
        few: 200,
        told: &["", " heads read alone: ", " lines"],
        what: "heads read alone",
    },
    Part {
        word: "heads",
        work: Work::ReadRow,
        few: 200,
        told: &["", " heads read pipelined: ", " lines"],
        what: "heads read pipelined",
    },
    Part {
        word: "heads",
        work: Work::ParseHeads,
        few: 200,
        told: &["", " heads read by the parser: ", " lines"],
        what: "heads read by the parser",
    },
    Part {
        word: "bodies",
        work: Work::TakeByLength,
        few: 1,
        told: &["", " bytes taken by length"],
        what: "bytes taken by length",
    },
    Part {
        word: "bodies",
        work: Work::TakeChunks,
        few: 1,
        told: &["", " bytes taken in chunks"],
        what: "bytes taken in chunks",
    },
    Part {
        word: "bodies",
        work: Work::WriteByLength,
        few: 1,
        told: &["", " bytes written by length"],
        what: "bytes written by length",
    },
    Part {
        word: "bodies",
        work: Work::WriteChunks,
        few: 1,
        told: &["", " bytes written in chunks"],
        what: "bytes written in chunks",
    },
    Part {
        word: "book",
        work: Work::Book,
        few: 2,
        told: &["", " entries added"],
        what: "entries added",
    },
    Part {
        word: "site",
        work: Work::Site,
        few: 10_000,
        told: &["", " bytes: ", " balancers, ", " ignored lines"],
        what: "bytes of a site read",
    },
    Part {
        word: "map",
        work: Work::Map,
        few: 10_000,
        told: &["", " bytes: ", " rules"],
        what: "bytes of a map read",
    },
    Part {
        word: "lines",
        work: Work::Lines,
        few: 200,
        told: &["short lines: ", " balancers, ", " ignored lines"],
        what: "bytes of short lines read",
    },
    Part {
        word: "lists",
        work: Work::Lists,
        few: 4,
        told: &["one list: ", " balancers, ", " ignored lines"],
        what: "balancers of one list read",
    },
    Part {
        word: "journal",
        work: Work::Journal,
        few: 100,
        told: &["", " entries checked"],
        what: "entries checked",
    },
];

/// The parts, in the order in which they are run.
pub fn parts() -> &'static [Part] {
    &PARTS
}
