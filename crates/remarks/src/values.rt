//! Remarks on a command's words that the parser of the help takes, and that are no command.
use clap::ArgMatches;
use jk_cli::{
    MOST_ENTRIES, MOST_IDLE_ROUNDS, MOST_RATE, MOST_REQUESTS, MOST_ROUTE_BYTES, MOST_SECONDS,
    MOST_THREADS, MOST_WAITING, MOST_WATCH_SECONDS, usage_of,
};
use jk_io::{NoMemory, parse_decimal};
use std::alloc::Global;

/// A word or an option, as a person writes it, that is a number of a range.
struct Range {
    shown: &'static str,
    least: u64,
    most: u64,
}

static RANGES: [Range; 12] = [
    Range {
        shown: "SEED",
        least: 0,
        most: u64::MAX,
    },
    Range {
        shown: "THREADS",
        least: 1,
        most: MOST_THREADS as u64,
    },
    Range {
        shown: "REQUESTS",
        least: 1,
        most: MOST_REQUESTS as u64,
    },
    Range {
        shown: "--clients",
        least: 0,
        most: u64::MAX,
    },
    Range {
        shown: "--cut",
        least: 1,
        most: MOST_ENTRIES,
    },
    Range {
        shown: "--head",
        least: 0,
        most: MOST_SECONDS,
    },
    Range {
        shown: "--keep",
        least: 0,
        most: MOST_SECONDS,
    },
    Range {
        shown: "--rate",
        least: 0,
        most: MOST_RATE,
    },
    Range {
        shown: "--waiting",
        least: 0,
        most: MOST_WAITING,
    },
    Range {
        shown: "--grace",
        least: 0,
        most: MOST_SECONDS,
    },
    Range {
        shown: "--watch",
        least: 1,
        most: MOST_WATCH_SECONDS,
    },
    Range {
        shown: "--idle",
        least: 1,
        most: MOST_IDLE_ROUNDS,
    },
];

impl Range {
    /// The name under which the parser keeps the value.
    fn name(&self) -> &'static str {
        self.shown.strip_prefix("--").unwrap_or(self.shown)
    }

    fn holds(&self, word: &str) -> bool {
        match parse_decimal(word.as_bytes()) {
            Some(number) => self.least <= number && number <= self.most,
            None => false,
        }
    }

    /// What a value must be.
    fn wanted(&self, alloc: Global) -> Result<String, NoMemory> {
        let Range { shown, least, most } = self;
        if *most == u64::MAX {
            Ok(format!(in alloc; "{shown} must be a number")?)
        } else {
            Ok(format!(in alloc; "{shown} must be a number from {least} to {most}")?)
        }
    }
}

/// An option that stands only beside another one.
struct Need {
    option: &'static str,
    beside: &'static str,
    wanted: &'static str,
}

static NEEDS: [Need; 2] = [
    Need {
        option: "idle",
        beside: "watch",
        wanted: "--idle needs --watch",
    },
    Need {
        option: "format",
        beside: "log",
        wanted: "--format needs --log",
    },
];

/// The first number that isn't of its range, and its word.
fn number_fault<'w>(given: &ArgMatches<'w>) -> Option<(&'static Range, &'w str)> {
    for range in &RANGES {
        if let Some(word) = given.get_str(range.name()) {
            if !range.holds(word) {
                return Some((range, word));
            }
        }
    }
    None
}

/// What a route or a mode must be, and its word, where it isn't.
fn text_fault<'w>(given: &ArgMatches<'w>) -> Option<(&'static str, &'w str)> {
    if let Some(route) = given.get_str("ROUTE") {
        if MOST_ROUTE_BYTES < route.len() {
            return Some(("ROUTE must have at most 1024 bytes", route));
        }
    }
    let mode = given.get_str("MODE")?;
    if mode == "journal" || mode == "passes" {
        None
    } else {
        Some(("MODE must be journal or passes", mode))
    }
}

/// What the first option that stands without the one that it needs wants, and its word.
fn lone_option<'w>(given: &ArgMatches<'w>) -> Option<(&'static str, &'w str)> {
    for need in &NEEDS {
        if let Some(word) = given.get_str(need.option) {
            if !given.contains_id(need.beside) {
                return Some((need.wanted, word));
            }
        }
    }
    None
}

/// What the value at fault must be, and its word.
fn fault_of<'w>(
    alloc: Global,
    given: &ArgMatches<'w>,
) -> Result<Option<(String, &'w str)>, NoMemory> {
    if let Some((range, word)) = number_fault(given) {
        return Ok(Some((range.wanted(alloc)?, word)));
    }
    let fault = match text_fault(given) {
        Some(fault) => Some(fault),
        None => lone_option(given),
    };
    match fault {
        Some((wanted, word)) => Ok(Some((String::from_str(alloc, wanted)?, word))),
        None => Ok(None),
    }
}

/// What is wrong with the values of these words.
pub(crate) fn said_of_values(alloc: Global, matches: &ArgMatches<'_>) -> Result<String, NoMemory> {
    let Some((name, given)) = matches.subcommand() else {
        return Ok(String::from_str(
            alloc,
            "error: no command is given\n\nUsage: jkd COMMAND WORDS",
        )?);
    };
    let usage = usage_of(name).unwrap_or("jkd COMMAND WORDS");
    match fault_of(alloc, given)? {
        Some((wanted, word)) => Ok(format!(in alloc; "error: {wanted}: {word}\n\nUsage: {usage}")?),
        None => Ok(format!(in alloc; "error: these words are no command\n\nUsage: {usage}")?),
    }
}
