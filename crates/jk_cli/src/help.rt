//! The help of the commands, held by `clap`.
//!
//! What words mean is decided without `clap` (reading.rt): `command` is asked for texts alone, so a parse of `clap`'s
//! that differed from the grammar would change no answer.
use clap::{Arg, ArgAction, Command};
use std::alloc::{AllocError, Global};

/// What help says of a command, or of the program.
struct Page {
    name: &'static str,
    about: &'static str,
    usage: &'static str,
    /// The words by their places, the options and the flags.
    rows: &'static [Row],
    after: &'static str,
}

/// What help says of a word, an option or a flag.
struct Row {
    name: &'static str,
    about: &'static str,
    kind: Kind,
}

#[derive(Clone, Copy)]
enum Kind {
    /// A word that has to stand.
    Word,
    /// A word that may stand.
    Spare,
    /// An option with the name of its value.
    Long(&'static str),
    /// A flag of one letter.
    Letter(char),
    /// A flag of one letter and of a name, that asks for a text.
    Asks(char, ArgAction),
}

const WORKERS: Row = Row {
    name: "WORKERS",
    about: "The file workers.properties",
    kind: Kind::Word,
};

const MAP: Row = Row {
    name: "MAP",
    about: "The file uriworkermap.properties",
    kind: Kind::Word,
};

const SPARE_WORKERS: Row = Row {
    name: "WORKERS",
    about: "The file workers.properties",
    kind: Kind::Spare,
};

const SPARE_MAP: Row = Row {
    name: "MAP",
    about: "The file uriworkermap.properties",
    kind: Kind::Spare,
};

const REQUEST: Row = Row {
    name: "REQUEST",
    about: "A file with the bytes of a client",
    kind: Kind::Word,
};

const REPLY: Row = Row {
    name: "REPLY",
    about: "A file with the bytes of a container",
    kind: Kind::Word,
};

const ADDRESS: Row = Row {
    name: "ADDRESS",
    about: "The address to listen at, HOST:PORT: 127.0.0.1:8080, or 0.0.0.0:8080 for all",
    kind: Kind::Word,
};

const THREADS: Row = Row {
    name: "THREADS",
    about: "1 to 64: how many requests are under way at once",
    kind: Kind::Word,
};

const CLIENTS: Row = Row {
    name: "clients",
    about: "Each thread ends after N clients; with 0 it ends at once",
    kind: Kind::Long("N"),
};

const VERBOSE: Row = Row {
    name: "verbose",
    about: "Add the line of MAP that decides about each path",
    kind: Kind::Letter('v'),
};

const HELP: Row = Row {
    name: "help",
    about: "Print this text",
    kind: Kind::Asks('h', ArgAction::Help),
};

const VERSION: Row = Row {
    name: "version",
    about: "Print the version",
    kind: Kind::Asks('V', ArgAction::Version),
};

static SCRIPT_PAGES: [Page; 3] = [
    Page {
        name: "play",
        about: "Play a script of a balancer, read from the input",
        usage: "jkd play < SCRIPT",
        rows: &[HELP],
        after: "Each select prints its ticket and the member that it goes to; nothing is forwarded.\n\nExample: jkd play < script.txt\n\nStatus: 0 done; 3 a bad line, which is printed, or too long; 4 it can't be read; 5 the output can't be written; 6 out of memory",
    },
    Page {
        name: "dry",
        about: "Forward one client's bytes, with one container's bytes as its replies",
        usage: "jkd dry REQUEST REPLY [WORKERS MAP]",
        rows: &[REQUEST, REPLY, SPARE_WORKERS, SPARE_MAP, HELP],
        after: "Prints what went to the container, what went to the client, and how the session ended.\n\nExample: jkd dry request.bin reply.bin\n\nStatus: 0 done; 3 a file is refused or too long; 4 a file can't be read; 5 the output can't be written; 6 out of memory",
    },
    Page {
        name: "config",
        about: "Show what is understood of a site's files: workers, members, limits, rules",
        usage: "jkd config WORKERS [MAP]",
        rows: &[WORKERS, SPARE_MAP, HELP],
        after: "On standard error: what has no effect, and each line that is refused.\n\nExample: jkd config workers.properties uriworkermap.properties\n\nStatus: 0 done; 3 a file is refused or too long; 4 a file can't be read; 5 the output can't be written; 6 out of memory",
    },
];

static SITE_PAGES: [Page; 3] = [
    Page {
        name: "match",
        about: "Show the worker of each path of the input, one a line, with or without a query",
        usage: "jkd match [-v] WORKERS MAP < PATHS",
        rows: &[WORKERS, MAP, VERBOSE, HELP],
        after: "- is no worker, and 400 a path that is refused.\n\nExample: jkd match -v workers.properties uriworkermap.properties < paths.txt\n\nStatus: 0 done; 3 a file is refused or too long; 4 a file or the input can't be read; 5 the output can't be written; 6 out of memory",
    },
    Page {
        name: "check",
        about: "Check the text of a journal, read from the input",
        usage: "jkd check < JOURNAL",
        rows: &[HELP],
        after: "Each entry has to follow from those before it, by the balancer's rules.\n\nExample: jkd check < balancer.journal\n\nStatus: 0 good; 1 a bad line, which is printed; 3 an unreadable line, or too long; 4 it can't be read; 5 the output can't be written; 6 out of memory",
    },
    Page {
        name: "log",
        about: "Write the request log of one client's bytes",
        usage: "jkd log FORMAT REQUEST REPLY WORKERS MAP",
        rows: &[
            Row {
                name: "FORMAT",
                about: "The form of a line, as '%w %m %U %s'",
                kind: Kind::Word,
            },
            REQUEST,
            REPLY,
            WORKERS,
            MAP,
            HELP,
        ],
        after: "They are forwarded as by dry.\n\nExample: jkd log '%w %m %U %s' request.bin reply.bin workers.properties uriworkermap.properties\n\nStatus: 0 done; 3 the format or a file is refused, or too long; 4 a file can't be read; 5 the output can't be written; 6 out of memory",
    },
];

static JOURNAL_PAGES: [Page; 2] = [
    Page {
        name: "follow",
        about: "Show the status page of a journal, read from the input",
        usage: "jkd follow < JOURNAL",
        rows: &[HELP],
        after: "It is that of the balancer after the last whole line.\n\nExample: jkd follow < balancer.journal\n\nStatus: 0 done; 1 a bad line, which is printed; 3 an unreadable line, or too long; 4 it can't be read; 5 the output can't be written; 6 out of memory",
    },
    Page {
        name: "drill",
        about: "Run requests over memory from a seed, by threads that share one balancer",
        usage: "jkd drill SEED THREADS REQUESTS [journal|passes]",
        rows: &[
            Row {
                name: "SEED",
                about: "A number",
                kind: Kind::Word,
            },
            THREADS,
            Row {
                name: "REQUESTS",
                about: "1 to 1000000",
                kind: Kind::Word,
            },
            Row {
                name: "MODE",
                about: "journal prints the journal's text; passes has the threads take turns",
                kind: Kind::Spare,
            },
            HELP,
        ],
        after: "Prints how many each member served, or the balancer's journal.\n\nExample: jkd drill 1 4 10000\n\nStatus: 0 done; 1 the journal lacks what the threads were told; 5 the output can't be written; 6 out of memory; 7 the journal lacks a request, or the bodies lack bytes",
    },
];

static FRONT_PAGES: [Page; 1] = [Page {
    name: "serve",
    about: "Serve clients at an address, and forward them to the site's containers",
    usage: "jkd serve [OPTIONS] WORKERS MAP ADDRESS THREADS",
    rows: &[
        WORKERS,
        MAP,
        ADDRESS,
        THREADS,
        CLIENTS,
        Row {
            name: "journal",
            about: "Write the journals into DIR",
            kind: Kind::Long("DIR"),
        },
        Row {
            name: "watch",
            about: "Look through idle links every so many seconds, 1 to 86400",
            kind: Kind::Long("SECONDS"),
        },
        Row {
            name: "idle",
            about: "With --watch, close a link idle for so many looks, 1 to 1000000; 10 where not given",
            kind: Kind::Long("ROUNDS"),
        },
        Row {
            name: "log",
            about: "Write the request logs into DIR",
            kind: Kind::Long("DIR"),
        },
        Row {
            name: "format",
            about: "With --log, the form of its lines; '%w %m %U%q %s %b' where not given",
            kind: Kind::Long("FORMAT"),
        },
        Row {
            name: "control",
            about: "Make the socket PATH, by which jkd stop PATH ends it in order",
            kind: Kind::Long("PATH"),
        },
        Row {
            name: "grace",
            about: "With an end, wait so long for the requests under way, 0 to 86400; 30 where not given",
            kind: Kind::Long("SECONDS"),
        },
        Row {
            name: "cut",
            about: "A kill loses at most so many entries of a balancer, 1 to 65536, fewer than 4 as 4; 65539 where not given",
            kind: Kind::Long("ENTRIES"),
        },
        Row {
            name: "head",
            about: "A client's head must come within so long, 0 to 86400, 0 for no limit; 20 where not given",
            kind: Kind::Long("SECONDS"),
        },
        Row {
            name: "keep",
            about: "A client may wait so long between requests, 0 to 86400, 0 for no limit; 60 where not given",
            kind: Kind::Long("SECONDS"),
        },
        Row {
            name: "rate",
            about: "A client must give or take so many bytes a second, counted over 20, 0 to 1000000000; 500 where not given",
            kind: Kind::Long("BYTES"),
        },
        Row {
            name: "waiting",
            about: "So many clients may wait, 0 to 1000000, 0 for no limit; 10000 where not given",
            kind: Kind::Long("CLIENTS"),
        },
        HELP,
    ],
    after: "A thread serves one request at a time; clients without one wait, and take no thread.\n\nExample: jkd serve --control jkd.sock workers.properties uriworkermap.properties 127.0.0.1:8080 8\n\nHow it ends: jkd stop PATH, with the PATH of --control. No client is taken from then on; requests under way\nget --grace seconds. Time limits of members stand in WORKERS: see jkd config.\n\nStatus: 0 each thread ended since no client was to come, or it was stopped; 1 the journals lack what the threads were told;\n3 a file is refused or too long; 4 an address, a directory or a file failed; 5 the output can't be written;\n6 out of memory; 7 a ticket came back that wasn't out",
}];

static OUTSIDE_PAGES: [Page; 3] = [
    Page {
        name: "container",
        about: "Run a small AJP13 container to try a site with",
        usage: "jkd container [--clients N] ROUTE ADDRESS THREADS",
        rows: &[
            Row {
                name: "ROUTE",
                about: "The route of its session ids, at most 1024 bytes",
                kind: Kind::Word,
            },
            ADDRESS,
            THREADS,
            CLIENTS,
            HELP,
        ],
        after: "Its pages are /who, /session, /size/N, /echo and others.\n\nExample: jkd container a 127.0.0.1:8009 4\n\nStatus: 0 each thread ended since no client was to come; 4 the address or a link failed; 6 out of memory",
    },
    Page {
        name: "stop",
        about: "Tell a front to end, by the PATH of its --control, and wait until it has",
        usage: "jkd stop PATH",
        rows: &[
            Row {
                name: "PATH",
                about: "The control socket of a serve that runs",
                kind: Kind::Word,
            },
            HELP,
        ],
        after: "Requests under way get their replies, as far as its --grace lets them.\n\nExample: jkd stop jkd.sock\n\nStatus: 0 the front said that it ended; 4 it didn't, or nobody answers; 6 out of memory",
    },
    Page {
        name: "demo",
        about: "Run two containers and a front before them, to try with a browser or curl",
        usage: "jkd demo [ADDRESS]",
        rows: &[
            Row {
                name: "ADDRESS",
                about: "The front's address, HOST:PORT; 127.0.0.1:8080 where not given",
                kind: Kind::Spare,
            },
            HELP,
        ],
        after: "It says what to type, and runs until it is ended or its input ends.\n\nExample: jkd demo\n\nStatus: 0 its input ended; 4 an address failed; 6 out of memory",
    },
];

/// What stands below the list of commands.
const BELOW: &str = "\
Each with its words:
  jkd play < SCRIPT
  jkd dry REQUEST REPLY [WORKERS MAP]
  jkd config WORKERS [MAP]
  jkd match [-v] WORKERS MAP < PATHS
  jkd check < JOURNAL
  jkd log FORMAT REQUEST REPLY WORKERS MAP
  jkd follow < JOURNAL
  jkd drill SEED THREADS REQUESTS [journal|passes]
  jkd serve [OPTIONS] WORKERS MAP ADDRESS THREADS
  jkd container [--clients N] ROUTE ADDRESS THREADS
  jkd stop PATH
  jkd demo [ADDRESS]

Examples:
  jkd play < script.txt
  jkd dry request.bin reply.bin
  jkd config workers.properties uriworkermap.properties
  jkd match workers.properties uriworkermap.properties < paths.txt
  jkd check < balancer.journal
  jkd log '%w %m %U %s' request.bin reply.bin workers.properties uriworkermap.properties
  jkd follow < balancer.journal
  jkd drill 1 4 10000
  jkd serve --control jkd.sock workers.properties uriworkermap.properties 127.0.0.1:8080 8
  jkd container a 127.0.0.1:8009 4
  jkd stop jkd.sock
  jkd demo

An option is written --name VALUE or --name=VALUE, before or between the words; words
after -- may begin with -. jkd help COMMAND tells more of one command: its words, its options,
and the statuses with which it ends.";

/// The program itself, above its commands.
static PROGRAM: Page = Page {
    name: "jkd",
    about: "A connector that balances requests over servlet containers",
    usage: "jkd COMMAND WORDS",
    rows: &[HELP, VERSION],
    after: BELOW,
};

fn word<'a>(alloc: Global, row: &Row, needed: bool) -> Arg<'a> {
    Arg::new(alloc, row.name).help(row.about).required(needed)
}

fn long<'a>(alloc: Global, row: &Row, value: &'static str) -> Arg<'a> {
    word(alloc, row, false)
        .long(row.name)
        .value_name(value)
        .action(ArgAction::Set)
}

fn letter<'a>(alloc: Global, row: &Row, short: char, action: ArgAction) -> Arg<'a> {
    word(alloc, row, false).short(short).action(action)
}

fn arg_of<'a>(alloc: Global, row: &Row) -> Arg<'a> {
    match row.kind {
        Kind::Word => word(alloc, row, true),
        Kind::Spare => word(alloc, row, false),
        Kind::Long(value) => long(alloc, row, value),
        Kind::Letter(short) => letter(alloc, row, short, ArgAction::SetTrue),
        Kind::Asks(short, action) => letter(alloc, row, short, action).long(row.name),
    }
}

fn put<T: Drop>(list: &mut Vec<T>, item: T) -> Result<(), AllocError> {
    list.push(item)?;
    Ok(())
}

fn args_of<'a>(alloc: Global, rows: &[Row]) -> Result<Vec<Arg<'a>>, AllocError> {
    let mut args = Vec::new(alloc);
    for row in rows {
        put(&mut args, arg_of(alloc, row))?;
    }
    Ok(args)
}

/// The command with its flags for help and version left to the rows.
fn flagless<'a>(alloc: Global, name: &'static str) -> Command<'a> {
    Command::new(alloc, name)
        .disable_help_flag(true)
        .disable_version_flag(true)
}

fn versioned<'a>(alloc: Global, name: &'static str) -> Command<'a> {
    flagless(alloc, name)
        .version("0.1.0")
        .disable_help_subcommand(true)
}

/// The command of a page with its texts alone.
fn bare_command<'a>(alloc: Global, page: &Page) -> Command<'a> {
    versioned(alloc, page.name)
        .about(page.about)
        .override_usage(page.usage)
        .after_help(page.after)
}

fn page_command<'a>(alloc: Global, page: &Page) -> Result<Command<'a>, AllocError> {
    let args = args_of(alloc, page.rows)?;
    bare_command(alloc, page).args(args)
}

fn put_made<T: Drop>(list: &mut Vec<T>, made: Result<T, AllocError>) -> Result<(), AllocError> {
    put(list, made?)
}

fn script_pages() -> &'static [Page] {
    &SCRIPT_PAGES
}

fn site_pages() -> &'static [Page] {
    &SITE_PAGES
}

fn journal_pages() -> &'static [Page] {
    &JOURNAL_PAGES
}

fn front_pages() -> &'static [Page] {
    &FRONT_PAGES
}

fn outside_pages() -> &'static [Page] {
    &OUTSIDE_PAGES
}

fn put_pages<'a>(
    alloc: Global,
    commands: &mut Vec<Command<'a>>,
    pages: &[Page],
) -> Result<(), AllocError> {
    for page in pages {
        put_made(commands, page_command(alloc, page))?;
    }
    Ok(())
}

fn page_commands<'a>(alloc: Global) -> Result<Vec<Command<'a>>, AllocError> {
    let mut commands = Vec::new(alloc);
    put_pages(alloc, &mut commands, script_pages())?;
    put_pages(alloc, &mut commands, site_pages())?;
    put_pages(alloc, &mut commands, journal_pages())?;
    put_pages(alloc, &mut commands, front_pages())?;
    put_pages(alloc, &mut commands, outside_pages())?;
    Ok(commands)
}

fn program() -> &'static Page {
    &PROGRAM
}

fn with_commands<'a>(
    program: Result<Command<'a>, AllocError>,
    commands: Vec<Command<'a>>,
) -> Result<Command<'a>, AllocError> {
    match program {
        Ok(program) => program.subcommands(commands),
        Err(error) => Err(error),
    }
}

/// The command with its texts.
pub fn command<'a>(alloc: Global) -> Result<Command<'a>, AllocError> {
    let commands = page_commands(alloc)?;
    with_commands(page_command(alloc, program()), commands)
}

fn usage_in(pages: &'static [Page], name: &str) -> Option<&'static str> {
    for page in pages {
        if page.name == name {
            return Some(page.usage);
        }
    }
    None
}

/// The words of the command of this name, as its help shows them.
pub fn usage_of(name: &str) -> Option<&'static str> {
    usage_in(script_pages(), name)
        .or(usage_in(site_pages(), name))
        .or(usage_in(journal_pages(), name))
        .or(usage_in(front_pages(), name))
        .or(usage_in(outside_pages(), name))
}
