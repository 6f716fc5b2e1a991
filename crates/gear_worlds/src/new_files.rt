//! New files: each is made whole, or isn't there.
ghost use Rattle.std.specs.Prelude.{◌≡◌, true};
ghost use Rattle.std.specs.Fs.{asks_create_new, asks_write};

use std::fs::{self, OpenOptions};
use std::io::{self, Write};
use std::rt::Files;

/// Where new files are made.
pub trait NewFiles {
    ghost use Rattle.std.specs.Prelude.{◌≡◌, List, Option, OnErr, OnOk};
    ghost use Rattle.gear_worlds.specs.NewFiles.{MadeFile, MakesFile};

    // the files that were made, in order
    ghost made: { Self → Option (List MadeFile) };

    /// Makes a file at this path, with this text. One that is there already stays as it is, which is an error; one that can't be written
    /// whole is taken away again.
    fn make(&mut self, path: &str, text: &[u8]) -> io::Result<()>
        ensures ok { OnOk result (MakesFile path.now text.now (made self.old) (made self.new)) }
        ensures err { OnErr result (made self.new ≡ made self.old) };
}

/// New files of the system. It tells nothing of them.
#[derive(Drop)]
pub struct RealNewFiles<'r, R: Files> {
    rt: &'r R,
}

impl<'r, R: Files> RealNewFiles<'r, R> {
    pub fn new(rt: &'r R) -> RealNewFiles<'r, R> {
        RealNewFiles { rt }
    }
}

impl<'r, R: Files> NewFiles for RealNewFiles<'r, R> {
    ghost use Rattle.std.specs.Prelude.{None};

    ghost made = { λ _. None };

    fn make(&mut self, path: &str, text: &[u8]) -> io::Result<()> {
        let mut out = only_new().open(self.rt, path)?;
        let written = out.write_all(text);
        if written.is_err() {
            let _ = fs::remove_file(self.rt, path);
        }
        written
    }
}

// How a file is opened that is to be made: none that is there already is.
fn only_new() -> OpenOptions
    ensures { (asks_write result ≡ true) × (asks_create_new result ≡ true) }
{
    let mut options = OpenOptions::new();
    options.write(true);
    options.create_new(true);
    options
}
