//! Who asks a server to stop, over a Unix socket.
ghost use Rattle.std.specs.Prelude.{◌≡◌, ◌↔◌, [], IsTrue, codes};

use std::io::{Read, Write};
use std::os::unix::net::{UnixListener, UnixStream};
use std::time::Duration;

/// The most bytes of a word.
const WORD_BYTES: usize = 64;

/// The word that asks for a stop.
const STOP: &[u8] = b"stop\n";

/// What is answered once the run ended.
const ENDED: &[u8] = b"ended\n";

/// How long a word is waited for.
const WORD_MILLIS: u64 = 1_000;

/// Where a stop is asked for.
#[derive(Drop)]
pub(crate) struct Control {
    /// It doesn't wait.
    pub listener: UnixListener,
    /// The seconds that requests under way may take after a stop.
    pub grace: u64,
}

/// Those who asked for a stop.
#[derive(Drop)]
pub(crate) struct Askers {
    pub streams: Vec<UnixStream>,
}

impl Askers {
    /// Hears all who come, and tells whether one asked for a stop.
    pub fn hear(&mut self, control: &Control) -> bool {
        let mut is_asked = false;
        for _ in 0..u64::MAX {
            let Ok((stream, _)) = control.listener.accept() else {
                break;
            };
            is_asked |= self.hear_one(stream);
        }
        is_asked
    }

    // Hears one who came. For want of memory it gets no answer.
    fn hear_one(&mut self, stream: UnixStream) -> bool {
        let mut stream = stream;
        let asks = asks_to_stop(&mut stream);
        if asks {
            let _ = self.streams.push(stream);
        }
        asks
    }

    /// Tells all who asked that the run ended, and lets them go.
    pub fn answer(&mut self)
        ensures { self.new.streams.items ≡ [] }
    {
        for stream in &mut self.streams {
            let _ = stream.write_all(ENDED);
        }
        self.streams.clear();
    }
}

// Whether the word is the one that asks for a stop.
fn is_stop(word: &[u8]) -> bool
    ensures { IsTrue result ↔ (word.now ≡ codes "stop\n") }
{
    word == STOP
}

// Whether the word that comes asks for a stop.
fn asks_to_stop(stream: &mut UnixStream) -> bool {
    let _ = stream.set_nonblocking(false);
    let _ = stream.set_read_timeout(Some(Duration::from_millis(WORD_MILLIS)));
    let mut buf = [0u8; WORD_BYTES];
    match stream.read(&mut buf) {
        Ok(n) => buf.get(..n).is_some_and(is_stop),
        Err(_) => false,
    }
}
