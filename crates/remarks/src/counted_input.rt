//! An input of which it is known what came, and whether a read failed.
ghost use Rattle.std.specs.Prelude.{◌≡◌, ◌<◌, ◌≤◌, false, IfOk, IsErrOf, IsOk, length, OnErr, take};
ghost use Rattle.jk_io.specs.Told.{appended, HasCause, IsEmpty, prepended};
ghost use Rattle.remarks.specs.Seen.{seen_after};

use crate::input_seen::InputSeen;
use jk_io::{IoError, Meanings, Source};

/// An input, and what is known of it.
#[derive(Drop)]
pub struct CountedInput<S: Source + Drop> {
    input: S,
    seen: InputSeen,
}

impl<S: Source + Drop> CountedInput<S> {
    pub fn new(input: S) -> CountedInput<S>
        ensures { (result.input ≡ input) × (result.seen ≡ record { bytes = 0; failed = false }) }
    {
        CountedInput {
            input,
            seen: InputSeen {
                bytes: 0,
                failed: false,
            },
        }
    }

    /// What is known of it.
    pub fn seen(&self) -> InputSeen
        ensures { result ≡ self.now.seen }
    {
        self.seen
    }
}

impl<S: Source + Drop> Meanings for CountedInput<S> {
    type Beside = S::Beside;

    ghost incoming = { λ c. S.incoming c.input };

    ghost received = { λ c. S.received c.input };

    ghost sent = { λ c. S.sent c.input };

    ghost beside = { λ c. S.beside c.input };

    ghost faults = { λ c. S.faults c.input };

    ghost is_open = { λ c. S.is_open c.input };
}

impl<S: Source + Drop> Source for CountedInput<S> {
    fn read(&mut self, buf: &mut [u8]) -> Result<usize, IoError>
        requires { 0 < length buf.old }

        ensures count { IfOk result (λ n. n ≤ length buf.new) }
        ensures gave { IfOk result (λ n. S.incoming self.old.input ≡ prepended (take n buf.new) (S.incoming self.new.input)) }
        ensures got { IfOk result (λ n. S.received self.new.input ≡ appended (S.received self.old.input) (take n buf.new)) }
        ensures end { IfOk result (λ n. n ≡ 0 → IsEmpty (S.incoming self.new.input)) }
        ensures shut { S.is_open self.old.input ≡ false → IsErrOf result IoError.Failed }
        ensures kept_on_error { OnErr result ((S.incoming self.new.input ≡ S.incoming self.old.input) × (S.received self.new.input ≡ S.received self.old.input)) }
        ensures same { (S.sent self.new.input ≡ S.sent self.old.input) × (S.beside self.new.input ≡ S.beside self.old.input) }
        ensures cause { HasCause (S.faults self.old.input) (S.faults self.new.input) result }
        ensures steady { IsOk result → S.faults self.new.input ≡ S.faults self.old.input }

        // How many bytes came is counted, and that a read failed is noted.
        ensures seen { self.new.seen ≡ seen_after self.old.seen result }
    {
        let answer = self.input.read(buf);
        match answer {
            Ok(count) => self.seen.bytes = self.seen.bytes.saturating_add(count as u64),
            Err(IoError::Failed) => self.seen.failed = true,
            Err(IoError::NoMemory) => {}
        }
        answer
    }
}
