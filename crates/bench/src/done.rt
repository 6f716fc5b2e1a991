//! The amount and the figures of a piece of work, and how they are told.

use std::io;
use std::time::Instant;

/// What was done.
#[derive(Clone, Copy)]
pub struct Done {
    /// How much was done; its rate a second may be shown.
    pub amount: u64,
    /// The figures of its line.
    pub figures: [u64; 3],
}

fn put_figures(rt: &HostRuntime, words: &[&str], figures: &[u64]) -> io::Result<()> {
    for (word, figure) in words.iter().zip(figures) {
        rt.print(*figure)?;
        rt.print(*word)?;
    }
    rt.println("")
}

/// Prints a line: words with a figure between each two. Without words it prints none.
pub fn tell(rt: &HostRuntime, words: &[&str], figures: &[u64]) -> io::Result<()> {
    let [first, rest @ ..] = words else {
        return Ok(());
    };
    rt.print(*first)?;
    put_figures(rt, rest, figures)
}

fn rate_since(rt: &HostRuntime, amount: u64, start: Instant) -> io::Result<u64> {
    let spent = start.elapsed(rt)?.as_micros().max(1);
    let rate = u128::from(amount) * 1_000_000 / spent;
    Ok(rate.min(u128::from(u64::MAX)) as u64)
}

/// Prints how much of something was done a second since the start.
pub fn show(rt: &HostRuntime, what: &str, amount: u64, start: Instant) -> io::Result<()> {
    rt.print(what)?;
    tell(rt, &[": ", " a second"], &[rate_since(rt, amount, start)?])
}
