//! How fast the parts are: packets, heads, bodies, choices, the texts of a site and the check of a journal.
//!
//! Without a word it makes one small round of each and prints no time. `ajp N`, `heads N`, `bodies N` and `book N` make
//! N rounds, of which bench/ has the same work in plain C. `site N` and `map N` read a workers.properties and a
//! uriworkermap.properties of N bytes, `lines N` a workers.properties of N short lines without effect, `lists N` N
//! balancers that borrow one list, and `journal N` checks the text of N exchanges. They print figures, and how much
//! of it is done a second.
#![tactic(auto)]

mod bodies;
mod book;
mod done;
mod feed;
mod heads;
mod journal;
mod map;
mod parts;
mod replies;
mod requests;
mod running;
mod site;

use parts::parts;
use running::run;
use std::{env, io};

const WORDS: &str = "the words are ajp, heads, bodies, book, site, map, lines, lists and journal";

/// A word of the command line.
fn word_at(rt: &HostRuntime, place: usize) -> io::Result<Option<String>> {
    Ok(env::args(rt)?.nth(place))
}

/// How much the second word asks for.
fn amount(rt: &HostRuntime) -> io::Result<Option<u32>> {
    match word_at(rt, 2)? {
        Some(word) => Ok(word.as_str().parse::<u32>().ok()),
        None => Ok(None),
    }
}

fn small_rounds(rt: &HostRuntime) -> io::Result<()> {
    for part in parts() {
        run(rt, part, None)?;
    }
    Ok(())
}

/// Measures each part of a word, and answers whether it has one.
fn measure_parts(rt: &HostRuntime, word: &str, amount: u32) -> io::Result<bool> {
    let mut known = false;
    for part in parts() {
        if part.word == word {
            known = true;
            run(rt, part, Some(amount))?;
        }
    }
    Ok(known)
}

fn measure(rt: &HostRuntime, word: &str) -> io::Result<()> {
    let Some(amount) = amount(rt)? else {
        return Err(io::Error::other("how much of it?"));
    };
    if !measure_parts(rt, word, amount)? {
        return Err(io::Error::other(WORDS));
    }
    Ok(())
}

fn main(rt: HostRuntime) -> io::Result<()> {
    match word_at(&rt, 1)? {
        Some(word) => measure(&rt, word.as_str()),
        None => small_rounds(&rt),
    }
}
