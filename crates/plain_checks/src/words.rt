//! Rows of words.
//!
//! `words`: the order that the words are, or `no command`, and where the help's command doesn't take it.
//! `help`: the text that the words ask for.
use crate::row_text::RowText;
use check_rows::row::{BlockRow, RowError};
use jk_cli::{Order, ServeOrder, command, command_of, read_words};
use jk_io::{Bytes, NoMemory};
use plain_commands::asked_text;
use std::alloc::Global;

/// An option's number, where it is given.
fn put_given(out: &mut RowText, name: &[u8], number: Option<u64>) {
    if let Some(number) = number {
        out.number(name, number);
    }
}

/// An option's count of looks, where it is given.
fn put_looks(out: &mut RowText, name: &[u8], looks: Option<u32>) {
    if let Some(looks) = looks {
        out.number(name, u64::from(looks));
    }
}

/// An option's word, where it is given.
fn put_text(out: &mut RowText, name: &[u8], text: &Option<Bytes>) {
    if let Some(text) = text {
        out.put(name);
        out.put(text.as_slice());
    }
}

fn put_log(out: &mut RowText, order: &Order) {
    let Order::Log {
        format,
        request,
        reply,
        workers,
        map,
    } = order
    else {
        return;
    };
    out.put(b"log");
    out.words(&[format.as_slice(), request.as_slice(), reply.as_slice()]);
    out.words(&[workers.as_slice(), map.as_slice()]);
}

fn put_dry(out: &mut RowText, request: &Bytes, reply: &Bytes, site: &Option<(Bytes, Bytes)>) {
    out.put(b"dry");
    out.words(&[request.as_slice(), reply.as_slice()]);
    if let Some((workers, map)) = site {
        out.words(&[workers.as_slice(), map.as_slice()]);
    }
}

fn put_drill(out: &mut RowText, order: &Order) {
    let Order::Drill {
        seed,
        threads,
        requests,
        text,
        passes,
    } = order
    else {
        return;
    };
    out.number(b"drill ", *seed);
    out.number(b" ", u64::from(threads.get()));
    out.number(b" ", u64::from(requests.get()));
    out.put(if *text { b" journal" } else { b"" });
    out.put(if *passes { b" passes" } else { b"" });
}

fn put_serve(out: &mut RowText, order: &ServeOrder) {
    out.put(b"serve");
    let (workers, map) = (order.workers.as_slice(), order.map.as_slice());
    out.words(&[workers, map, order.address.as_slice()]);
    out.number(b" ", u64::from(order.threads.get()));
    put_given(out, b" clients ", order.clients);
    put_text(out, b" journal ", &order.journal);
    put_watched(out, order);
    put_front(out, order);
}

/// A number that isn't what it is where its option doesn't stand.
fn put_unusual(out: &mut RowText, name: &[u8], number: u64, usual: u64) {
    if number != usual {
        out.number(name, number);
    }
}

/// What a front is told of its clients and its end.
fn put_front(out: &mut RowText, order: &ServeOrder) {
    let limits = &order.limits;
    put_given(out, b" cut ", order.cut);
    put_text(out, b" control ", &order.control);
    put_unusual(out, b" head ", limits.head, 20);
    put_unusual(out, b" keep ", limits.keep, 60);
    put_unusual(out, b" rate ", limits.rate, 500);
    put_unusual(out, b" waiting ", limits.waiting, 10_000);
    put_unusual(out, b" grace ", order.grace, 30);
}

/// What `serve` watches and logs.
fn put_watched(out: &mut RowText, order: &ServeOrder) {
    put_given(out, b" watch ", order.watch);
    put_looks(out, b" idle ", order.idle);
    put_text(out, b" log ", &order.log);
    put_text(out, b" format ", &order.format);
}

fn put_container(out: &mut RowText, order: &Order) {
    let Order::Container {
        route,
        address,
        threads,
        clients,
    } = order
    else {
        return;
    };
    out.put(b"container");
    out.words(&[route.text().as_slice(), address.as_slice()]);
    out.number(b" ", u64::from(threads.get()));
    put_given(out, b" clients ", *clients);
}

fn put_match(out: &mut RowText, workers: &Bytes, map: &Bytes, verbose: bool) {
    out.put(b"match");
    out.words(&[workers.as_slice(), map.as_slice()]);
    out.put(if verbose { b" verbose" } else { b"" });
}

fn put_order(out: &mut RowText, order: &Order) {
    match order {
        Order::Play => out.put(b"play"),
        Order::Dry {
            request,
            reply,
            site,
        } => put_dry(out, request, reply, site),
        Order::Config { workers, map } => {
            out.put(b"config");
            out.words(&[workers.as_slice()]);
            put_text(out, b" ", map);
        }
        Order::Match {
            workers,
            map,
            verbose,
        } => put_match(out, workers, map, *verbose),
        Order::Check => out.put(b"check"),
        Order::Log { .. } => put_log(out, order),
        Order::Follow => out.put(b"follow"),
        Order::Drill { .. } => put_drill(out, order),
        Order::Serve(order) => put_serve(out, order),
        Order::Container { .. } => put_container(out, order),
        Order::Stop { path } => {
            out.put(b"stop");
            out.words(&[path.as_slice()]);
        }
        Order::Demo { address } => {
            out.put(b"demo");
            out.words(&[address.as_slice()]);
        }
    }
}

/// Lets a value go. A caller's check then doesn't write out the drop of a large value.
pub(crate) fn let_go<T: Drop>(_it: T) {}

/// The words as a command line has them.
fn line_of<'w>(alloc: Global, words: &'w [Bytes]) -> Result<Vec<&'w str>, NoMemory> {
    let mut line = Vec::new(alloc);
    line.push("jkd")?;
    for word in words {
        line.push(str::from_utf8(word.as_slice()).unwrap_or(""))?;
    }
    Ok(line)
}

fn takes_line(alloc: Global, line: &[&str]) -> Result<bool, NoMemory> {
    let parsed = command(alloc)?.try_get_matches_from(line);
    let takes = parsed.is_ok();
    let_go(parsed);
    Ok(takes)
}

fn help_takes(alloc: Global, words: &[Bytes]) -> Result<bool, NoMemory> {
    takes_line(alloc, line_of(alloc, words)?.as_slice())
}

fn put_read(alloc: Global, words: &[Bytes], out: &mut RowText) {
    match read_words(alloc, words) {
        Ok(order) => {
            put_order(out, &order);
            let_go(order);
        }
        Err(_) => out.put(b"no command"),
    }
}

/// The order that the words are. The help's command takes it too.
fn tell_order(alloc: Global, words: &[Bytes], out: &mut RowText) -> Result<(), NoMemory> {
    put_read(alloc, words, out);
    if command_of(words).is_some() && !help_takes(alloc, words)? {
        out.put(b", which the help doesn't take");
    }
    Ok(())
}

/// The text that the words ask for.
fn tell_help(alloc: Global, words: &[Bytes], out: &mut RowText) -> Result<(), NoMemory> {
    if let Some(text) = asked_text(alloc, words)? {
        out.put(text.as_bytes());
    }
    Ok(())
}

/// Adds the order that a row's words are.
pub fn put_words(alloc: Global, row: BlockRow<'_>, out: &mut RowText) -> Result<(), RowError> {
    Ok(tell_order(alloc, row.words(alloc)?.as_slice(), out)?)
}

/// Adds the text that a row's words ask for.
pub fn put_help(alloc: Global, row: BlockRow<'_>, out: &mut RowText) -> Result<(), RowError> {
    Ok(tell_help(alloc, row.words(alloc)?.as_slice(), out)?)
}
