//! The parts of a status page as they come.

use check_lines::begin::named_opening;
use jk_io::{Bytes, NoMemory};
use lb_book::Book;
use lb_model::Method;
use status_worker::{Address, AddressList, BalancerType, Mime, PageList, PagePart, render_as};
use std::alloc::Global;

/// Balancers that are to stand on a page.
#[derive(Drop)]
pub struct Paged {
    parts: PageList,
}

fn type_of(word: &str) -> Option<BalancerType> {
    match word {
        "lb" => Some(BalancerType::Lb),
        "ajp13" => Some(BalancerType::Ajp13),
        _ => None,
    }
}

/// The name and the method of the opening that these lines are.
fn name_of(alloc: Global, lines: &[u8]) -> Result<Option<(Bytes, Method)>, NoMemory> {
    match named_opening(alloc, lines)? {
        Some((name, opening)) => Ok(Some((name, opening.config.method))),
        None => Ok(None),
    }
}

/// The addresses of a balancer's members, all of them localhost:8009.
fn addresses_of(alloc: Global, members: usize) -> Result<AddressList, NoMemory> {
    let mut addresses = AddressList::new(alloc);
    for _ in 0..members {
        addresses.push(Address {
            host: Bytes::from_slice(alloc, b"localhost")?,
            port: 8009,
        })?;
    }
    Ok(addresses)
}

fn part_of(
    alloc: Global,
    type_: BalancerType,
    name: Bytes,
    method: Method,
    book: &Book,
) -> Result<PagePart, NoMemory> {
    let view = book.view()?;
    Ok(PagePart {
        type_,
        name,
        method,
        addresses: addresses_of(alloc, view.rows.len())?,
        view,
    })
}

/// How a page is written, and whether its table has forms.
fn way_of(word: &str) -> Option<(Mime, bool)> {
    match word {
        "" => Some((Mime::Txt, true)),
        "html" => Some((Mime::Html, false)),
        "forms" => Some((Mime::Html, true)),
        "prom" => Some((Mime::Prom, true)),
        _ => None,
    }
}

impl Paged {
    pub fn new(alloc: Global) -> Paged {
        Paged {
            parts: PageList::new(alloc),
        }
    }

    fn add_named(
        &mut self,
        alloc: Global,
        type_: BalancerType,
        name: Bytes,
        method: Method,
        book: &Book,
    ) -> Result<bool, NoMemory> {
        self.parts.push(part_of(alloc, type_, name, method, book)?)?;
        Ok(true)
    }

    fn add_of(
        &mut self,
        alloc: Global,
        type_: BalancerType,
        lines: &[u8],
        book: &Book,
    ) -> Result<bool, NoMemory> {
        match name_of(alloc, lines)? {
            Some((name, method)) => self.add_named(alloc, type_, name, method, book),
            None => Ok(false),
        }
    }

    /// Adds a balancer of this type whose opening was these lines, as its Book is now. False where there is none.
    pub fn add(
        &mut self,
        alloc: Global,
        type_: &str,
        lines: &[u8],
        book: &Book,
    ) -> Result<bool, NoMemory> {
        match type_of(type_) {
            Some(type_) => self.add_of(alloc, type_, lines, book),
            None => Ok(false),
        }
    }

    /// Puts the page, written in the way of this word, and takes the balancers from it. False for another word.
    pub fn tell(&mut self, alloc: Global, way: &str, out: &mut Bytes) -> Result<bool, NoMemory> {
        let Some((mime, may_change)) = way_of(way) else {
            return Ok(false);
        };
        out.extend(render_as(alloc, mime, may_change, &self.parts)?.as_slice())?;
        self.parts = PageList::new(alloc);
        Ok(true)
    }
}
