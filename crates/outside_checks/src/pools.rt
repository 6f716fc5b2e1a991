//! Which links a pool takes, gives and hands back.

use check_rows::row::BlockRow;
use check_rows::telling::put_shown;
use check_rows::texts::number;
use conn_pool::{LinkList, Pool};
use jk_io::NoMemory;
use std::alloc::Global;

/// The most links that a row puts at once.
const MOST_LINKS: usize = 100;

/// What comes of calls of a pool with the size that the row gives.
pub fn tell(alloc: Global, row: BlockRow<'_>, out: &mut String) -> Result<(), NoMemory> {
    let size = small(row.word("size"));
    tell_acts(alloc, &mut Pool::new(alloc, size)?, row.word("acts"), out)
}

/// The number that a word writes, 0 where it is none of 32 bits.
pub fn small(word: &str) -> u32 {
    u32::try_from(number(word)).unwrap_or(0)
}

fn tell_acts(
    alloc: Global,
    pool: &mut Pool<u32>,
    acts: &str,
    out: &mut String,
) -> Result<(), NoMemory> {
    for act in acts.split(" & ") {
        do_act(alloc, pool, act, out)?;
    }
    Ok(())
}

/// `put L` puts a link, `puts L M ..` links, `take` and `takes` take one and all, `len` tells how many are idle.
fn do_act(
    alloc: Global,
    pool: &mut Pool<u32>,
    act: &str,
    out: &mut String,
) -> Result<(), NoMemory> {
    match act.split_once(' ') {
        Some(("put", link)) => put_shown(out, &pool.put(small(link))),
        Some((_, links)) => put_shown(out, &put_all(pool, links_of(alloc, links)?)),
        None if act == "take" => put_shown(out, &pool.take()),
        None if act == "takes" => put_shown(out, &pool.take_all(alloc)?.as_slice()),
        None => put_shown(out, &pool.len()),
    }
}

/// The links of a list; it has few.
pub fn links_of(alloc: Global, list: &str) -> Result<LinkList<u32>, NoMemory> {
    let mut links = LinkList::new(alloc);
    for link in list.split(' ') {
        links.push(small(link))?;
    }
    Ok(links)
}

fn put_all(pool: &mut Pool<u32>, links: LinkList<u32>) -> u32 {
    if links.len() > MOST_LINKS {
        return 0;
    }
    pool.put_all(links)
}
