//! The page of a status worker, as a reply.
ghost use Rattle.std.specs.Prelude.{◌≡◌, ◌<◌, ◌++◌, length, map, IfOk, IfSome, OnOk};
ghost use Rattle.status_worker.specs.Mimes.{mime_of};
ghost use Rattle.status_worker.specs.Desks.{members_in};
ghost use Rattle.status_worker.specs.Pages.{
  AreSeen,
  IsPage,
  IsPageOf,
  IsSeen,
  address_of as address_by,
  last_line as last_line_of,
  page_head,
  page_reply,
  page_type,
  sent_of,
  shown_for,
  type_of as type_by,
};

use crate::request::PageRequest;
use crate::{Address, AddressList, BalancerType, Mime, PageList, PagePart, read_mime, render_as};
use http_out::{RequestKind, put_date};
use jk_io::{Bytes, ListOf, NoMemory, put_decimal};
use lb_book::Desk;
use lb_model::View;
use site_config::{Config, Endpoint, Lb};
use std::alloc::Global;

fn type_of(lb: &Lb) -> BalancerType
    ensures { result ≡ type_by lb.now }
{
    if lb.book.direct {
        BalancerType::Ajp13
    } else {
        BalancerType::Lb
    }
}

fn address_of(end: &Endpoint) -> Result<Address, NoMemory>
    ensures { IfOk result (λ address. address ≡ address_by end.now) }
{
    Ok(Address {
        host: end.host.copy()?,
        port: end.port,
    })
}

/// Where the members are reached.
fn addresses_of(alloc: Global, ends: &[Endpoint]) -> Result<AddressList, NoMemory>
    ensures { IfOk result (λ addresses. addresses ≡ map address_by ends.now) }
{
    let mut addresses = ListOf::new(alloc);
    for end in ends {
        addresses.push(address_of(end)?)?;
    }
    Ok(addresses)
}

/// A balancer as it is seen now.
fn part_of(lb: &Lb, view: &View) -> Result<PagePart, NoMemory>
    ensures { IfOk result (λ part. part ≡ record {
      type_ = type_by lb.now;
      name = lb.now.name;
      method = lb.now.book.method;
      view = view.now;
      addresses = map address_by lb.now.ends;
    }) }
{
    Ok(PagePart {
        type_: type_of(lb),
        name: lb.name.copy()?,
        method: lb.book.method,
        view: view.copy()?,
        addresses: addresses_of(lb.ends.allocator(), lb.ends.as_slice())?,
    })
}

fn look_at<B: Desk>(desk: &mut B, lb: &Lb, place: u32) -> Result<PagePart, NoMemory>
where
    B::Shown: Drop,
    requires { place < length (B.state desk.old).sizes }
    ensures seen { IfOk result (IsSeen (B.state desk.old) place lb.now) }
    ensures same { B.state desk.new ≡ B.state desk.old }
{
    let shown = desk.look(place)?;
    part_of(lb, B::shown(&shown))
}

/// The balancers of the page of all.
fn all_parts<B: Desk>(alloc: Global, cfg: &Config, desk: &mut B) -> Result<PageList, NoMemory>
where
    B::Shown: Drop,
    requires sizes { (B.state desk.old).sizes ≡ members_in cfg.now.lbs }
    ensures seen { IfOk result (AreSeen (B.state desk.old) 0 cfg.now.lbs) }
    ensures same { B.state desk.new ≡ B.state desk.old }
{
    let mut parts = ListOf::new(alloc);
    let mut place = 0;
    for lb in cfg.lbs.as_slice() {
        parts.push(look_at(desk, lb, place)?)?;
        place += 1;
    }
    Ok(parts)
}

/// The balancers of a page: the one at `only`, or all.
fn parts_of<B: Desk>(
    alloc: Global,
    cfg: &Config,
    only: Option<u32>,
    desk: &mut B,
) -> Result<PageList, NoMemory>
where
    B::Shown: Drop,
    requires within { IfSome only (λ lb. lb < length cfg.now.lbs) }
    requires sizes { (B.state desk.old).sizes ≡ members_in cfg.now.lbs }
    ensures seen { IfOk result (IsPageOf cfg.now (B.state desk.old) only) }
    ensures same { B.state desk.new ≡ B.state desk.old }
{
    let Some(place) = only else {
        return all_parts(alloc, cfg, desk);
    };
    let mut parts = ListOf::new(alloc);
    parts.push(look_at(desk, &cfg.lbs.as_slice()[place as usize], place)?)?;
    Ok(parts)
}

/// The line that ends a session after this reply, if it is to end.
fn last_line(last: bool) -> &'static [u8]
    ensures { result.now ≡ last_line_of last }
{
    if last { b"Connection: close\r\n" } else { b"" }
}

/// The lines of a page's reply up to its length.
fn put_page_type(reply: &mut Bytes, mime: Mime) -> Result<(), NoMemory>
    ensures { OnOk result (reply.new ≡ reply.old ++ page_type mime) }
{
    reply.extend(b"HTTP/1.1 200 OK\r\nContent-Type: ")?;
    reply.extend(mime.content_type())?;
    reply.extend(b"\r\nContent-Length: ")
}

/// The head of a page's reply.
fn put_page_head(
    reply: &mut Bytes,
    mime: Mime,
    len: usize,
    kind: RequestKind,
) -> Result<(), NoMemory>
    ensures { OnOk result (reply.new ≡ reply.old ++ page_head mime len kind) }
{
    put_page_type(reply, mime)?;
    put_decimal(reply, len as u128)?;
    reply.extend(b"\r\n")?;
    put_date(reply, kind.date)?;
    reply.extend(last_line(kind.last))?;
    reply.extend(b"\r\n")?;
    Ok(())
}

/// The page's reply: its head, and its bytes unless the head alone is asked for.
fn reply_of(alloc: Global, mime: Mime, page: &Bytes, kind: RequestKind) -> Result<Bytes, NoMemory>
    ensures { IfOk result (λ reply. reply ≡ page_reply mime kind page.now) }
{
    let mut reply = Bytes::new(alloc);
    put_page_head(&mut reply, mime, page.len(), kind)?;
    if !kind.head_only {
        reply.extend(page.as_slice())?;
    }
    Ok(reply)
}

/// How many bytes of a page are sent.
fn page_len(page: &Bytes, head_only: bool) -> u64
    ensures { result ≡ length (sent_of head_only page.now) }
{
    if head_only { 0 } else { page.len() as u64 }
}

/// A page ready to be sent, and how many bytes of it are sent.
#[derive(Drop)]
pub struct Page {
    pub reply: Bytes,
    pub len: u64,
}

/// How the page of this query is written.
fn mime_of(alloc: Global, query: &Option<Bytes>) -> Result<Mime, NoMemory>
    ensures { IfOk result (λ mime. mime ≡ mime_of query.now) }
{
    match query {
        None => read_mime(alloc, None),
        Some(query) => read_mime(alloc, Some(query.as_slice())),
    }
}

/// The page of these balancers.
fn page_for(
    alloc: Global,
    asked: &PageRequest,
    parts: &PageList,
    kind: RequestKind,
) -> Result<Page, NoMemory>
    ensures reply { IfOk result (λ page. page.reply
        ≡ page_reply (mime_of asked.now.query.now) kind (shown_for asked.now.status.now asked.now.query.now parts.now)) }
    ensures len { IfOk result (λ page. page.len
        ≡ length (sent_of kind.head_only (shown_for asked.now.status.now asked.now.query.now parts.now))) }
{
    let mime = mime_of(alloc, asked.query)?;
    let page = render_as(alloc, mime, !asked.status.read_only, parts)?;
    Ok(Page {
        reply: reply_of(alloc, mime, &page, kind)?,
        len: page_len(&page, kind.head_only),
    })
}

/// The page of one balancer, or of all, written as the request asks for it.
pub fn page_at<B: Desk>(
    alloc: Global,
    asked: &PageRequest,
    only: Option<u32>,
    kind: RequestKind,
    desk: &mut B,
) -> Result<Page, NoMemory>
where
    B::Shown: Drop,
    requires within { IfSome only (λ lb. lb < length asked.now.cfg.now.lbs) }
    requires sizes { (B.state desk.old).sizes ≡ members_in asked.now.cfg.now.lbs }
    ensures page { IfOk result (λ page. IsPage asked.now.cfg.now asked.now.status.now asked.now.query.now (B.state desk.old) only kind page) }
    ensures same { B.state desk.new ≡ B.state desk.old }
{
    let parts = parts_of(alloc, asked.cfg, only, desk)?;
    page_for(alloc, asked, &parts, kind)
}
