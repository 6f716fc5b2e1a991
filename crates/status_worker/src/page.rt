//! The page.
ghost use Rattle.std.specs.Prelude.{◌≡◌, ◌++◌, IfOk, OnOk};
ghost use Rattle.std.specs.List.{flat_map};
ghost use Rattle.status_worker.specs.Metrics.{metrics_page};
ghost use Rattle.status_worker.specs.Page.{page_of, part_lines};
ghost use Rattle.status_worker.specs.Shown.{shown};
ghost use Rattle.status_worker.specs.Table.{html_page};

use crate::balancer_lines::put_part;
use crate::metrics::put_metrics_page;
use crate::mime::Mime;
use crate::table::put_html_page;
use jk_io::{Bytes, ListOf, NoMemory};
use lb_model::{Method, View};
use std::alloc::Global;

/// What a balancer stands for.
#[derive(Clone, Copy)]
pub enum BalancerType {
    /// An lb worker.
    Lb,
    /// An ajp13 worker that is listed itself: a balancer of one member.
    Ajp13,
}

/// Where a member is reached.
#[derive(Drop)]
pub struct Address {
    pub host: Bytes,
    pub port: u16,
}

/// One for each member, by index.
pub type AddressList = ListOf<Address>;

/// A balancer as the page shows it.
#[derive(Drop)]
pub struct PagePart {
    pub type_: BalancerType,
    pub name: Bytes,
    pub method: Method,
    pub view: View,
    /// Of its members, which the table alone shows.
    pub addresses: AddressList,
}

/// The balancers of a page, in order.
pub type PageList = ListOf<PagePart>;

/// The page: a first line, and for each balancer in order a line for it and one for each of its members.
pub fn render(alloc: Global, parts: &PageList) -> Result<Bytes, NoMemory>
    ensures { IfOk result (λ page. page ≡ page_of parts.now) }
{
    let mut page = Bytes::from_slice(alloc, b"jk status\n")?;
    put_parts(&mut page, parts.as_slice())?;
    Ok(page)
}

fn put_parts(out: &mut Bytes, parts: &[PagePart]) -> Result<(), NoMemory>
    ensures { OnOk result (out.new ≡ out.old ++ flat_map part_lines parts.now) }
{
    for part in parts {
        put_part(out, part)?;
    }
    Ok(())
}

/// The page of these balancers as `mime` has it; the table has forms where changes may be made.
pub fn render_as(
    alloc: Global,
    mime: Mime,
    may_change: bool,
    parts: &PageList,
) -> Result<Bytes, NoMemory>
    ensures { IfOk result (λ page. page ≡ shown mime may_change parts.now) }
{
    match mime {
        Mime::Txt => render(alloc, parts),
        Mime::Html => render_table(alloc, may_change, parts),
        Mime::Prom => render_figures(alloc, parts),
    }
}

fn render_table(alloc: Global, may_change: bool, parts: &PageList) -> Result<Bytes, NoMemory>
    ensures { IfOk result (λ page. page ≡ html_page may_change parts.now) }
{
    let mut page = Bytes::new(alloc);
    put_html_page(&mut page, may_change, parts.as_slice())?;
    Ok(page)
}

fn render_figures(alloc: Global, parts: &PageList) -> Result<Bytes, NoMemory>
    ensures { IfOk result (λ page. page ≡ metrics_page parts.now) }
{
    let mut page = Bytes::new(alloc);
    put_metrics_page(&mut page, parts.as_slice())?;
    Ok(page)
}
