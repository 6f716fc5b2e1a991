//! The rows of answered requests, for a log.
ghost use Rattle.std.specs.Prelude.{◌≡◌, [], length};
ghost use Rattle.http_out.specs.Own.{status_of};
ghost use Rattle.status_worker.specs.Pages.{sent_of};
ghost use Rattle.status_worker.specs.Refusals.{refusal_body};
ghost use Rattle.client_session.specs.Answers.{own_len as own_length};

use http_front::Head;
use http_out::{Own, own_body};
use jk_io::{Bytes, NoMemory};
use lb_model::{Asked, Served};
use status_worker::PageRefusal;
use std::alloc::Global;

/// The length of an own answer's body.
fn own_len(own: Own, head_only: bool) -> u64
    ensures { result ≡ own_length (status_of own) head_only }
{
    if head_only {
        return 0;
    }
    own_body(own.status()).len() as u64
}

/// The length of a refusal's body, as much of it as is sent.
fn refusal_len(refusal: PageRefusal, head_only: bool) -> u64
    ensures { result ≡ length (sent_of head_only (refusal_body refusal)) }
{
    if head_only {
        return 0;
    }
    refusal.body().len() as u64
}

/// A row under way: what was asked for, and memory for the worker's name, of which nothing is written yet.
#[derive(Drop)]
pub struct Row {
    asked: Asked,
    name: Vec<u8>,
    ghost unnamed: { name.items ≡ [] },
}

impl Row {
    ghost use Rattle.std.specs.Prelude.{◌≡◌, ◌≤◌, length, vec_capacity, IfOk};
    ghost use Rattle.http_out.specs.Own.{status_of};
    ghost use Rattle.lb_model.specs.declared.served.Asked.TheVariants as asked_is;
    ghost use Rattle.client_session.specs.Rows.{IsRowOf, own_row_by, refusal_row_by, worker_row};

    /// The row of a refused head.
    pub(crate) fn refused(alloc: Global) -> Row
        ensures { result.asked ≡ asked_is.Refused }
    {
        Row {
            asked: Asked::Refused,
            name: Vec::new(alloc),
        }
    }

    /// The row of a request, with memory for a worker's name of `longest` bytes.
    pub(crate) fn of(alloc: Global, head: &Head, longest: usize) -> Result<Row, NoMemory>
        ensures { IfOk result (IsRowOf head.now longest) }
    {
        Ok(Row {
            asked: Asked::Line {
                method: head.method.copy()?,
                target: head.target.copy()?,
                old: head.old,
            },
            name: Vec::with_capacity(alloc, longest)?,
        })
    }

    /// The row of a reply or a page of this worker.
    pub(crate) fn of_worker(self, status: u16, body: u64, worker: &[u8]) -> Served
        requires { length worker.now ≤ vec_capacity self.name }
        ensures { result ≡ worker_row self.asked status body worker.now }
    {
        let Row { asked, mut name } = self;
        let Ok(()) = name.extend_from_slice(worker) else {
            unreachable!()
        };
        Served {
            asked,
            status,
            body,
            worker: Some(Bytes::from_vec(name)),
        }
    }

    /// The row of an own answer.
    pub(crate) fn own(self, own: Own, head_only: bool) -> Served
        ensures { result ≡ own_row_by self.asked (status_of own) head_only }
    {
        let Row { asked, name: _ } = self;
        Served {
            asked,
            status: own.status(),
            body: own_len(own, head_only),
            worker: None,
        }
    }

    /// The row of a status worker's request that was refused.
    pub(crate) fn turned_away(self, refusal: PageRefusal, head_only: bool) -> Served
        ensures { result ≡ refusal_row_by self.asked refusal head_only }
    {
        let Row { asked, name: _ } = self;
        Served {
            asked,
            status: refusal.code(),
            body: refusal_len(refusal, head_only),
            worker: None,
        }
    }
}
