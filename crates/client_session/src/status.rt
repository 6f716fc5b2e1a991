//! A request of a status worker: its commands are done, and its page written.
ghost use Rattle.std.specs.Prelude.{◌≡◌, ◌<◌, IfSome, length};
ghost use Rattle.lb_book.specs.Desks.{MeetsNone};
ghost use Rattle.exchange.specs.Requests.{sizes_of};
ghost use Rattle.client_session.specs.Keeping.{KeepsAround};
ghost use Rattle.client_session.specs.Ready.{IsReady};
ghost use Rattle.client_session.specs.Requests.{visit_of};
ghost use Rattle.client_session.specs.Standings.{IsClientStep};
ghost use Rattle.client_session.specs.Surroundings.{SendsPage, Shows, standing_of};

use crate::ending::SessionStop;
use crate::inquiry::{Inquiry, kind_of, own_kind_of};
use crate::surroundings::Surroundings;
use crate::writing::{send, write_refusal};
use jk_io::{Clock, Link, Reach, Sink};
use lb_book::Desk;
use site_config::Status;
use status_worker::{NoPage, PageRequest, change, page_at};
use std::alloc::Global;

/// Answers a request of a status worker: the page's length, or why there is none.
pub(crate) fn serve_status<B: Desk, R: Reach, C: Link, K: Clock>(
    alloc: Global,
    of: &Inquiry,
    status: &Status,
    around: &mut Surroundings<B, K, R, C>,
) -> Result<u64, SessionStop>
where
    B::Mark: Drop,
    B::Shown: Drop,
    requires ready { IsReady (visit_of of.now.site.now) (B.state around.old.desk.now) (R.beside around.old.reach.now) }
    ensures answer { let at = standing_of B.state K.answers R.Meanings C.Meanings in
        Shows of.now status.now (at around.old) (at around.new) result }
    ensures met { MeetsNone (B.state around.old.desk.now) (B.state around.new.desk.now) }
    ensures kept { KeepsAround B.state R.Meanings C.Meanings (visit_of of.now.site.now) around.old around.new }
    ensures same_reach { around.new.reach.now ≡ around.old.reach.now }
{
    let asked = PageRequest {
        cfg: of.site.cfg,
        session: of.site.session,
        status,
        query: &of.head.query,
    };
    match change(alloc, &asked, around.desk, around.clock) {
        Ok(only) => send_page(alloc, of, status, only, around.desk, around.client),
        Err(NoPage::Refused(refusal)) => {
            Err(write_refusal(refusal, own_kind_of(of), around.client))
        }
        Err(NoPage::NoMemory) => Err(SessionStop::NoMemory),
    }
}

/// Makes the page of one balancer, or of all, and sends it: the page's length, or why there is none.
fn send_page<B: Desk, C: Sink>(
    alloc: Global,
    of: &Inquiry,
    status: &Status,
    only: Option<u32>,
    desk: &mut B,
    client: &mut C,
) -> Result<u64, SessionStop>
where
    B::Shown: Drop,
    requires within { IfSome only (λ lb. lb < length of.now.site.now.cfg.now.lbs) }
    requires sizes { (B.state desk.old).sizes ≡ sizes_of of.now.site.now.cfg.now.lbs }
    ensures sent { IsClientStep C.Meanings client.old client.new (λ s n. SendsPage of.now status.now only (B.state desk.old) s n result) }
    ensures seen { B.state desk.new ≡ B.state desk.old }
{
    let asked = PageRequest {
        cfg: of.site.cfg,
        session: of.site.session,
        status,
        query: &of.head.query,
    };
    let Ok(page) = page_at(alloc, &asked, only, kind_of(of), desk) else {
        return Err(SessionStop::NoMemory);
    };
    match send(page.reply.as_slice(), client) {
        Ok(()) => Ok(page.len),
        Err(stop) => Err(stop),
    }
}
