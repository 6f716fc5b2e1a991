//! The tickets of a Site that are out.
ghost use Rattle.std.specs.Prelude.{◌≡◌, ◌<◌, length};

use lb_model::{Kind, Outcome};
use lb_shared::{Site, SiteLease, SiteName};
use std::sync::ledger::Share;

const GONE: Outcome = Outcome {
    kind: Kind::Gone,
    bytes: 0,
};

/// A Site of one Book, and a share of its ledger.
#[derive(Drop)]
pub struct OneSite<L: SiteName> {
    pub site: Site<L>,
    pub share: Share<L>,
    pub ghost one: { length site ≡ 1 },
    pub ghost part: { 0 < share.parts },
}

/// A ticket of a Site of one Book.
pub struct OneLease<L> {
    pub lease: SiteLease<L>,
    pub ghost own: { lease.lb ≡ 0 },
}

/// Keeps a lease. Where there is no room for it, it comes back.
pub fn keep<L>(leases: &mut Vec<OneLease<L>>, lease: OneLease<L>) -> Result<(), OneLease<L>> {
    match leases.push(lease) {
        Ok(()) => Ok(()),
        Err(refused) => Err(refused.value),
    }
}

/// Takes out the lease of a ticket.
pub fn take<L>(leases: &mut Vec<OneLease<L>>, ticket: u64) -> Option<OneLease<L>> {
    let place = leases.iter().position(|one| one.lease.ticket() == ticket)?;
    Some(leases.remove(place))
}

/// Gives a lease back for a client that left.
pub fn give_up<L: SiteName>(over: &mut OneSite<L>, lease: OneLease<L>) {
    let OneLease { lease } = lease;
    let _answer = over.site.give_back(0, 0, lease, GONE, &mut over.share);
}

/// Gives all leases back.
pub fn give_all_back<L: SiteName>(over: &mut OneSite<L>, leases: Vec<OneLease<L>>) {
    let mut leases = leases;
    while let Some(lease) = leases.pop() {
        give_up(over, lease);
    }
    leases.destroy_empty();
}
