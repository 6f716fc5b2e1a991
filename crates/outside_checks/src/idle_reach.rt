//! A reach over one balancer, between two talks and in one.
ghost use Rattle.std.specs.Prelude.{◌≡◌, ◌<◌, false, true, slice_index};

use jk_io::Reach;

/// A reach in no talk, whose balancer has a member.
#[derive(Drop)]
pub struct IdleReach<R: Reach> {
    pub reach: R,
    pub ghost idle: { (R.beside reach).runs ≡ false },
    pub ghost known: { 0 < slice_index (R.beside reach).sizes 0 },
}

/// A reach in a talk, whose balancer has a member.
#[derive(Drop)]
pub struct TalkingReach<R: Reach> {
    pub reach: R,
    pub ghost runs: { (R.beside reach).runs ≡ true },
    pub ghost known: { 0 < slice_index (R.beside reach).sizes 0 },
}

/// A reach in no talk, whose balancer has two members.
#[derive(Drop)]
pub struct TwofoldReach<R: Reach> {
    pub reach: R,
    pub ghost idle: { (R.beside reach).runs ≡ false },
    pub ghost known: { 1 < slice_index (R.beside reach).sizes 0 },
}
