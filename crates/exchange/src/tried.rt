//! The members that were tried, as a set of bits.
ghost use Rattle.std.specs.Prelude.{◌≡◌, ◌+◌, ◌<◌, ◌^◌, false};
ghost use Rattle.lb_model.specs.Free.{is_in};
ghost use Rattle.lb_model.specs.declared.config.TheConstants.{MAX_MEMBERS};

/// The set with one more member.
pub(crate) fn with_member(tried: u64, member: u32) -> u64
    requires member { member < MAX_MEMBERS }
    requires untried { is_in tried member ≡ false }
    ensures { result ≡ tried + 2 ^ member }
{
    tried + (1 << member)
}
