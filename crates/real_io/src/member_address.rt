//! Where a member is reached.
ghost use Rattle.std.specs.Prelude.{◌≡◌, IfOk};
ghost use Rattle.real_io.specs.MemberAddresses.{is_same};

use jk_io::{Bytes, NoMemory};

/// The host and the port at which a member is reached.
#[derive(Drop)]
pub(crate) struct MemberAddress {
    pub host: Bytes,
    pub port: u16,
}

impl MemberAddress {
    /// This host and this port.
    pub(crate) fn of(host: &Bytes, port: u16) -> Result<MemberAddress, NoMemory>
        ensures { IfOk result (λ address. (address.host ≡ host.now) × (address.port ≡ port)) }
    {
        Ok(MemberAddress {
            host: host.copy()?,
            port,
        })
    }

    /// The same one, for another owner.
    pub(crate) fn copy(&self) -> Result<MemberAddress, NoMemory>
        ensures { IfOk result (λ copy. copy ≡ self.now) }
    {
        MemberAddress::of(&self.host, self.port)
    }

    /// Whether it is the same as another.
    pub(crate) fn is(&self, other: &MemberAddress) -> bool
        ensures { result ≡ is_same self.now other.now }
    {
        self.port == other.port && self.host == other.host
    }
}
