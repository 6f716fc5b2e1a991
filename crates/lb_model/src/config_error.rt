//! The reasons why a balancer's configuration is refused.
use thiserror::Error;

/// Why a balancer's configuration is refused.
#[derive(Clone, Copy, Debug, PartialEq, Eq, Error)]
pub enum ConfigError {
    #[error("the balancer has no member")]
    NoMembers,
    #[error("the balancer has more than 64 members")]
    TooMany,
    #[error("member {index} has a value out of range, or a redirect to itself or to no member")]
    BadMember { index: u32 },
    #[error("maintain and recover are 1 to 86400 seconds")]
    BadTime,
    #[error("the least common multiple of the factors is above 4294967295")]
    TooWide,
}
