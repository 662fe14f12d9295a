//! Why there is no answer.

ghost use Rattle.std.specs.Prelude.{◌≡◌};
ghost use Rattle.x509_revoked_cli.specs.Stops.{why_words};
ghost use Rattle.x509_revoked_cli.specs.declared.stop.Stop.{Stop};

use std::alloc::{AllocError, AllocFailed};

/// Why there is no answer.
#[derive(Clone, Copy, Debug, Eq, PartialEq)]
pub enum Stop {
    /// Memory was refused.
    Memory,
    /// A certificateIssuer can't be read, so nobody knows whose the entries behind it are.
    Unclear,
}

impl Stop {
    /// Why, in the words that standard error is told.
    pub fn why(self) -> &'static str
        ensures { result.now ≡ why_words self }
    {
        match self {
            Stop::Memory => "out of memory",
            Stop::Unclear => "the issuer of an entry can't be read",
        }
    }
}

impl From<AllocError> for Stop {
    ghost from_gives = { λ _ s. s ≡ Stop.Memory };

    fn from(_refused: AllocError) -> Stop {
        Stop::Memory
    }
}

impl From<AllocFailed<u8>> for Stop {
    ghost from_gives = { λ _ s. s ≡ Stop.Memory };

    fn from(_refused: AllocFailed<u8>) -> Stop {
        Stop::Memory
    }
}
