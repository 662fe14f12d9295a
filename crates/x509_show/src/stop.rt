//! Why a run has no report to give.

ghost use Rattle.std.specs.Prelude.{◌≡◌};
ghost use Rattle.x509_show.specs.declared.stop.Stop.{Stop};
ghost use Rattle.x509_show.specs.Runs.{stop_words};

use std::alloc::AllocError;

/// Why a run has no report to give.
#[derive(Debug, Drop)]
pub enum Stop {
    /// A read failed.
    Read,
    /// A write failed, or took no byte.
    Write,
    /// Memory was refused.
    Memory,
}

impl Stop {
    /// Why, in the words that standard error is told.
    pub fn why(&self) -> &'static str
        ensures { result.now ≡ stop_words self.now }
    {
        match self {
            Self::Read => "standard input can't be read",
            Self::Write => "standard output can't be written",
            Self::Memory => "out of memory",
        }
    }
}

impl From<AllocError> for Stop {
    ghost from_gives = { λ _ s. s ≡ Stop.Memory };

    fn from(_refused: AllocError) -> Stop {
        Stop::Memory
    }
}
