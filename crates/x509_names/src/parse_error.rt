//! Why a text was refused.

ghost use Rattle.std.specs.Prelude.{◌≡◌};
ghost use Rattle.x509_names.specs.declared.parse_error.ParseOidError.TheVariants.{OutOfMemory};

use std::alloc::AllocError;
use thiserror::Error;

/// Why a text names no identifier.
#[derive(Clone, Copy, Debug, PartialEq, Eq, Error)]
pub enum ParseOidError {
    /// There is no dot: an identifier has two arcs or more (X.690, section 8.19.3).
    #[error("fewer than two arcs")]
    TooFewArcs,
    /// An arc is not one decimal digit or more: it is empty, or has a sign, a space or a letter (RFC 4512, section 1.4).
    #[error("an arc that is no number")]
    NotANumber,
    /// An arc has a zero in front of other digits (RFC 4512, section 1.4).
    #[error("an arc with a leading zero")]
    LeadingZero,
    /// The first arc is above 2 (X.690, section 8.19.4).
    #[error("a first arc above 2")]
    FirstArcTooLarge,
    /// The second arc is above 39, under 0 or 1 (X.690, section 8.19.4).
    #[error("a second arc above 39 under 0 or 1")]
    SecondArcTooLarge,
    /// An arc is above `u64::MAX`, or the second one under 2 above `u64::MAX - 80`: more than is held here.
    #[error("an arc of more than 64 bits")]
    ArcTooLarge,
    /// A request for memory was refused.
    #[error("out of memory")]
    OutOfMemory,
}

impl From<AllocError> for ParseOidError {
    ghost from_gives = { λ refused e. e ≡ OutOfMemory };

    fn from(_refused: AllocError) -> ParseOidError {
        ParseOidError::OutOfMemory
    }
}
