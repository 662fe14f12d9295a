//! Identifiers that own their octets.

ghost use Rattle.std.specs.Prelude.{◌≡◌, Some, IfOk};
ghost use Rattle.x509_der.specs.Oid.{oid_bytes, oid_text, oid_debug_text};
ghost use Rattle.x509_names.specs.DottedParsing.{ParsesExactly};

use crate::parse::octets_of;
use crate::parse_error::ParseOidError;
use std::alloc::{AllocError, Global};
use std::fmt;
use std::marker::Model;
use x509_der::Oid;

/// An object identifier that owns its octets (X.690, section 8.19). Order and hash are had by [`OidBuf::as_oid`].
#[derive(Drop)]
pub struct OidBuf {
    octets: Vec<u8>,
}

impl Model for OidBuf {
    ghost use Rattle.std.specs.Prelude.{List, ℕ};

    ghost Value = { List ℕ };

    ghost view = { λ o. o.octets.items };
}

impl OidBuf {
    /// The identifier that a dotted text names, as `1.2.840.113549` (RFC 4512, section 1.4), in the octets that X.690, section 8.19
    /// gives it. Each number of these is at most `u64::MAX`.
    ///
    /// What is parsed is shown as the text that was given, and an [`Oid`] that is shown in dotted form is parsed back from its text.
    ///
    /// # Errors
    ///
    /// `TooFewArcs` where there is no dot. Else that of the first part, from the left, that is no arc where it stands: `NotANumber`,
    /// `LeadingZero`, `FirstArcTooLarge`, `SecondArcTooLarge` or `ArcTooLarge`. `OutOfMemory` where a request for memory is refused,
    /// which is made behind two arcs.
    pub fn parse(alloc: Global, text: &str) -> Result<OidBuf, ParseOidError>
        ensures exact { ParsesExactly text.now result }
    {
        let octets = octets_of(alloc, text)?;
        Ok(OidBuf { octets })
    }

    /// The identifier, which borrows the octets.
    pub fn as_oid(&self) -> Oid<'_>
        ensures { oid_bytes result ≡ self.now }
    {
        Oid::new(self.as_bytes())
    }

    /// The contents: the octets of the identifier without a header.
    pub fn as_bytes(&self) -> &[u8]
        ensures { result.now ≡ self.now }
    {
        self.octets.as_slice()
    }

    /// The same identifier in memory of its own, which is asked for once.
    ///
    /// # Errors
    ///
    /// `AllocError` where that request is refused.
    pub fn try_clone(&self) -> Result<OidBuf, AllocError>
        ensures { IfOk result (λ copy. copy ≡ self.now) }
    {
        let octets = Vec::from_slice(*self.octets.allocator(), self.as_bytes())?;
        Ok(OidBuf { octets })
    }
}

/// Equality goes by the octets.
impl PartialEq for OidBuf {
    ghost use Rattle.std.proofs.Common.{rules};
    ghost use Rattle.std.specs.Cmp.Rules.{comparing};
    ghost use Rattle.std.specs.Str.{bytes_eq};

    ghost eq = { bytes_eq };

    ghost laws = { Prim.search (comparing, rules) };

    fn eq(&self, other: &OidBuf) -> bool {
        self.as_bytes() == other.as_bytes()
    }
}

impl Eq for OidBuf {
    ghost use Rattle.std.proofs.Common.{rules};
    ghost use Rattle.std.specs.Cmp.Rules.{comparing};

    ghost laws = { Prim.search (comparing, rules) };
}

/// As [`Oid`] is shown.
impl fmt::Display for OidBuf {
    ghost output = { λ octets. Some (oid_text octets) };

    fn fmt<W: fmt::Write>(&self, f: &mut fmt::Formatter<W>) -> fmt::Result {
        let oid = self.as_oid();
        write!(f, "{oid}")
    }
}

/// As [`Oid`] is shown.
impl fmt::Debug for OidBuf {
    ghost debug_output = { λ octets. Some (oid_debug_text octets) };

    fn fmt<W: fmt::Write>(&self, f: &mut fmt::Formatter<W>) -> fmt::Result {
        let oid = self.as_oid();
        write!(f, "{oid:?}")
    }
}
