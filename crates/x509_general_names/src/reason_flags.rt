//! Why certificates are revoked.

ghost use Rattle.std.specs.Prelude.{◌≡◌, ◌<◌, ℕ, Some, IfOk, IfSome, true};
ghost use Rattle.x509_der.specs.Fields.{next_of, plain_in, StepsSoftLeaf, outer_of};
ghost use Rattle.x509_der.specs.Grammar.{in_primitive};
ghost use Rattle.x509_der.specs.Place.{at, outside_of};
ghost use Rattle.x509_der.specs.Primitives.{is_explicit};
ghost use Rattle.x509_der.specs.Promises.{IsForeign, ReadsLeaf, option_view};
ghost use Rattle.x509_der.specs.Reading.{strict};
ghost use Rattle.x509_fields.specs.Flags.{has_bit};
ghost use Rattle.x509_fields.specs.BitNames.{names_left};
ghost use Rattle.x509_fields.specs.Texts.{flags_text, set_names};
ghost use Rattle.x509_general_names.specs.ReasonFlags.{reason_flags_of, reason_flags, implicit_reasons, reason_names, reason_words, reason_flags_laws};

use std::alloc::Global;
use std::fmt;
use x509_der::{Fields, FromDer, Outside, Place, Refused, Tries, converted};
use x509_fields::{BitNames, FlagNames, X509Error, flags_of, is_set};

/// Why certificates are revoked (RFC 5280, section 4.2.1.13).
///
/// ```text
/// ReasonFlags ::= BIT STRING {
///     unused                (0),
///     keyCompromise         (1),
///     cACompromise          (2),
///     affiliationChanged    (3),
///     superseded            (4),
///     cessationOfOperation  (5),
///     certificateHold       (6),
///     privilegeWithdrawn    (7),
///     aACompromise          (8) }
/// ```
///
/// It is shown by the names of the set bits, as `Key Compromise, CA Compromise`.
#[derive(Clone, Copy, Debug, PartialEq, Eq)]
pub struct ReasonFlags {
    /// The first sixteen bits, of which bit k counts 2 to the power of k. A bit that is missing is 0.
    pub flags: u16,
}

const NAMES: [&str; 9] = [
    "Unused",
    "Key Compromise",
    "CA Compromise",
    "Affiliation Changed",
    "Superseded",
    "Cessation Of Operation",
    "Certificate Hold",
    "Privilege Withdrawn",
    "AA Compromise",
];

const WORDS: &[&str] = &[
    "unused",
    "key_compromise",
    "ca_compromise",
    "affiliation_changed",
    "superseded",
    "cessation_of_operation",
    "certificate_hold",
    "privilege_withdrawn",
    "aa_compromise",
];

impl ReasonFlags {
    /// The standard's names of the reasons whose bits are set, as `key_compromise`, in the standard's order.
    pub fn names(&self) -> BitNames
        ensures { names_left result ≡ set_names reason_words self.now.flags }
    {
        BitNames::new(WORDS, self.flags)
    }

    /// Whether the subject's key may be known to others.
    pub fn key_compromise(&self) -> bool
        ensures { result ≡ has_bit self.now.flags 1 }
    {
        is_set(self.flags, 1)
    }

    /// Whether an authority's key may be known to others.
    pub fn ca_compromise(&self) -> bool
        ensures { result ≡ has_bit self.now.flags 2 }
    {
        is_set(self.flags, 2)
    }

    /// Whether the subject's name or what else is said of it changed.
    pub fn affilation_changed(&self) -> bool
        ensures { result ≡ has_bit self.now.flags 3 }
    {
        is_set(self.flags, 3)
    }

    /// Whether another certificate took its place.
    pub fn superseded(&self) -> bool
        ensures { result ≡ has_bit self.now.flags 4 }
    {
        is_set(self.flags, 4)
    }

    /// Whether the certificate is no longer needed.
    pub fn cessation_of_operation(&self) -> bool
        ensures { result ≡ has_bit self.now.flags 5 }
    {
        is_set(self.flags, 5)
    }

    /// Whether the certificate is on hold.
    pub fn certificate_hold(&self) -> bool
        ensures { result ≡ has_bit self.now.flags 6 }
    {
        is_set(self.flags, 6)
    }

    /// Whether a privilege in the certificate was withdrawn.
    pub fn privelege_withdrawn(&self) -> bool
        ensures { result ≡ has_bit self.now.flags 7 }
    {
        is_set(self.flags, 7)
    }

    /// Whether the key of an authority for attributes may be known to others.
    pub fn aa_compromise(&self) -> bool
        ensures { result ≡ has_bit self.now.flags 8 }
    {
        is_set(self.flags, 8)
    }
}

/// An element that is no BIT STRING is refused, and so are unused bits that are set (`Der(DerConstraintFailed)`).
impl<'a> FromDer<'a, X509Error> for ReasonFlags {
    ghost Value = { ℕ };

    ghost view = { reason_flags_of };

    ghost grammar = { in_primitive 3 reason_flags reason_flags_laws };

    #[tactic(auto, unfolding(crate::specs::ReasonFlags::reason_flags, x509_der::specs::Leaves::bits, x509_der::specs::Primitives::contents_at), using(x509_der::proofs::Marking::marks_of_readers))]
    fn read_at<L: Outside>(
        _alloc: Global,
        _tries: &mut Tries,
        place: &Place<'a, L>,
    ) -> Result<(Self, bool), Refused<X509Error, L>> {
        let bits = converted!(place.bits());
        let flags = flags_of(&bits);
        Ok((ReasonFlags { flags }, true))
    }

    ghost never_memory = { reason_flags_laws.laws.never_memory };
}

/// Reasons under this context tag that may be absent.
#[inline(always)]
#[tactic(auto, using(x509_der::proofs::Steps::marks_of_fields))]
pub(crate) fn soft_reasons<'a, L: Outside>(
    fields: &Fields<'a, L>,
    tries: &mut Tries,
    number: u32,
) -> (Fields<'a, L>, Option<ReasonFlags>)
    ensures reads { StepsSoftLeaf (λ x. (next_of x.0, option_view reason_flags_of x.1)) (λ x. outer_of x.0) (λ x. plain_in x.0) (implicit_reasons number)
        (plain_in fields.now) (next_of fields.now) (outer_of fields.now) tries.old tries.new result }
    // No element of another tag is read.
    ensures foreign { IfSome result.1 (λ _. 0 < number → IsForeign strict (is_explicit 0) (next_of fields.now)) }
{
    match reasons_at(&fields.place, number) {
        Ok(reasons) => (fields.behind(tries, true), Some(reasons)),
        Err(_) => (fields.same(), None),
    }
}

/// Reasons under this context tag.
#[inline(always)]
#[tactic(auto, unfolding(crate::specs::ReasonFlags::implicit_reasons), using(x509_der::proofs::Marking::marks_of_readers))]
fn reasons_at<L: Outside>(
    place: &Place<'_, L>,
    number: u32,
) -> Result<ReasonFlags, Refused<X509Error, L>>
    ensures reads { ReadsLeaf reason_flags_of (implicit_reasons number) L.adds (at place.now) (outside_of place.now) result }
    ensures marks { (implicit_reasons number).marks (at place.now) ≡ true }
    // No element of another tag is read.
    ensures foreign { IfOk result (λ _. 0 < number → IsForeign strict (is_explicit 0) (at place.now)) }
{
    let bits = converted!(place.implicit_bits(number));
    let flags = flags_of(&bits);
    Ok(ReasonFlags { flags })
}

impl fmt::Display for ReasonFlags {
    ghost output = { λ reasons. Some (flags_text reason_names reasons.flags) };

    fn fmt<W: fmt::Write>(&self, f: &mut fmt::Formatter<W>) -> fmt::Result {
        let shown = FlagNames {
            names: &NAMES,
            flags: self.flags,
        };
        write!(f, "{shown}")
    }
}
