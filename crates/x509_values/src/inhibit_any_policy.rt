//! From where on the policy that stands for any other is ignored.

ghost use Rattle.std.specs.Prelude.{ℕ};
ghost use Rattle.x509_der.specs.Grammar.{in_primitive};
ghost use Rattle.x509_values.specs.InhibitAnyPolicy.{inhibit_any_policy, inhibit_any_policy_laws};

use std::alloc::Global;
use x509_der::{FromDer, Outside, Place, Refused, Tries, converted};
use x509_fields::X509Error;

/// From where on the policy that stands for any other is ignored (RFC 5280, section 4.2.1.14).
///
/// ```text
/// InhibitAnyPolicy ::= SkipCerts
///
/// SkipCerts ::= INTEGER (0..MAX)
/// ```
///
/// A number of more than 32 bits is refused as `BerValueError`.
#[derive(Clone, Copy, Debug, PartialEq, Eq)]
pub struct InhibitAnyPolicy {
    /// How many more certificates may stand in the path before it is.
    pub skip_certs: u32,
}

impl<'a> FromDer<'a, X509Error> for InhibitAnyPolicy {
    ghost Value = { ℕ };

    ghost view = { λ policy. policy.skip_certs };

    ghost grammar = { in_primitive 2 inhibit_any_policy inhibit_any_policy_laws };

    #[tactic(auto, unfolding(crate::specs::InhibitAnyPolicy::inhibit_any_policy, x509_der::specs::Leaves::u32, x509_der::specs::Primitives::contents_at), using(x509_der::proofs::Marking::marks_of_readers))]
    fn read_at<L: Outside>(
        _alloc: Global,
        _tries: &mut Tries,
        place: &Place<'a, L>,
    ) -> Result<(Self, bool), Refused<X509Error, L>> {
        let skip_certs = converted!(place.u32());
        Ok((InhibitAnyPolicy { skip_certs }, true))
    }

    ghost never_memory = { inhibit_any_policy_laws.laws.never_memory };
}
