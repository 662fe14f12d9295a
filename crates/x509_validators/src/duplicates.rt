//! Identifiers that stand twice.

ghost use Rattle.std.specs.Prelude.{◌≡◌, ℕ, List, [], ◌∷◌, ◌++◌, OnOk, map};
ghost use Rattle.x509_der.specs.Oid.{oid_bytes};
ghost use Rattle.x509_validators.specs.Message.{Logs, Validates};
ghost use Rattle.x509_validators.specs.Duplicates.{IsSetOf, is_new, repeat_error, repeat_errors, all_distinct};

use crate::logger::{Logger, log_error_if};
use std::alloc::Global;
use std::collections::BTreeSet;
use x509_der::Oid;
use x509_fields::X509Error;

/// What has an identifier.
pub(crate) trait Identified {
    ghost use Rattle.std.specs.Prelude.{List, ℕ};
    ghost use Rattle.x509_der.specs.Oid.{oid_bytes};

    ghost id: { Self → List ℕ };

    fn oid(&self) -> &Oid<'_>
        ensures { oid_bytes result.now ≡ id self.now };
}

/// Logs an error, the label and then the identifier, for each member whose identifier an earlier one has, and answers
/// whether there was none.
///
/// # Errors
///
/// `OutOfMemory` where there is none for a text or for the set of identifiers, and the logger's own errors.
#[tactic(auto, using(crate::proofs::Logs::logging), unfolding(crate::specs::Duplicates::is_among))]
pub(crate) fn check_duplicates<T: Identified, L: Logger>(
    alloc: Global,
    label: &str,
    members: &[T],
    logger: &mut L,
) -> Result<bool, X509Error>
    requires { L.can_log logger.old }
    ensures { Validates L.can_log L.step logger.old (repeat_errors label.now (map T.id members.now)) (all_distinct (map T.id members.now)) result logger.new }
{
    // One member alone needs no set.
    if members.len() < 2 {
        return Ok(true);
    }
    let mut seen = BTreeSet::new(alloc);
    let mut distinct = true;
    for member in members {
        distinct &= check_new(alloc, label, &mut seen, *member.oid(), logger)?;
    }
    Ok(distinct)
}

// Logs an error where the identifier was seen before, and adds it to those that were.
#[tactic(auto, using(crate::proofs::Logs::logging), unfolding(crate::specs::Duplicates::repeat_error, crate::specs::Duplicates::is_new))]
fn check_new<'a, L: Logger>(
    alloc: Global,
    label: &str,
    seen: &mut BTreeSet<Oid<'a>>,
    oid: Oid<'a>,
    logger: &mut L,
) -> Result<bool, X509Error>
    requires { L.can_log logger.old }
    ensures can { L.can_log logger.new }
    ensures logs { (ids : List (List ℕ)) → IsSetOf ids seen.old → Logs L.step logger.old (repeat_error label.now ids (oid_bytes oid.entry))
        (is_new ids (oid_bytes oid.entry)) result logger.new }
    ensures seen { (ids : List (List ℕ)) → IsSetOf ids seen.old → OnOk result (IsSetOf (ids ++ oid_bytes oid.entry ∷ []) seen.new) }
{
    let Ok(new) = seen.insert(oid) else {
        return Err(X509Error::OutOfMemory);
    };
    log_error_if(alloc, logger, !new, format_args!("{label}{oid}"))?;
    Ok(new)
}
