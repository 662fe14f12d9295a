//! Members grouped under their identifiers.

ghost use Rattle.std.specs.Prelude.{◌≡◌, ◌++◌, [], ◌∷◌, OnOk, IfErr, Some, cond};
ghost use Rattle.x509_der.specs.declared.oid.Oid.{Oid as OidOf};
ghost use Rattle.x509_fields.specs.declared.error.X509Error.TheVariants.{OutOfMemory};
ghost use Rattle.x509_fields.specs.Groups.{oid_eq, held, held_at};

use crate::error::X509Error;
use std::alloc::Global;
use std::collections::HashMap;
use std::hash::BuildHasher;
use x509_der::Oid;

/// Puts a member behind those with its identifier. Where memory is refused, those under that identifier may be lost.
///
/// # Errors
///
/// `OutOfMemory`.
pub fn add_to_group<'a, T: Drop, S: BuildHasher + Drop>(
    alloc: Global,
    map: &mut HashMap<Oid<'a>, Vec<T>, S>,
    oid: Oid<'a>,
    member: T,
) -> Result<(), X509Error>
    ensures ok { OnOk result ((q : OidOf) → held map.new q ≡ cond (oid_eq oid.entry q) (Some (held_at map.old q ++ member ∷ [])) (held map.old q)) }
    ensures err { IfErr result (λ e. e ≡ OutOfMemory) }
{
    let mut group = map.remove(&oid).unwrap_or(Vec::new(alloc));
    if group.push(member).is_err() {
        return Err(X509Error::OutOfMemory);
    }
    if map.insert(oid, group).is_err() {
        return Err(X509Error::OutOfMemory);
    }
    Ok(())
}
