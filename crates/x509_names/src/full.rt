//! A registry with the names in daily use.

mod algorithms;
mod extensions;
mod names;

ghost use Rattle.std.specs.Prelude.{◌≡◌, ◌∷◌, [], ℕ, List, map, IfOk, IfErr, OnOk};
ghost use Rattle.std.specs.Option.{option_or};
ghost use Rattle.x509_fields.specs.declared.error.X509Error.TheVariants.{OutOfMemory};
ghost use Rattle.x509_names.specs.Full.{named_in, known_in_full};
ghost use Rattle.x509_names.specs.Registry.{registered};

use self::algorithms::{ALGORITHMS, CURVES, DIGESTS};
use self::extensions::{ACCESSES_AND_POLICIES, EXTENSIONS, PURPOSES};
use self::names::ATTRIBUTE_TYPES;
use crate::registry::{OidEntry, OidRegistry, oid_registry};
use std::alloc::Global;
use x509_der::Oid;
use x509_fields::X509Error;

// The contents of an identifier, its short name and its description.
type Named = (&'static [u8], &'static str, &'static str);

/// The registry of the identifiers in daily use: all of [`oid_registry`], each with the same entry, and beside them attribute types,
/// algorithms, digests, curves, purposes of keys, extensions, access methods and policies of the RFCs that profile certificates,
/// of the CA/Browser Forum, and some of Microsoft and Netscape.
///
/// # Errors
///
/// `OutOfMemory`.
pub fn registry_full(alloc: Global) -> Result<OidRegistry<'static>, X509Error>
    ensures is { IfOk result (λ r. (octets : List ℕ) → registered r octets ≡ known_in_full octets) }
    ensures memory { IfErr result (λ e. e ≡ OutOfMemory) }
{
    let mut registry = oid_registry(alloc)?;
    add_missing(&mut registry, &ATTRIBUTE_TYPES)?;
    add_missing(&mut registry, &ALGORITHMS)?;
    add_missing(&mut registry, &DIGESTS)?;
    add_missing(&mut registry, &CURVES)?;
    add_missing(&mut registry, &PURPOSES)?;
    add_missing(&mut registry, &EXTENSIONS)?;
    add_missing(&mut registry, &ACCESSES_AND_POLICIES)?;
    Ok(registry)
}

// Adds the entries of these rows for the identifiers that have none, of which the first row with an identifier counts.
fn add_missing(registry: &mut OidRegistry<'static>, rows: &[Named]) -> Result<(), X509Error>
    ensures is { OnOk result ((octets : List ℕ) → registered registry.new octets
        ≡ option_or (registered registry.old octets) (named_in (map (λ r. (r.0.now, r.1.now, r.2.now)) rows.now) octets)) }
    ensures memory { IfErr result (λ e. e ≡ OutOfMemory) }
{
    for row in rows {
        add_one_missing(registry, *row)?;
    }
    Ok(())
}

// Adds the entry of this row where its identifier has none.
fn add_one_missing(registry: &mut OidRegistry<'static>, row: Named) -> Result<(), X509Error>
    ensures is { OnOk result ((octets : List ℕ) → registered registry.new octets
        ≡ option_or (registered registry.old octets) (named_in ((row.entry.0.now, row.entry.1.now, row.entry.2.now) ∷ []) octets)) }
    ensures memory { IfErr result (λ e. e ≡ OutOfMemory) }
{
    let (octets, name, description) = row;
    let oid = Oid::new(octets);
    if registry.get(&oid).is_some() {
        return Ok(());
    }
    registry.insert(oid, OidEntry::new(name, description))?;
    Ok(())
}
