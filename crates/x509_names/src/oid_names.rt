//! What identifiers are called.

ghost use Rattle.std.specs.Prelude.{◌≡◌, Some, None, MatchResult};
ghost use Rattle.x509_der.specs.Oid.{oid_bytes};
ghost use Rattle.x509_names.specs.Registry.{name_by, short_name_in, description_in};

use crate::objects::abbreviation;
use crate::registry::OidRegistry;
use x509_der::Oid;
use x509_fields::NidError;

/// The abbreviation of an identifier, as `CN`, which doesn't depend on the registry; else its short name in the registry.
///
/// # Errors
///
/// `NidError` where it has neither.
pub fn oid2abbrev<'r, 'a>(oid: &Oid<'a>, registry: &'r OidRegistry<'a>) -> Result<&'r str, NidError>
    ensures { MatchResult result (λ name. name_by registry.now (oid_bytes oid.now) ≡ Some name.now) (λ _. name_by registry.now (oid_bytes oid.now) ≡ None) }
{
    match abbreviation(oid.as_bytes()) {
        Some(name) => Ok(name),
        None => oid2sn(oid, registry),
    }
}

/// The short name of an identifier in the registry, as `commonName`.
///
/// # Errors
///
/// `NidError` where the registry has no entry for it.
pub fn oid2sn<'r, 'a>(oid: &Oid<'a>, registry: &'r OidRegistry<'a>) -> Result<&'r str, NidError>
    ensures { MatchResult result (λ name. short_name_in registry.now (oid_bytes oid.now) ≡ Some name.now)
        (λ _. short_name_in registry.now (oid_bytes oid.now) ≡ None) }
{
    match registry.get(oid) {
        Some(entry) => Ok(entry.sn()),
        None => Err(NidError),
    }
}

/// The description of an identifier in the registry, as `Mask Generator Function 1 (MGF1)`.
///
/// # Errors
///
/// `NidError` where the registry has no entry for it.
pub fn oid2description<'r, 'a>(
    oid: &Oid<'a>,
    registry: &'r OidRegistry<'a>,
) -> Result<&'r str, NidError>
    ensures { MatchResult result (λ text. description_in registry.now (oid_bytes oid.now) ≡ Some text.now)
        (λ _. description_in registry.now (oid_bytes oid.now) ≡ None) }
{
    match registry.get(oid) {
        Some(entry) => Ok(entry.description()),
        None => Err(NidError),
    }
}
