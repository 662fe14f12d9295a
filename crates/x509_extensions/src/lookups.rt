//! Extensions by their identifiers.

ghost use Rattle.std.specs.Prelude.{◌≡◌};
ghost use Rattle.std.specs.List.{find};
ghost use Rattle.std.specs.Option.{option_copied};
ghost use Rattle.x509_der.specs.Oid.{oid_bytes};
ghost use Rattle.x509_extensions.specs.Lookups.{MapsExtensions, has_oid, unique_of, pointed};

use crate::extension::X509Extension;
use std::alloc::Global;
use std::collections::HashMap;
use std::hash::BuildHasher;
use x509_der::Oid;
use x509_fields::X509Error;

/// Whether the extension has this identifier.
#[tactic(auto, unfolding(crate::specs::Lookups::has_id))]
fn has_oid(oid: &Oid<'_>, extension: &X509Extension<'_>) -> bool
    ensures { result ≡ has_oid (oid_bytes oid.now) extension.now }
{
    extension.oid.as_bytes() == oid.as_bytes()
}

/// The first extension with this identifier.
pub fn find_extension<'v, 'a>(
    extensions: &'v [X509Extension<'a>],
    oid: &Oid<'_>,
) -> Option<&'v X509Extension<'a>>
    ensures { option_copied result ≡ find (has_oid (oid_bytes oid.now)) extensions.now }
{
    extensions.iter().find(|e| has_oid(oid, e))
}

/// The only extension with this identifier (RFC 5280, section 4.2: a certificate must not have two).
///
/// # Errors
///
/// `DuplicateExtensions` where there are two.
#[tactic(auto, using(crate::proofs::Only::only_lemmas))]
pub fn get_extension_unique<'v, 'a>(
    extensions: &'v [X509Extension<'a>],
    oid: &Oid<'_>,
) -> Result<Option<&'v X509Extension<'a>>, X509Error>
    ensures { pointed result ≡ unique_of (oid_bytes oid.now) extensions.now }
{
    let mut found = None;
    for extension in extensions {
        if has_oid(oid, extension) {
            if found.is_some() {
                return Err(X509Error::DuplicateExtensions);
            }
            found = Some(extension);
        }
    }
    Ok(found)
}

/// Each extension under its identifier.
///
/// # Errors
///
/// `DuplicateExtensions` where an identifier stands twice, and `OutOfMemory`.
pub fn extensions_map<'v, 'a, S: BuildHasher + Drop>(
    alloc: Global,
    extensions: &'v [X509Extension<'a>],
    hasher: S,
) -> Result<HashMap<Oid<'a>, &'v X509Extension<'a>, S>, X509Error>
    ensures { MapsExtensions extensions.now result }
{
    let mut map = HashMap::with_hasher(alloc, hasher);
    for extension in extensions {
        let Ok(before) = map.insert(extension.oid, extension) else {
            return Err(X509Error::OutOfMemory);
        };
        if before.is_some() {
            return Err(X509Error::DuplicateExtensions);
        }
    }
    Ok(map)
}
