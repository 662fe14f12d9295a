//! Attributes of a request by their identifiers.

ghost use Rattle.std.specs.Prelude.{◌≡◌};
ghost use Rattle.std.specs.List.{find};
ghost use Rattle.std.specs.Option.{option_copied};
ghost use Rattle.x509_der.specs.Oid.{oid_bytes};
ghost use Rattle.x509_requests.specs.AttributeLookUps.{MapsAttributes, has_type};

use crate::cri_attribute::X509CriAttribute;
use crate::request_info::X509CertificationRequestInfo;
use std::alloc::Global;
use std::collections::HashMap;
use std::hash::BuildHasher;
use x509_der::Oid;
use x509_fields::X509Error;

/// Whether the attribute has this identifier.
#[tactic(auto, unfolding(x509_extensions::specs::Lookups::has_id))]
fn has_type(oid: &Oid<'_>, attribute: &X509CriAttribute<'_>) -> bool
    ensures { result ≡ has_type (oid_bytes oid.now) attribute.now }
{
    attribute.oid.as_bytes() == oid.as_bytes()
}

impl<'a> X509CertificationRequestInfo<'a> {
    /// The first attribute with this identifier.
    pub fn find_attribute(&self, oid: &Oid<'_>) -> Option<&X509CriAttribute<'a>>
        ensures { option_copied result ≡ find (has_type (oid_bytes oid.now)) self.now.attributes }
    {
        self.attributes().iter().find(|a| has_type(oid, a))
    }

    /// Each attribute under its identifier.
    ///
    /// # Errors
    ///
    /// `DuplicateAttributes` where an identifier stands twice, and `OutOfMemory`.
    pub fn attributes_map<S: BuildHasher + Drop>(
        &self,
        alloc: Global,
        hasher: S,
    ) -> Result<HashMap<Oid<'a>, &X509CriAttribute<'a>, S>, X509Error>
        ensures { MapsAttributes self.now.attributes result }
    {
        attributes_map(alloc, self.attributes(), hasher)
    }
}

// Each attribute under its identifier.
fn attributes_map<'v, 'a, S: BuildHasher + Drop>(
    alloc: Global,
    attributes: &'v [X509CriAttribute<'a>],
    hasher: S,
) -> Result<HashMap<Oid<'a>, &'v X509CriAttribute<'a>, S>, X509Error>
    ensures { MapsAttributes attributes.now result }
{
    let mut map = HashMap::with_hasher(alloc, hasher);
    for attribute in attributes {
        let Ok(before) = map.insert(attribute.oid, attribute) else {
            return Err(X509Error::OutOfMemory);
        };
        if before.is_some() {
            return Err(X509Error::DuplicateAttributes);
        }
    }
    Ok(map)
}
