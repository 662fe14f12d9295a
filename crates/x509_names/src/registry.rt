//! Registries of identifiers.

ghost use Rattle.std.specs.Prelude.{◌≡◌, ℕ, List, None, map, IfOk, IfErr, OnOk, OnErr};
ghost use Rattle.std.specs.Option.{option_map};
ghost use Rattle.x509_der.specs.Oid.{oid_bytes};
ghost use Rattle.x509_fields.specs.declared.error.X509Error.TheVariants.{OutOfMemory};
ghost use Rattle.x509_names.specs.Registry.{entry_of, registered, Registers, SaysTheSame, entry_in, known};

use crate::objects::{Row, SHORT_NAMES, described};
use std::alloc::Global;
use std::collections::HashMap;
use std::hash::{BuildHasherDefault, FoldHasher};
use x509_der::Oid;
use x509_fields::X509Error;

/// What an identifier is called: a short name and a description.
#[derive(Clone, Copy, Debug, PartialEq, Eq)]
pub struct OidEntry<'a> {
    sn: &'a str,
    description: &'a str,
}

impl<'a> OidEntry<'a> {
    /// The entry with this short name and this description.
    pub const fn new(sn: &'a str, description: &'a str) -> OidEntry<'a>
        ensures sn { (entry_of result).short_name ≡ sn.now }
        ensures description { (entry_of result).description ≡ description.now }
    {
        OidEntry { sn, description }
    }

    /// The short name.
    pub const fn sn(&self) -> &'a str
        ensures { result.now ≡ (entry_of self.now).short_name }
    {
        self.sn
    }

    /// The description.
    pub const fn description(&self) -> &'a str
        ensures { result.now ≡ (entry_of self.now).description }
    {
        self.description
    }
}

/// Entries by identifier, at most one for each.
#[derive(Debug, Drop)]
pub struct OidRegistry<'a> {
    entries: HashMap<Oid<'a>, OidEntry<'a>, BuildHasherDefault<FoldHasher>>,
}

impl<'a> OidRegistry<'a> {
    /// The registry without entries, which takes no memory.
    pub fn new(alloc: Global) -> OidRegistry<'a>
        ensures { (octets : List ℕ) → registered result octets ≡ None }
    {
        OidRegistry {
            entries: HashMap::new(alloc),
        }
    }

    /// Puts an entry in, in place of the one that the identifier had, and gives that one back.
    ///
    /// # Errors
    ///
    /// `OutOfMemory`; the registry then has what it had.
    pub fn insert(
        &mut self,
        oid: Oid<'a>,
        entry: OidEntry<'a>,
    ) -> Result<Option<OidEntry<'a>>, X509Error>
        ensures old { IfOk result (λ old. option_map entry_of old ≡ registered self.old (oid_bytes oid.entry)) }
        ensures has { OnOk result (Registers self.old (oid_bytes oid.entry) (entry_of entry.entry) self.new) }
        ensures refused { OnErr result (SaysTheSame self.old self.new) }
        ensures memory { IfErr result (λ e. e ≡ OutOfMemory) }
    {
        match self.entries.insert(oid, entry) {
            Ok(old) => Ok(old),
            Err(_) => Err(X509Error::OutOfMemory),
        }
    }

    /// The entry of this identifier.
    pub fn get(&self, oid: &Oid<'a>) -> Option<&OidEntry<'a>>
        ensures { option_map (λ e. entry_of e.now) result ≡ registered self.now (oid_bytes oid.now) }
    {
        self.entries.get(oid)
    }
}

/// The registry of the identifiers that are known here.
///
/// # Errors
///
/// `OutOfMemory`.
#[tactic(auto, unfolding(crate::specs::Registry::known))]
pub fn oid_registry(alloc: Global) -> Result<OidRegistry<'static>, X509Error>
    ensures is { IfOk result (λ r. (octets : List ℕ) → registered r octets ≡ known octets) }
    ensures memory { IfErr result (λ e. e ≡ OutOfMemory) }
{
    registry_of(alloc, &SHORT_NAMES)
}

// The registry of these rows, of which the first with an identifier counts.
fn registry_of(alloc: Global, rows: &[Row]) -> Result<OidRegistry<'static>, X509Error>
    ensures is { IfOk result (λ r. (octets : List ℕ) → registered r octets ≡ entry_in (map (λ r. (r.0.now, r.1.now)) rows.now) octets) }
    ensures memory { IfErr result (λ e. e ≡ OutOfMemory) }
{
    let mut registry = OidRegistry::new(alloc);
    for (octets, name) in rows.iter().rev() {
        let entry = OidEntry::new(name, described(octets, name));
        registry.insert(Oid::new(octets), entry)?;
    }
    Ok(registry)
}
