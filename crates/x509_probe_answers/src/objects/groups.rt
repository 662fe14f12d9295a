//! Maps that took a list: under each identifier what stood with it.

use crate::show::{Answer, Hasher, Show, read_both};
use std::collections::HashMap;
use x509_der::{FromDer, Oid};
use x509_fields::X509Error;
use x509_general_names::{AccessDescription, AuthorityInfoAccess, GeneralName, SubjectInfoAccess};
use x509_values::{PolicyMapping, PolicyMappings};

/// A list that a map can take.
trait IntoGroups<'a>: FromDer<'a, X509Error> + Show {
    /// Adds, for each member of an equal list, the group of its identifier in the map that takes this one.
    fn put_groups(self, equal: &Self, out: &mut Answer);
}

// The policies that each mapping's policy is mapped to.
fn put_policies<'a>(
    out: &mut Answer,
    mappings: &[PolicyMapping<'a>],
    map: &HashMap<Oid<'a>, Vec<Oid<'a>>, Hasher>,
) {
    out.display(&map.len());
    for mapping in mappings {
        out.add("{");
        if let Some(group) = map.get(&mapping.issuer_domain_policy) {
            for policy in group {
                out.add(",");
                out.hex(policy.as_bytes());
            }
        }
        out.add("}");
    }
}

impl<'a> IntoGroups<'a> for PolicyMappings<'a> {
    fn put_groups(self, equal: &Self, out: &mut Answer) {
        match self.into_hashmap(out.alloc(), Hasher::new()) {
            Ok(map) => put_policies(out, equal.mappings.as_slice(), &map),
            Err(kind) => out.error(&kind),
        }
    }
}

/// The locations of accesses, by their methods.
type Locations<'a> = HashMap<Oid<'a>, Vec<GeneralName<'a>>, Hasher>;

// The locations of each access's method.
fn put_locations<'a>(out: &mut Answer, accesses: &[AccessDescription<'a>], map: &Locations<'a>) {
    out.display(&map.len());
    for access in accesses {
        out.add("{");
        if let Some(group) = map.get(&access.access_method) {
            for location in group {
                out.add(",");
                location.show(out);
            }
        }
        out.add("}");
    }
}

// The same of a map that was made.
fn put_made<'a>(
    out: &mut Answer,
    accesses: &[AccessDescription<'a>],
    made: Result<Locations<'a>, X509Error>,
) {
    match made {
        Ok(map) => put_locations(out, accesses, &map),
        Err(kind) => out.error(&kind),
    }
}

impl<'a> IntoGroups<'a> for AuthorityInfoAccess<'a> {
    fn put_groups(self, equal: &Self, out: &mut Answer) {
        let made = self.into_hashmap(out.alloc(), Hasher::new());
        put_made(out, equal.accessdescs.as_slice(), made);
    }
}

impl<'a> IntoGroups<'a> for SubjectInfoAccess<'a> {
    fn put_groups(self, equal: &Self, out: &mut Answer) {
        let made = self.into_hashmap(out.alloc(), Hasher::new());
        put_made(out, equal.accessdescs.as_slice(), made);
    }
}

// The groups of a list, which is read twice: a map takes one.
fn grouped<'a, T: IntoGroups<'a>>(a: &'a [u8], out: &mut Answer) {
    if let Some((taken, equal)) = read_both::<T, T>(out, a, a) {
        taken.put_groups(&equal, out);
    }
}

/// Adds the groups of a map; false where the word names none.
pub fn answer(word: &str, a: &[u8], out: &mut Answer) -> bool {
    match word {
        "into_policy_mappings" => grouped::<PolicyMappings>(a, out),
        "into_authority_info_access" => grouped::<AuthorityInfoAccess>(a, out),
        "into_subject_info_access" => grouped::<SubjectInfoAccess>(a, out),
        _ => return false,
    }
    true
}
