//! The locations of an authority, lent under their methods.

use super::{Ends, made};
use std::collections::HashMap;
use std::hash::{BuildHasherDefault, FoldHasher};
use x509_parser::der::{FromDer, Oid};
use x509_parser::extensions::{AuthorityInfoAccess, GeneralName, SubjectInfoAccess};

type Hasher = BuildHasherDefault<FoldHasher>;

const METHOD: &[u8] = b"\x2A";

const OTHER: &[u8] = b"\x2B";

/// Two locations under one method, and between them one under another.
const THREE: &[u8] =
    b"\x30\x1B\x30\x07\x06\x01\x2A\x86\x02aa\x30\x07\x06\x01\x2B\x86\x02cc\x30\x07\x06\x01\x2A\x86\x02bb";

fn is_uri(name: &GeneralName<'_>, text: &str) -> bool {
    matches!(name, GeneralName::URI(x) if *x == text)
}

/// That the locations are grouped by their methods.
fn expect_groups(map: &HashMap<Oid<'_>, Vec<&GeneralName<'_>>, Hasher>, rt: &impl Ends) {
    assert!(rt; map.len() == 2);
    let group = map.get(&Oid::new(METHOD)).expect(rt, "a group");
    assert!(rt; group.len() == 2);
    for (i, text) in ["aa", "bb"].iter().enumerate() {
        assert!(rt; i < group.len());
        assert!(rt; is_uri(group[i], *text));
    }
    let apart = map.get(&Oid::new(OTHER)).expect(rt, "a group apart");
    assert!(rt; apart.len() == 1);
    assert!(rt; is_uri(apart[0], "cc"));
}

#[test]
fn lent_locations_of_an_issuer(rt: HostRuntime) {
    let (_, read) = made(&rt, AuthorityInfoAccess::from_der(rt.alloc(), THREE));
    expect_groups(made(&rt, read.as_hashmap(rt.alloc(), Hasher::new())), &rt);
}

#[test]
fn lent_locations_of_a_subject(rt: HostRuntime) {
    let (_, read) = made(&rt, SubjectInfoAccess::from_der(rt.alloc(), THREE));
    expect_groups(made(&rt, read.as_hashmap(rt.alloc(), Hasher::new())), &rt);
}
