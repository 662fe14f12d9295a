//! Reading elements that are no certificates, and looking identifiers up.

ghost use Rattle.std.specs.Prelude.{◌≡◌, ℕ, List, IfOk};
ghost use Rattle.std.specs.Option.{is_some};
ghost use Rattle.x509_der.specs.Cut.{Cut};
ghost use Rattle.x509_der.specs.Oid.{oid_bytes};
ghost use Rattle.x509_der.specs.Reading.{Element, Gives};
ghost use Rattle.x509_names.specs.Registry.{registered};
ghost use Rattle.x509_uses.specs.Elements.{IsOutline, identified};

use std::alloc::{AllocError, Global};
use x509_parser::der::{
    BerError, Children, Err, Header, Oid, Stop, Tries, read_oid, read_sequence,
};
use x509_parser::objects::OidRegistry;

/// The identifier at the front of a SEQUENCE, as in an AlgorithmIdentifier, and what stands behind the SEQUENCE.
pub fn first_identifier<'a>(bytes: &'a [u8]) -> Result<(&'a [u8], Oid<'a>), Err<BerError>>
    ensures { Gives (λ x. (x.0.now, oid_bytes x.1)) result (identified.read bytes.now) }
{
    let mut tries = Tries::new();
    let (rest, contents) = read_sequence(&mut tries, bytes)?;
    let (_, id) = read_oid(&mut tries, contents)?;
    Ok((rest, id))
}

/// Whether a registry that may live as long as the program knows the identifier of these octets, which may live shorter.
pub fn is_known(registry: &OidRegistry<'static>, octets: &[u8]) -> bool
    ensures { result ≡ is_some (registered registry.now octets.now) }
{
    matches!(registry.get(&Oid::new(octets)), Some(_))
}

/// What stands in a container that no type describes: the headers of its first twelve members, in order, and why no more are
/// listed.
pub fn outline<'a>(alloc: Global, contents: &'a [u8]) -> Result<(Vec<Header>, Stop<'a>), AllocError>
    ensures { IfOk result (λ x. (members : List Element) (tail : List ℕ) → Cut contents.now members tail → IsOutline contents.now members x.0.items x.1) }
{
    let children = Children::cut(&mut Tries::new(), contents);
    let mut headers = Vec::new(alloc);
    for k in 0..children.count() {
        if let Some(child) = children.get(k) {
            headers.push(child.header)?;
        }
    }
    Ok((headers, children.stop()))
}
