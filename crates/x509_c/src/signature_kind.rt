//! Which kind of signature an algorithm makes.

ghost use Rattle.std.specs.Prelude.{◌≡◌};
ghost use Rattle.x509_keys.specs.SignatureKinds.{signature_kind_of};
ghost use Rattle.x509_c.specs.SignatureKinds.{kind_number};

use x509_keys::SignatureKind;

/// The kind of signature that the algorithm with these contents of an identifier makes: 1 RSA, 2 RSASSA-PSS, 3 RSAES-OAEP, 4 DSA, 5 ECDSA,
/// 6 Ed25519; 0 where it isn't known.
#[unsafe(no_mangle)]
pub extern "C" fn rtv_signature_kind(oid: &[u8]) -> u32
    ensures { result ≡ kind_number (signature_kind_of oid.now) }
{
    match SignatureKind::of(oid) {
        None => 0,
        Some(SignatureKind::Rsa) => 1,
        Some(SignatureKind::Pss) => 2,
        Some(SignatureKind::Oaep) => 3,
        Some(SignatureKind::Dsa) => 4,
        Some(SignatureKind::Ecdsa) => 5,
        Some(SignatureKind::Ed25519) => 6,
    }
}
