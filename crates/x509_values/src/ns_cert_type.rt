//! What a certificate may be used for, as Netscape's extension says it.

ghost use Rattle.std.specs.Prelude.{◌≡◌, ℕ, Some};
ghost use Rattle.x509_der.specs.Grammar.{in_primitive};
ghost use Rattle.x509_fields.specs.Flags.{has_bit, reversed};
ghost use Rattle.x509_fields.specs.BitNames.{names_left};
ghost use Rattle.x509_fields.specs.Texts.{flags_text, set_names};
ghost use Rattle.x509_values.specs.NsCertType.{ns_cert_type_of, octet_flags, ns_cert_type, ns_cert_type_names, ns_cert_type_words, ns_cert_type_laws};

use std::alloc::Global;
use std::fmt;
use x509_der::{BerError, Err, FromDer, Outside, Place, Refused, Tries, converted};
use x509_fields::{BitNames, FlagNames, X509Error, is_set};

/// What a certificate may be used for (Netscape certificate extensions, netscape-cert-type).
///
/// ```text
/// NetscapeCertType ::= BIT STRING {
///     sslClient        (0),
///     sslServer        (1),
///     sMIME            (2),
///     objectSigning    (3),
///     reserved         (4),
///     sslCA            (5),
///     sMIMECA          (6),
///     objectSigningCA  (7) }
/// ```
///
/// The bits fill one octet: another count of octets is refused as `BerValueError`, and unused bits that are set as
/// `DerConstraintFailed`. It is shown by the names of the set bits, as `SSL CLient, S/MIME`.
#[derive(Clone, Copy, Debug, PartialEq, Eq)]
pub struct NSCertType {
    /// The eight bits, of which bit k counts 2 to the power of k.
    pub flags: u8,
}

const NAMES: [&str; 8] = [
    "SSL CLient",
    "SSL Server",
    "S/MIME",
    "Object Signing",
    "Reserved",
    "SSL CA",
    "S/MIME CA",
    "Object Signing CA",
];

const WORDS: &[&str] = &[
    "ssl_client",
    "ssl_server",
    "smime",
    "object_signing",
    "reserved",
    "ssl_ca",
    "smime_ca",
    "object_signing_ca",
];

impl NSCertType {
    /// The names of the uses whose bits are set, as `ssl_client`, from bit 0 on.
    pub fn names(&self) -> BitNames
        ensures { names_left result ≡ set_names ns_cert_type_words self.now.flags }
    {
        BitNames::new(WORDS, u16::from(self.flags))
    }

    /// Whether a client may prove by it who it is.
    pub fn ssl_client(&self) -> bool
        ensures { result ≡ has_bit self.now.flags 0 }
    {
        self.has(0)
    }

    /// Whether a server may prove by it who it is.
    pub fn ssl_server(&self) -> bool
        ensures { result ≡ has_bit self.now.flags 1 }
    {
        self.has(1)
    }

    /// Whether mail may be signed and enciphered.
    pub fn smime(&self) -> bool
        ensures { result ≡ has_bit self.now.flags 2 }
    {
        self.has(2)
    }

    /// Whether programs may be signed.
    pub fn object_signing(&self) -> bool
        ensures { result ≡ has_bit self.now.flags 3 }
    {
        self.has(3)
    }

    /// Whether certificates of clients and servers may be issued.
    pub fn ssl_ca(&self) -> bool
        ensures { result ≡ has_bit self.now.flags 5 }
    {
        self.has(5)
    }

    /// Whether certificates for mail may be issued.
    pub fn smime_ca(&self) -> bool
        ensures { result ≡ has_bit self.now.flags 6 }
    {
        self.has(6)
    }

    /// Whether certificates for programs may be issued.
    pub fn object_signing_ca(&self) -> bool
        ensures { result ≡ has_bit self.now.flags 7 }
    {
        self.has(7)
    }

    /// Whether the bit with this number is set.
    fn has(&self, bit: u32) -> bool
        ensures { result ≡ has_bit self.now.flags bit }
    {
        is_set(u16::from(self.flags), bit)
    }
}

impl<'a> FromDer<'a, X509Error> for NSCertType {
    ghost Value = { ℕ };

    ghost view = { ns_cert_type_of };

    ghost grammar = { in_primitive 3 ns_cert_type ns_cert_type_laws };

    #[tactic(auto, unfolding(crate::specs::NsCertType::ns_cert_type, crate::specs::NsCertType::octet_of_bits, x509_der::specs::Leaves::bits, x509_der::specs::Primitives::contents_at), using(x509_der::proofs::Marking::marks_of_readers))]
    fn read_at<L: Outside>(
        _alloc: Global,
        _tries: &mut Tries,
        place: &Place<'a, L>,
    ) -> Result<(Self, bool), Refused<X509Error, L>> {
        let bits = converted!(place.bits());
        match octet_flags(bits.bytes) {
            Some(flags) => Ok((NSCertType { flags }, true)),
            None => Err(place.refuse(Err::Error(X509Error::Der(BerError::BerValueError)))),
        }
    }

    ghost never_memory = { ns_cert_type_laws.laws.never_memory };
}

impl fmt::Display for NSCertType {
    ghost output = { λ shown. Some (flags_text ns_cert_type_names shown.flags) };

    fn fmt<W: fmt::Write>(&self, f: &mut fmt::Formatter<W>) -> fmt::Result {
        let shown = FlagNames {
            names: &NAMES,
            flags: u16::from(self.flags),
        };
        write!(f, "{shown}")
    }
}

/// The bits of one octet, from its most significant one on; None of another count of octets.
fn octet_flags(octets: &[u8]) -> Option<u8>
    ensures { result ≡ octet_flags octets.now }
{
    match octets {
        [octet] => Some(reversed(*octet)),
        _ => None,
    }
}

/// The octet from its other end.
fn reversed(octet: u8) -> u8
    ensures { result ≡ reversed octet }
{
    octet.reverse_bits()
}
