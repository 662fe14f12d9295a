//! What a key may be used for.

ghost use Rattle.std.specs.Prelude.{◌≡◌, ℕ, Some};
ghost use Rattle.x509_der.specs.Grammar.{in_primitive};
ghost use Rattle.x509_fields.specs.Flags.{has_bit};
ghost use Rattle.x509_fields.specs.BitNames.{names_left};
ghost use Rattle.x509_fields.specs.Texts.{flags_text, set_names};
ghost use Rattle.x509_values.specs.KeyUsage.{key_usage_of, key_usage, key_usage_names, key_usage_words, key_usage_laws};

use std::alloc::Global;
use std::fmt;
use x509_der::{FromDer, Outside, Place, Refused, Tries, converted};
use x509_fields::{BitNames, FlagNames, X509Error, flags_of, is_set};

/// What a key may be used for (RFC 5280, section 4.2.1.3).
///
/// ```text
/// KeyUsage ::= BIT STRING {
///     digitalSignature  (0),
///     nonRepudiation    (1),
///     keyEncipherment   (2),
///     dataEncipherment  (3),
///     keyAgreement      (4),
///     keyCertSign       (5),
///     cRLSign           (6),
///     encipherOnly      (7),
///     decipherOnly      (8) }
/// ```
///
/// It is shown by the names of the set bits, as `Digital Signature, Key Encipherment`.
#[derive(Clone, Copy, Debug, PartialEq, Eq)]
pub struct KeyUsage {
    /// The first sixteen bits, of which bit k counts 2 to the power of k. A bit that is missing is 0.
    pub flags: u16,
}

const NAMES: [&str; 9] = [
    "Digital Signature",
    "Non Repudiation",
    "Key Encipherment",
    "Data Encipherment",
    "Key Agreement",
    "Key Cert Sign",
    "CRL Sign",
    "Encipher Only",
    "Decipher Only",
];

const WORDS: &[&str] = &[
    "digital_signature",
    "non_repudiation",
    "key_encipherment",
    "data_encipherment",
    "key_agreement",
    "key_cert_sign",
    "crl_sign",
    "encipher_only",
    "decipher_only",
];

impl KeyUsage {
    /// The standard's names of the uses whose bits are set, as `digital_signature`, in the standard's order.
    pub fn names(&self) -> BitNames
        ensures { names_left result ≡ set_names key_usage_words self.now.flags }
    {
        BitNames::new(WORDS, self.flags)
    }

    /// Whether signatures other than those of certificates and lists may be verified.
    pub fn digital_signature(&self) -> bool
        ensures { result ≡ has_bit self.now.flags 0 }
    {
        is_set(self.flags, 0)
    }

    /// Whether signatures may be verified whose signer must not deny them.
    pub fn non_repudiation(&self) -> bool
        ensures { result ≡ has_bit self.now.flags 1 }
    {
        is_set(self.flags, 1)
    }

    /// Whether keys may be enciphered.
    pub fn key_encipherment(&self) -> bool
        ensures { result ≡ has_bit self.now.flags 2 }
    {
        is_set(self.flags, 2)
    }

    /// Whether data may be enciphered.
    pub fn data_encipherment(&self) -> bool
        ensures { result ≡ has_bit self.now.flags 3 }
    {
        is_set(self.flags, 3)
    }

    /// Whether keys may be agreed on.
    pub fn key_agreement(&self) -> bool
        ensures { result ≡ has_bit self.now.flags 4 }
    {
        is_set(self.flags, 4)
    }

    /// Whether signatures of certificates may be verified.
    pub fn key_cert_sign(&self) -> bool
        ensures { result ≡ has_bit self.now.flags 5 }
    {
        is_set(self.flags, 5)
    }

    /// Whether signatures of revocation lists may be verified.
    pub fn crl_sign(&self) -> bool
        ensures { result ≡ has_bit self.now.flags 6 }
    {
        is_set(self.flags, 6)
    }

    /// Whether an agreed key may be used to encipher alone.
    pub fn encipher_only(&self) -> bool
        ensures { result ≡ has_bit self.now.flags 7 }
    {
        is_set(self.flags, 7)
    }

    /// Whether an agreed key may be used to decipher alone.
    pub fn decipher_only(&self) -> bool
        ensures { result ≡ has_bit self.now.flags 8 }
    {
        is_set(self.flags, 8)
    }
}

impl<'a> FromDer<'a, X509Error> for KeyUsage {
    ghost Value = { ℕ };

    ghost view = { key_usage_of };

    ghost grammar = { in_primitive 3 key_usage key_usage_laws };

    #[tactic(auto, unfolding(crate::specs::KeyUsage::key_usage, x509_der::specs::Leaves::bits, x509_der::specs::Primitives::contents_at), using(x509_der::proofs::Marking::marks_of_readers))]
    fn read_at<L: Outside>(
        _alloc: Global,
        _tries: &mut Tries,
        place: &Place<'a, L>,
    ) -> Result<(Self, bool), Refused<X509Error, L>> {
        let bits = converted!(place.bits());
        let flags = flags_of(&bits);
        Ok((KeyUsage { flags }, true))
    }

    ghost never_memory = { key_usage_laws.laws.never_memory };
}

impl fmt::Display for KeyUsage {
    ghost output = { λ usage. Some (flags_text key_usage_names usage.flags) };

    fn fmt<W: fmt::Write>(&self, f: &mut fmt::Formatter<W>) -> fmt::Result {
        let shown = FlagNames {
            names: &NAMES,
            flags: self.flags,
        };
        write!(f, "{shown}")
    }
}
