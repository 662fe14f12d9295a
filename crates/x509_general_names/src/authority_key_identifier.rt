//! Which key of an issuer signed.

ghost use Rattle.x509_der.specs.Grammar.{allocates, in_sequence};
ghost use Rattle.x509_general_names.specs.AuthorityKeyIdentifier.{AuthorityKeyIdentifierValue, authority_key_identifier_of, authority_key_identifier};
ghost use Rattle.x509_general_names.specs.AuthorityKeyIdentifier.{authority_key_identifier_heads, authority_key_identifier_laws};

use crate::general_name::GeneralName;
use crate::implicit_names::ImplicitNames;
use crate::key_identifier::KeyIdentifier;
use std::alloc::Global;
use x509_der::{Fields, FromDer, Outside, Place, Refused, Sequence, Tries};
use x509_fields::{TryClone, X509Error, sequence_at};

/// Which key of an issuer signed (RFC 5280, section 4.2.1.1).
///
/// ```text
/// AuthorityKeyIdentifier ::= SEQUENCE {
///     keyIdentifier              [0]  KeyIdentifier            OPTIONAL,
///     authorityCertIssuer        [1]  GeneralNames             OPTIONAL,
///     authorityCertSerialNumber  [2]  CertificateSerialNumber  OPTIONAL }
/// ```
///
/// A field that cannot be read is absent, and every later field is looked for where it stands.
#[derive(Debug, PartialEq, Drop)]
pub struct AuthorityKeyIdentifier<'a> {
    /// The identifier of the key.
    pub key_identifier: Option<KeyIdentifier<'a>>,
    /// Who issued the certificate of that key: the names at the front of the field, which may be none; what stands behind
    /// them in it is skipped.
    pub authority_cert_issuer: Option<Sequence<GeneralName<'a>>>,
    /// The serial number of the certificate of that key: its octets as they stand, which are not looked at.
    pub authority_cert_serial: Option<&'a [u8]>,
}

/// Refused is only what is no whole SEQUENCE, and want of memory. Bytes behind the last field are skipped.
impl<'a> FromDer<'a, X509Error> for AuthorityKeyIdentifier<'a> {
    ghost Value = { AuthorityKeyIdentifierValue };

    ghost view = { authority_key_identifier_of };

    ghost grammar = { in_sequence authority_key_identifier authority_key_identifier_laws authority_key_identifier_heads allocates };

    #[tactic(auto, unfolding(crate::specs::AuthorityKeyIdentifier::authority_key_identifier), using(x509_der::proofs::Steps::marks_of_fields))]
    fn read_at<L: Outside>(
        alloc: Global,
        tries: &mut Tries,
        place: &Place<'a, L>,
    ) -> Result<(Self, bool), Refused<X509Error, L>> {
        let contents = sequence_at(place)?;
        let fields = Fields::of(tries, &contents);
        let (fields, octets) = fields.soft_implicit(tries, 0);
        let (fields, authority_cert_issuer) = fields.soft_by(
            &ImplicitNames { number: 1 },
            alloc,
            tries,
        )?;
        let (fields, authority_cert_serial) = fields.soft_implicit(tries, 2);
        let identifier = AuthorityKeyIdentifier {
            key_identifier: octets.map(KeyIdentifier),
            authority_cert_issuer,
            authority_cert_serial,
        };
        Ok((identifier, fields.are_plain()))
    }

    ghost never_memory = { authority_key_identifier_laws.laws.never_memory };
}

impl TryClone for AuthorityKeyIdentifier<'_> {
    fn try_clone(&self) -> Result<Self, X509Error> {
        let authority_cert_issuer = self.authority_cert_issuer.try_clone()?;
        Ok(AuthorityKeyIdentifier {
            key_identifier: self.key_identifier,
            authority_cert_issuer,
            authority_cert_serial: self.authority_cert_serial,
        })
    }
}
