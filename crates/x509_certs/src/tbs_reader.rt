//! Reading signed parts.

ghost use Rattle.std.specs.Prelude.{⊤};
ghost use Rattle.x509_der.specs.Grammar.{allocates, in_sequence};
ghost use Rattle.x509_extensions.specs.Extension.{value_bytes};
ghost use Rattle.x509_certs.specs.TbsCertificate.{Tbs, tbs_of, tbs_heads, tbs, tbs_laws};

use crate::basic_fields::read_basic_fields;
use crate::tbs_certificate::TbsCertificate;
use crate::unique_identifier::{read_issuer_uid, read_subject_uid};
use std::alloc::Global;
use x509_der::{Outside, Place, Reader, Refused, Tries, UnsignedBytes, ok};
use x509_extensions::X509ExtensionParser;
use x509_fields::{X509Error, X509Version, sequence_at};

/// Reads signed parts whether or not they stand plainly, their extensions by this reader.
#[derive(Clone, Copy, Debug)]
pub(crate) struct TbsReader {
    pub(crate) extensions: X509ExtensionParser,
}

impl<'a> Reader<'a, X509Error, TbsCertificate<'a>> for TbsReader {
    ghost Value = { Tbs };

    ghost view = { tbs_of };

    ghost grammar = { λ r. in_sequence (tbs r.extensions.deep_parse_extensions) (tbs_laws r.extensions.deep_parse_extensions) tbs_heads allocates };

    ghost is_deep = { λ r. r.extensions.deep_parse_extensions };

    ghost unread = { λ t. value_bytes t.extensions };

    ghost stands = { λ _ _ _ _. ⊤ };

    ghost stands_where = { λ _ _ _ _ _ _. tt };

    ghost refused_where = { λ _ _ _ _ _ _. tt };

    #[tactic(auto, unfolding(crate::specs::TbsCertificate::tbs), using(x509_der::proofs::Marking::marks_of_readers, crate::specs::UniqueIdentifier::issuer_uid_plain, crate::specs::UniqueIdentifier::subject_uid_plain))]
    fn read_at<L: Outside>(
        &self,
        alloc: Global,
        tries: &mut Tries,
        place: &Place<'a, L>,
    ) -> Result<(TbsCertificate<'a>, bool), Refused<X509Error, L>> {
        let contents = sequence_at(place)?;
        let (fields, basic) = ok!(read_basic_fields(alloc, tries, &contents));
        let (fields, issuer_uid) = read_issuer_uid(tries, &fields)?;
        let (fields, subject_uid) = read_subject_uid(tries, &fields)?;
        let closing = self
            .extensions
            .read_wrapped_at(alloc, tries, 3, &fields.place);
        let (extensions, extensions_plain) = ok!(closing);
        let bytes = place.bytes();
        let tbs = TbsCertificate {
            version: basic.version.unwrap_or(X509Version::V1),
            serial: UnsignedBytes::new(basic.raw_serial),
            signature: basic.signature,
            issuer: basic.issuer,
            validity: basic.validity,
            subject: basic.subject,
            subject_pki: basic.subject_pki,
            issuer_uid,
            subject_uid,
            extensions,
            raw: &bytes[..bytes.len() - place.rest().len()],
            raw_serial: basic.raw_serial,
        };
        Ok((tbs, fields.plain_so_far() & extensions_plain))
    }

    ghost never_memory = { λ r. (tbs_laws r.extensions.deep_parse_extensions).laws.never_memory };
}
