//! The types that are read from one element.

use crate::readers::outcome::{
    put_located, put_located_element, put_marked, put_outcome, put_uncounted, put_whole,
};
use crate::show::{Answer, Octets, Show, Text, put_result};
use std::alloc::Global;
use std::fmt;
use x509_certs::{TbsCertificate, Validity, X509Certificate};
use x509_der::{
    BerError, Err, FromDer, ReadError, Sequence, Tries, Window, read_any, read_run, read_run1,
    read_to_end,
};
use x509_extensions::{ExtensionSequence, X509Extension, X509ExtensionParser};
use x509_fields::{ASN1Time, AlgorithmIdentifier, X509Error, X509Version};
use x509_general_names::{
    AccessDescription, AuthorityInfoAccess, AuthorityKeyIdentifier, CRLDistributionPoint,
    CRLDistributionPoints, DistributionPointName, GeneralName, GeneralSubtree,
    IssuerAlternativeName, IssuingDistributionPoint, KeyIdentifier, NameConstraints, ReasonFlags,
    SubjectAlternativeName, SubjectInfoAccess,
};
use x509_keys::{EcdsaSigValue, RSAPublicKey, SubjectPublicKeyInfo};
use x509_lists::{
    CertificateListEntries, CertificateRevocationList, RevokedCertificate, TbsCertList,
    TbsCertListEntries,
};
use x509_names::{AttributeTypeAndValue, RelativeDistinguishedName, X509Name};
use x509_requests::{
    ExtensionRequest, X509CertificationRequest, X509CertificationRequestInfo, X509CriAttribute,
};
use x509_values::{
    BasicConstraints, CRLNumber, ExtendedKeyUsage, InhibitAnyPolicy, InvalidityDate, KeyUsage,
    NSCertType, PolicyConstraints, PolicyInformation, PolicyList, PolicyMapping, PolicyMappings,
    PolicyQualifierInfo, ReasonCodeValue, TimestampList, parse_ct_signed_certificate_timestamp,
    parse_ct_signed_certificate_timestamp_list, read_ns_comment,
};

// An outcome, alone.
fn outcome_of<T: Show, E: fmt::Debug + ReadError>(
    alloc: Global,
    input: &[u8],
    tries: &Tries,
    outcome: Result<(&[u8], T), Err<E>>,
) -> Answer {
    let mut answer = Answer::new(alloc);
    put_outcome(&mut answer, input, tries, outcome);
    answer
}

// What `read` and `from_der` answer, where it is another than that of `read_marked`, which has a mark more.
fn put_others(out: &mut Answer, first: &Answer, second: &Answer) {
    if first.is_stopped() || second.is_stopped() {
        out.stop();
    }
    let (first, second) = (first.as_str(), second.as_str());
    let mark = out.as_str().len().wrapping_sub(first.len());
    if first != second || (mark != 0 && mark != 6) {
        out.add(" READ ");
        out.add(first);
        out.add(" FROM_DER ");
        out.add(second);
    }
}

/// How a type is read.
#[derive(Clone, Copy)]
enum How {
    /// By `read_marked`, `read` and `from_der`.
    Counted,
    /// By `from_der_located` and `from_der_marked_located`.
    Located,
}

// By `read_marked`, with the mark and the count; a `read` or `from_der` that answers otherwise shows.
fn reading<'a, E: fmt::Debug + ReadError, T: FromDer<'a, E> + Show>(i: &'a [u8], out: &mut Answer) {
    let alloc = out.alloc();
    let mut tries = Tries::new();
    let marked = T::read_marked(alloc, &mut tries, i);
    put_marked(out, i, &tries, marked);
    let mut again = Tries::new();
    let read = T::read(alloc, &mut again, i);
    let first = outcome_of(alloc, i, &again, read);
    let second = outcome_of(alloc, i, &tries, T::from_der(alloc, i));
    put_others(out, &first, &second);
}

// Whether what was answered with a mark is the same, with the mark of `read_marked`.
fn put_marked_again(out: &mut Answer, again: &Answer, mark: Option<bool>, wanted: Option<bool>) {
    if again.is_stopped() {
        out.stop();
    }
    if out.as_str() != again.as_str() || mark != wanted {
        out.add(" MARKED ");
        out.add(again.as_str());
    }
}

// The mark of `read_marked`, where it takes the input.
fn mark_of<'a, E: ReadError, T: FromDer<'a, E> + Drop>(
    out: &mut Answer,
    i: &'a [u8],
) -> Option<bool> {
    match T::read_marked(out.alloc(), &mut Tries::new(), i) {
        Ok((_, _value, plain)) => Some(plain),
        Err(refusal) => {
            if refusal.is_out_of_memory() {
                out.stop();
            }
            None
        }
    }
}

// By `from_der_located`; a `from_der_marked_located` that answers otherwise shows.
macro_rules! locating {
    ($put:ident, $error:ty, $type:ty, $input:ident, $out:ident) => {
        let alloc = $out.alloc();
        $put($out, $input, <$type>::from_der_located(alloc, $input));
        let mut mark = None;
        let marked = match <$type>::from_der_marked_located(alloc, $input) {
            Ok((rest, value, plain)) => {
                mark = Some(plain);
                Ok((rest, value))
            }
            Err(refusal) => Err(refusal),
        };
        let mut again = Answer::new(alloc);
        $put(&mut again, $input, marked);
        let wanted = mark_of::<$error, $type>($out, $input);
        put_marked_again($out, &again, mark, wanted);
    };
}

// A type whose errors are those of fields.
fn field<'a, T: FromDer<'a, X509Error> + Show>(how: How, i: &'a [u8], out: &mut Answer) {
    match how {
        How::Counted => reading::<X509Error, T>(i, out),
        How::Located => {
            locating!(put_located, X509Error, T, i, out);
        }
    }
}

// A type whose errors are those of elements.
fn element<'a, T: FromDer<'a, BerError> + Show>(how: How, i: &'a [u8], out: &mut Answer) {
    match how {
        How::Counted => reading::<BerError, T>(i, out),
        How::Located => {
            locating!(put_located_element, BerError, T, i, out);
        }
    }
}

// The lists of a type.
fn running<'a, T: FromDer<'a, X509Error> + Show>(i: &'a [u8], out: &mut Answer) {
    let mut tries = Tries::new();
    let read: Result<(&'a [u8], Sequence<T>, bool), Err<X509Error>> = read_run(
        out.alloc(),
        &mut tries,
        i,
    );
    put_marked(out, i, &tries, read);
}

// Lists of at least one.
fn running1<'a, T: FromDer<'a, X509Error> + Show>(i: &'a [u8], out: &mut Answer) {
    let mut tries = Tries::new();
    let read: Result<(&'a [u8], Sequence<T>, bool), Err<X509Error>> = match read_run1(
        out.alloc(),
        &mut tries,
        &Window::whole(i),
    ) {
        Ok(read) => Ok(read),
        Err(e) => Err(e.why),
    };
    put_marked(out, i, &tries, read);
}

// Lists to the end of the bytes.
fn ending<'a, T: FromDer<'a, X509Error> + Show>(i: &'a [u8], out: &mut Answer) {
    let mut tries = Tries::new();
    let read: Result<(Sequence<T>, bool), Err<X509Error>> = match read_to_end(
        out.alloc(),
        &mut tries,
        &Window::whole(i),
    ) {
        Ok(read) => Ok(read),
        Err(e) => Err(e.why),
    };
    put_whole(out, i, &tries, read);
}

// The words of lists.
fn lists(word: &str, i: &[u8], out: &mut Answer) -> bool {
    match word {
        "run_version" => running::<X509Version>(i, out),
        "run_alg" => running::<AlgorithmIdentifier>(i, out),
        "run1_alg" => running1::<AlgorithmIdentifier>(i, out),
        "to_end_alg" => ending::<AlgorithmIdentifier>(i, out),
        "to_end_rdn" => ending::<RelativeDistinguishedName>(i, out),
        "run_general_name" => running::<GeneralName>(i, out),
        "run1_extension" => running1::<X509Extension>(i, out),
        "to_end_revoked" => ending::<RevokedCertificate>(i, out),
        _ => return false,
    }
    true
}

// Extensions to the end, in the wrapper of a certificate.
fn wrapped(i: &[u8], out: &mut Answer) {
    let mut tries = Tries::new();
    let read = X509ExtensionParser::new().read_wrapped(out.alloc(), &mut tries, 3, i);
    put_whole(out, i, &tries, read);
}

// A comment of Netscape's.
fn comment(i: &[u8], out: &mut Answer) {
    let mut tries = Tries::new();
    let read = match read_ns_comment(&mut tries, i) {
        Ok((rest, text)) => Ok((rest, Text(text))),
        Err(refusal) => Err(refusal),
    };
    put_outcome(out, i, &tries, read);
}

// The general name of an element that was read before.
fn name_of(i: &[u8], out: &mut Answer) {
    match read_any(&mut Tries::new(), i) {
        Ok((_, any)) => {
            let name = GeneralName::try_from(out.alloc(), any);
            put_result(out, name);
        }
        Err(refusal) => out.refused(&refusal),
    }
}

// The bytes of a key's identifier.
fn key_bytes(i: &[u8], out: &mut Answer) {
    let read = match KeyIdentifier::from_der(out.alloc(), i) {
        Ok((rest, key)) => Ok((rest, Octets(key.0))),
        Err(refusal) => Err(refusal),
    };
    put_uncounted(out, i, read);
}

// The words of values of extensions.
fn values(how: How, word: &str, i: &[u8], out: &mut Answer) -> bool {
    match word {
        "general_name" => field::<GeneralName>(how, i, out),
        "key_identifier" => field::<KeyIdentifier>(how, i, out),
        "key_usage" => field::<KeyUsage>(how, i, out),
        "subject_alt_name" => field::<SubjectAlternativeName>(how, i, out),
        "issuer_alt_name" => field::<IssuerAlternativeName>(how, i, out),
        "basic_constraints" => field::<BasicConstraints>(how, i, out),
        "name_constraints" => field::<NameConstraints>(how, i, out),
        "policy_constraints" => field::<PolicyConstraints>(how, i, out),
        "inhibit_any_policy" => field::<InhibitAnyPolicy>(how, i, out),
        "policy_mappings" => field::<PolicyMappings>(how, i, out),
        "crl_distribution_points" => field::<CRLDistributionPoints>(how, i, out),
        "authority_info_access" => field::<AuthorityInfoAccess>(how, i, out),
        "subject_info_access" => field::<SubjectInfoAccess>(how, i, out),
        "authority_key_identifier" => field::<AuthorityKeyIdentifier>(how, i, out),
        "extended_key_usage" => field::<ExtendedKeyUsage>(how, i, out),
        "ns_cert_type" => field::<NSCertType>(how, i, out),
        "certificate_policies" => field::<PolicyList>(how, i, out),
        "issuing_distribution_point" => field::<IssuingDistributionPoint>(how, i, out),
        "crl_number" => field::<CRLNumber>(how, i, out),
        "reason_code" => field::<ReasonCodeValue>(how, i, out),
        "invalidity_date" => field::<InvalidityDate>(how, i, out),
        _ => return parts(how, word, i, out),
    }
    true
}

// The words of parts of such values.
fn parts(how: How, word: &str, i: &[u8], out: &mut Answer) -> bool {
    match word {
        "policy_mapping" => element::<PolicyMapping>(how, i, out),
        "policy_information" => element::<PolicyInformation>(how, i, out),
        "qualifier" => element::<PolicyQualifierInfo>(how, i, out),
        "subtree" => field::<GeneralSubtree>(how, i, out),
        "access" => field::<AccessDescription>(how, i, out),
        "point" => field::<CRLDistributionPoint>(how, i, out),
        "point_name" => field::<DistributionPointName>(how, i, out),
        "reason_flags" => field::<ReasonFlags>(how, i, out),
        "timestamps" => element::<TimestampList>(how, i, out),
        "extension_list" => field::<ExtensionSequence>(how, i, out),
        _ => return false,
    }
    true
}

// The words of requests and keys.
fn requests(how: How, word: &str, i: &[u8], out: &mut Answer) -> bool {
    match word {
        "csr" => field::<X509CertificationRequest>(how, i, out),
        "csr_info" => field::<X509CertificationRequestInfo>(how, i, out),
        "attribute" => field::<X509CriAttribute>(how, i, out),
        "extension_request" => field::<ExtensionRequest>(how, i, out),
        "rsa_key" => field::<RSAPublicKey>(how, i, out),
        "ecdsa_value" => element::<EcdsaSigValue>(how, i, out),
        _ => return values(how, word, i, out),
    }
    true
}

// The words of lists of revoked certificates.
fn revocation(how: How, word: &str, i: &[u8], out: &mut Answer) -> bool {
    match word {
        "crl" => field::<CertificateRevocationList>(how, i, out),
        "crl_entries" => field::<CertificateListEntries>(how, i, out),
        "tbs_cert_list" => field::<TbsCertList>(how, i, out),
        "tbs_cert_list_entries" => field::<TbsCertListEntries>(how, i, out),
        "revoked_certificate" => field::<RevokedCertificate>(how, i, out),
        _ => return requests(how, word, i, out),
    }
    true
}

// The words of certificates and their fields, and of all other types.
fn types(how: How, word: &str, i: &[u8], out: &mut Answer) -> bool {
    match word {
        "version" => field::<X509Version>(how, i, out),
        "alg" => field::<AlgorithmIdentifier>(how, i, out),
        "atv" => field::<AttributeTypeAndValue>(how, i, out),
        "rdn" => field::<RelativeDistinguishedName>(how, i, out),
        "name" => field::<X509Name>(how, i, out),
        "time" => field::<ASN1Time>(how, i, out),
        "spki" => field::<SubjectPublicKeyInfo>(how, i, out),
        "validity" => field::<Validity>(how, i, out),
        "extension" => field::<X509Extension>(how, i, out),
        "tbs" => field::<TbsCertificate>(how, i, out),
        "certificate" => field::<X509Certificate>(how, i, out),
        _ => return revocation(how, word, i, out),
    }
    true
}

// The words of readers that are of no type.
fn others(word: &str, i: &[u8], out: &mut Answer) -> bool {
    match word {
        "key_bytes" => key_bytes(i, out),
        "ns_comment" => comment(i, out),
        "wrapped_extensions" => wrapped(i, out),
        "general_name_of" => name_of(i, out),
        "sct" => put_uncounted(out, i, parse_ct_signed_certificate_timestamp(i)),
        "sct_list" => {
            let read = parse_ct_signed_certificate_timestamp_list(out.alloc(), i);
            put_uncounted(out, i, read);
        }
        _ => return lists(word, i, out),
    }
    true
}

/// Adds the answer of a type; false where the word names none. Behind `where_` it is that with the place of a refusal.
pub fn answer(word: &str, i: &[u8], out: &mut Answer) -> bool {
    match word.strip_prefix("where_") {
        Some(word) => types(How::Located, word, i, out),
        None => types(How::Counted, word, i, out) || others(word, i, out),
    }
}
