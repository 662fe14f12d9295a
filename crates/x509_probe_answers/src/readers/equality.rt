//! Equality of values.

use crate::show::{Answer, Show};
use x509_certs::{TbsCertificate, Validity, X509Certificate};
use x509_der::FromDer;
use x509_extensions::X509Extension;
use x509_fields::{AlgorithmIdentifier, X509Error, X509Version};
use x509_general_names::{
    AuthorityInfoAccess, AuthorityKeyIdentifier, CRLDistributionPoints, GeneralName,
    IssuingDistributionPoint, NameConstraints, SubjectAlternativeName,
};
use x509_keys::{RSAPublicKey, SubjectPublicKeyInfo};
use x509_lists::{RevokedCertificate, TbsCertList};
use x509_names::{AttributeTypeAndValue, RelativeDistinguishedName, X509Name};
use x509_requests::{
    ExtensionRequest, X509CertificationRequest, X509CertificationRequestInfo, X509CriAttribute,
};
use x509_values::{ExtendedKeyUsage, PolicyList, PolicyMappings};

// Whether a value is equal to another that is read.
fn put_equality<'a, T: FromDer<'a, X509Error> + PartialEq + Show>(
    first: &T,
    b: &'a [u8],
    out: &mut Answer,
) {
    match T::from_der(out.alloc(), b) {
        Ok((_, second)) => out.add(if *first == second { "equal" } else { "unequal" }),
        Err(refusal) => out.refused(&refusal),
    }
}

// Whether two values are equal.
fn equality<'a, T: FromDer<'a, X509Error> + PartialEq + Show>(
    a: &'a [u8],
    b: &'a [u8],
    out: &mut Answer,
) {
    match T::from_der(out.alloc(), a) {
        Ok((_, first)) => put_equality(&first, b, out),
        Err(refusal) => out.refused(&refusal),
    }
}

// The words of lists.
fn lists(word: &str, a: &[u8], b: &[u8], out: &mut Answer) -> bool {
    match word {
        "eq_tbs_cert_list" => equality::<TbsCertList>(a, b, out),
        "eq_revoked_certificate" => equality::<RevokedCertificate>(a, b, out),
        _ => return false,
    }
    true
}

// The words of requests and keys, and those of lists.
fn requests(word: &str, a: &[u8], b: &[u8], out: &mut Answer) -> bool {
    match word {
        "eq_csr" => equality::<X509CertificationRequest>(a, b, out),
        "eq_csr_info" => equality::<X509CertificationRequestInfo>(a, b, out),
        "eq_attribute" => equality::<X509CriAttribute>(a, b, out),
        "eq_extension_request" => equality::<ExtensionRequest>(a, b, out),
        "eq_rsa_key" => equality::<RSAPublicKey>(a, b, out),
        _ => return lists(word, a, b, out),
    }
    true
}

// The words of values of extensions.
fn values(word: &str, a: &[u8], b: &[u8], out: &mut Answer) -> bool {
    match word {
        "eq_general_name" => equality::<GeneralName>(a, b, out),
        "eq_subject_alt_name" => equality::<SubjectAlternativeName>(a, b, out),
        "eq_issuing_distribution_point" => equality::<IssuingDistributionPoint>(a, b, out),
        "eq_crl_distribution_points" => equality::<CRLDistributionPoints>(a, b, out),
        "eq_authority_key_identifier" => equality::<AuthorityKeyIdentifier>(a, b, out),
        "eq_extended_key_usage" => equality::<ExtendedKeyUsage>(a, b, out),
        "eq_certificate_policies" => equality::<PolicyList>(a, b, out),
        "eq_policy_mappings" => equality::<PolicyMappings>(a, b, out),
        "eq_name_constraints" => equality::<NameConstraints>(a, b, out),
        "eq_authority_info_access" => equality::<AuthorityInfoAccess>(a, b, out),
        _ => return requests(word, a, b, out),
    }
    true
}

/// Adds whether two values are equal; false where the word names none.
pub fn answer(word: &str, a: &[u8], b: &[u8], out: &mut Answer) -> bool {
    match word {
        "eq_version" => equality::<X509Version>(a, b, out),
        "eq_alg" => equality::<AlgorithmIdentifier>(a, b, out),
        "eq_atv" => equality::<AttributeTypeAndValue>(a, b, out),
        "eq_rdn" => equality::<RelativeDistinguishedName>(a, b, out),
        "eq_name" => equality::<X509Name>(a, b, out),
        "eq_validity" => equality::<Validity>(a, b, out),
        "eq_spki" => equality::<SubjectPublicKeyInfo>(a, b, out),
        "eq_extension" => equality::<X509Extension>(a, b, out),
        "eq_tbs" => equality::<TbsCertificate>(a, b, out),
        "eq_certificate" => equality::<X509Certificate>(a, b, out),
        _ => return values(word, a, b, out),
    }
    true
}
