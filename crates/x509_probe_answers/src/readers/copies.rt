//! Copies of values.

use crate::show::{Answer, Show, Tells, look_at};
use x509_certs::{TbsCertificate, X509Certificate};
use x509_der::FromDer;
use x509_extensions::X509Extension;
use x509_fields::{TryClone, X509Error};
use x509_general_names::{
    AuthorityInfoAccess, AuthorityKeyIdentifier, CRLDistributionPoints, DistributionPointName,
    GeneralName, IssuerAlternativeName, IssuingDistributionPoint, NameConstraints,
    SubjectAlternativeName, SubjectInfoAccess,
};
use x509_lists::{
    CertificateListEntries, CertificateListOf, CertificateRevocationList, RevokedCertificate,
    TbsCertList, TbsCertListEntries,
};
use x509_names::{RelativeDistinguishedName, X509Name};
use x509_requests::{ExtensionRequest, X509CriAttribute};
use x509_values::{ExtendedKeyUsage, PolicyList, PolicyMappings};

/// By what a copy is compared to the value.
trait Compare<T> {
    /// Whether the copy is equal to it.
    fn is_equal(value: &T, copy: &T) -> bool;
}

/// By all of it.
struct Whole;

impl<T: PartialEq> Compare<T> for Whole {
    fn is_equal(value: &T, copy: &T) -> bool {
        *copy == *value
    }
}

/// By the signed part of a list.
struct SignedPart;

impl<'a, R: PartialEq> Compare<CertificateListOf<'a, R>> for SignedPart {
    fn is_equal(value: &CertificateListOf<'a, R>, copy: &CertificateListOf<'a, R>) -> bool {
        copy.tbs_cert_list == value.tbs_cert_list
    }
}

// The copy of a value, and whether it is equal.
fn put_copy<T: Show, C: Compare<T>>(out: &mut Answer, value: &T, copy: Result<T, X509Error>) {
    match copy {
        Ok(copy) => {
            let equal = C::is_equal(value, &copy);
            out.add(if equal { "equal " } else { "unequal " });
            copy.show(out);
        }
        Err(kind) => out.error(&kind),
    }
}

// The copy of a value that is read.
fn copied<'a, T: FromDer<'a, X509Error> + TryClone + Show, C: Compare<T>>(
    a: &'a [u8],
    out: &mut Answer,
) {
    match T::from_der(out.alloc(), a) {
        Ok((_, value)) => put_copy::<T, C>(out, &value, value.try_clone()),
        Err(refusal) => out.refused(&refusal),
    }
}

/// Copies attributes of requests, which have a call of their own for it.
struct AttributeCopy;

impl Tells<AttributeCopy> for X509CriAttribute<'_> {
    fn tell(&self, _asked: &AttributeCopy, out: &mut Answer) {
        put_copy::<X509CriAttribute, Whole>(out, self, self.try_clone());
    }
}

// The copy of an attribute of a request.
fn copied_attribute(a: &[u8], out: &mut Answer) {
    let read = X509CriAttribute::from_der(out.alloc(), a);
    look_at(out, &AttributeCopy, read);
}

// The words of lists that keep their entries, and of requests.
fn kept(word: &str, a: &[u8], out: &mut Answer) -> bool {
    match word {
        "copy_tbs_cert_list" => copied::<TbsCertList, Whole>(a, out),
        "copy_crl" => copied::<CertificateRevocationList, SignedPart>(a, out),
        "copy_extension_request" => copied::<ExtensionRequest, Whole>(a, out),
        "copy_attribute" => copied_attribute(a, out),
        _ => return false,
    }
    true
}

// The words of lists over their octets, and of entries.
fn lists(word: &str, a: &[u8], out: &mut Answer) -> bool {
    match word {
        "copy_revoked_certificate" => copied::<RevokedCertificate, Whole>(a, out),
        "copy_crl_entries" => copied::<CertificateListEntries, SignedPart>(a, out),
        "copy_tbs_cert_list_entries" => copied::<TbsCertListEntries, Whole>(a, out),
        _ => return kept(word, a, out),
    }
    true
}

// The words of values of extensions.
fn values(word: &str, a: &[u8], out: &mut Answer) -> bool {
    match word {
        "copy_subject_alt_name" => copied::<SubjectAlternativeName, Whole>(a, out),
        "copy_issuer_alt_name" => copied::<IssuerAlternativeName, Whole>(a, out),
        "copy_name_constraints" => copied::<NameConstraints, Whole>(a, out),
        "copy_extended_key_usage" => copied::<ExtendedKeyUsage, Whole>(a, out),
        "copy_certificate_policies" => copied::<PolicyList, Whole>(a, out),
        "copy_policy_mappings" => copied::<PolicyMappings, Whole>(a, out),
        "copy_authority_key_identifier" => copied::<AuthorityKeyIdentifier, Whole>(a, out),
        "copy_crl_distribution_points" => copied::<CRLDistributionPoints, Whole>(a, out),
        "copy_issuing_distribution_point" => copied::<IssuingDistributionPoint, Whole>(a, out),
        "copy_authority_info_access" => copied::<AuthorityInfoAccess, Whole>(a, out),
        "copy_subject_info_access" => copied::<SubjectInfoAccess, Whole>(a, out),
        "copy_point_name" => copied::<DistributionPointName, Whole>(a, out),
        _ => return lists(word, a, out),
    }
    true
}

/// Adds the copy of a value; false where the word names none.
pub fn answer(word: &str, a: &[u8], out: &mut Answer) -> bool {
    match word {
        "copy_rdn" => copied::<RelativeDistinguishedName, Whole>(a, out),
        "copy_name" => copied::<X509Name, Whole>(a, out),
        "copy_general_name" => copied::<GeneralName, Whole>(a, out),
        "copy_extension" => copied::<X509Extension, Whole>(a, out),
        "copy_tbs" => copied::<TbsCertificate, Whole>(a, out),
        "copy_certificate" => copied::<X509Certificate, Whole>(a, out),
        _ => return values(word, a, out),
    }
    true
}
