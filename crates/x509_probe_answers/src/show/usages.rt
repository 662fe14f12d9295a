//! Values of extensions that hold no general names.

use crate::show::answer::Answer;
use crate::show::base::Show;
use std::fmt;
use std::hash::{BuildHasherDefault, FoldHasher};
use x509_fields::ReasonCode;
use x509_values::{
    BasicConstraints, CRLNumber, ExtendedKeyUsage, InhibitAnyPolicy, InvalidityDate, KeyUsage,
    NSCertType, PolicyConstraints, PolicyInformation, PolicyList, PolicyMapping, PolicyMappings,
    PolicyQualifierInfo, ReasonCodeValue, SignedCertificateTimestamp, TimestampList,
};

/// The hasher of the maps.
pub type Hasher = BuildHasherDefault<FoldHasher>;

/// Adds truths as digits.
pub fn put_digits(out: &mut Answer, truths: &[bool]) {
    for truth in truths {
        out.add(if *truth { "1" } else { "0" });
    }
}

/// Adds named bits: in brackets behind a word their number, their text in hex, and each of them as a digit.
pub fn put_flags<N: fmt::Display, T: fmt::Display>(
    out: &mut Answer,
    word: &str,
    number: &N,
    value: &T,
    flags: &[bool],
) {
    out.add(word);
    out.add("(");
    out.display(number);
    out.add(";");
    out.display_hex(value);
    out.add(";");
    put_digits(out, flags);
    out.add(")");
}

impl Show for KeyUsage {
    fn show(&self, out: &mut Answer) {
        put_flags(
            out,
            "ku",
            &self.flags,
            self,
            &[
                self.digital_signature(),
                self.non_repudiation(),
                self.key_encipherment(),
                self.data_encipherment(),
                self.key_agreement(),
                self.key_cert_sign(),
                self.crl_sign(),
                self.encipher_only(),
                self.decipher_only(),
            ],
        );
    }
}

impl Show for NSCertType {
    fn show(&self, out: &mut Answer) {
        put_flags(
            out,
            "ns",
            &self.flags,
            self,
            &[
                self.ssl_client(),
                self.ssl_server(),
                self.smime(),
                self.object_signing(),
                self.ssl_ca(),
                self.smime_ca(),
                self.object_signing_ca(),
            ],
        );
    }
}

impl Show for BasicConstraints {
    fn show(&self, out: &mut Answer) {
        out.add("bc(");
        out.truth(self.ca);
        out.add(";");
        self.path_len_constraint.show(out);
        out.add(")");
    }
}

impl Show for PolicyConstraints {
    fn show(&self, out: &mut Answer) {
        out.add("pc(");
        self.require_explicit_policy.show(out);
        out.add(";");
        self.inhibit_policy_mapping.show(out);
        out.add(")");
    }
}

impl Show for InhibitAnyPolicy {
    fn show(&self, out: &mut Answer) {
        out.add("iap(");
        out.display(&self.skip_certs);
        out.add(")");
    }
}

impl Show for CRLNumber<'_> {
    fn show(&self, out: &mut Answer) {
        self.0.show(out);
    }
}

impl Show for ReasonCode {
    fn show(&self, out: &mut Answer) {
        out.add("reason(");
        out.display(&self.0);
        out.add(";");
        out.display_hex(self);
        out.add(")");
    }
}

impl Show for ReasonCodeValue {
    fn show(&self, out: &mut Answer) {
        self.0.show(out);
    }
}

impl Show for InvalidityDate {
    fn show(&self, out: &mut Answer) {
        self.0.show(out);
    }
}

impl Show for PolicyMapping<'_> {
    fn show(&self, out: &mut Answer) {
        out.add("pm(");
        out.hex(self.issuer_domain_policy.as_bytes());
        out.add(";");
        out.hex(self.subject_domain_policy.as_bytes());
        out.add(")");
    }
}

// For each mapping, all that its issuer's policy is mapped to.
fn put_groups(out: &mut Answer, list: &PolicyMappings<'_>) {
    match list.as_hashmap(out.alloc(), Hasher::new()) {
        Ok(map) => {
            out.display(&map.len());
            for mapping in list.mappings.as_slice() {
                out.add("{");
                if let Some(group) = map.get(&mapping.issuer_domain_policy) {
                    for policy in group {
                        out.add(",");
                        out.hex(policy.as_bytes());
                    }
                }
                out.add("}");
            }
        }
        Err(kind) => out.error(&kind),
    }
}

impl Show for PolicyMappings<'_> {
    fn show(&self, out: &mut Answer) {
        out.add("pms(");
        self.mappings.show(out);
        put_groups(out, self);
        out.add(")");
    }
}

impl Show for PolicyQualifierInfo<'_> {
    fn show(&self, out: &mut Answer) {
        out.add("q(");
        out.hex(self.policy_qualifier_id.as_bytes());
        out.add(";");
        out.hex(self.qualifier);
        out.add(")");
    }
}

impl Show for PolicyInformation<'_> {
    fn show(&self, out: &mut Answer) {
        out.add("pi(");
        out.hex(self.policy_id.as_bytes());
        out.add(";");
        self.policy_qualifiers.show(out);
        out.add(")");
    }
}

impl Show for PolicyList<'_> {
    fn show(&self, out: &mut Answer) {
        self.policies.show(out);
    }
}

impl Show for ExtendedKeyUsage<'_> {
    fn show(&self, out: &mut Answer) {
        out.add("eku(");
        put_digits(
            out,
            &[
                self.any,
                self.server_auth,
                self.client_auth,
                self.code_signing,
                self.email_protection,
                self.time_stamping,
                self.ocsp_signing,
            ],
        );
        for other in self.other.as_slice() {
            out.add(",");
            out.hex(other.as_bytes());
        }
        out.add(")");
    }
}

impl Show for SignedCertificateTimestamp<'_> {
    fn show(&self, out: &mut Answer) {
        out.add("sct(");
        out.display(&self.version.0);
        out.add(";");
        let log = self.id.key_id;
        out.hex(log);
        out.add(";");
        out.display(&self.timestamp);
        out.add(";");
        out.hex(self.extensions.0);
        let (hash, sign) = (self.signature.hash_alg_id, self.signature.sign_alg_id);
        out.add(";");
        out.display(&hash);
        out.add(";");
        out.display(&sign);
        out.add(";");
        out.hex(self.signature.bytes);
        out.add(")");
    }
}

impl Show for TimestampList<'_> {
    fn show(&self, out: &mut Answer) {
        self.timestamps.show(out);
    }
}
