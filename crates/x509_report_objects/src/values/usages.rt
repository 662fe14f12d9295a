//! What reports say of the values of extensions that say what a certificate may be used for.

ghost use Rattle.std.specs.Prelude.{ℕ};
ghost use Rattle.x509_values.specs.BasicConstraints.{BasicConstraintsValue, basic_constraints_of};
ghost use Rattle.x509_values.specs.ExtendedKeyUsage.{Usages, usages_of};
ghost use Rattle.x509_values.specs.KeyUsage.{key_usage_of};
ghost use Rattle.x509_values.specs.NsCertType.{ns_cert_type_of};
ghost use Rattle.x509_values.specs.Policies.{PolicyQualifierValue, PolicyValue, policy_qualifier_of, policy_of};
ghost use Rattle.x509_values.specs.PolicyConstraints.{PolicyConstraintsValue, policy_constraints_of};
ghost use Rattle.x509_values.specs.PolicyMapping.{PolicyMappingValue, policy_mapping_of};
ghost use Rattle.json.specs.Json as json;
ghost use Rattle.x509_report_objects.specs.Usages.{basic_constraints_report, key_usage_report, ns_cert_type_report, policy_constraints_report};
ghost use Rattle.x509_report_objects.specs.Usages.{inhibit_any_policy_report, qualifier_report, policy_report, policy_mapping_report};
ghost use Rattle.x509_report_objects.specs.Usages.{extended_key_usage_report, reason_report};

use crate::values::bit_names::names_under;
use crate::values::identifiers::oid_members;
use crate::values::said::{Said, list_under, optional_list_under, value_under};
use crate::values::under::{count_under, hex_under, optional_count_under, text_under, truth_under};
use x509_fields::ReasonCode;
use x509_report_lines::{Line, set_words_under};
use x509_values::{
    BasicConstraints, ExtendedKeyUsage, InhibitAnyPolicy, KeyUsage, NSCertType, PolicyConstraints,
    PolicyInformation, PolicyMapping, PolicyQualifierInfo,
};

impl Said for BasicConstraints {
    ghost Value = { BasicConstraintsValue };

    ghost view = { basic_constraints_of };

    ghost report = { basic_constraints_report };

    #[tactic(auto, unfolding(crate::specs::Usages::basic_constraints_report))]
    fn say(&self, out: &mut Line) {
        out.begin_object();
        truth_under(out, "ca", self.ca);
        optional_count_under(out, "path_len", self.path_len_constraint);
        out.end_object();
    }
}

impl Said for KeyUsage {
    ghost Value = { ℕ };

    ghost view = { key_usage_of };

    ghost report = { key_usage_report };

    #[tactic(auto, unfolding(crate::specs::Usages::key_usage_report))]
    fn say(&self, out: &mut Line) {
        out.begin_object();
        count_under(out, "flags", u64::from(self.flags));
        names_under(out, "uses", self.names());
        out.end_object();
    }
}

impl Said for NSCertType {
    ghost Value = { ℕ };

    ghost view = { ns_cert_type_of };

    ghost report = { ns_cert_type_report };

    #[tactic(auto, unfolding(crate::specs::Usages::ns_cert_type_report))]
    fn say(&self, out: &mut Line) {
        out.begin_object();
        count_under(out, "flags", u64::from(self.flags));
        names_under(out, "types", self.names());
        out.end_object();
    }
}

impl Said for PolicyConstraints {
    ghost Value = { PolicyConstraintsValue };

    ghost view = { policy_constraints_of };

    ghost report = { policy_constraints_report };

    #[tactic(auto, unfolding(crate::specs::Usages::policy_constraints_report))]
    fn say(&self, out: &mut Line) {
        out.begin_object();
        optional_count_under(out, "require_explicit_policy", self.require_explicit_policy);
        optional_count_under(out, "inhibit_policy_mapping", self.inhibit_policy_mapping);
        out.end_object();
    }
}

impl Said for InhibitAnyPolicy {
    ghost Value = { ℕ };

    ghost view = { λ v. v.skip_certs };

    ghost report = { inhibit_any_policy_report };

    #[tactic(auto, unfolding(crate::specs::Usages::inhibit_any_policy_report))]
    fn say(&self, out: &mut Line) {
        out.begin_object();
        count_under(out, "skip_certs", u64::from(self.skip_certs));
        out.end_object();
    }
}

impl Said for PolicyQualifierInfo<'_> {
    ghost Value = { PolicyQualifierValue };

    ghost view = { policy_qualifier_of };

    ghost report = { qualifier_report };

    #[tactic(auto, unfolding(crate::specs::Usages::qualifier_report))]
    fn say(&self, out: &mut Line) {
        out.begin_object();
        oid_members(out, &self.policy_qualifier_id);
        hex_under(out, "hex", self.qualifier);
        out.end_object();
    }
}

impl Said for PolicyInformation<'_> {
    ghost Value = { PolicyValue };

    ghost view = { policy_of };

    ghost report = { policy_report };

    #[tactic(auto, unfolding(crate::specs::Usages::policy_report))]
    fn say(&self, out: &mut Line) {
        out.begin_object();
        oid_members(out, &self.policy_id);
        optional_list_under(out, "qualifiers", &self.policy_qualifiers);
        out.end_object();
    }
}

impl Said for PolicyMapping<'_> {
    ghost Value = { PolicyMappingValue };

    ghost view = { policy_mapping_of };

    ghost report = { policy_mapping_report };

    #[tactic(auto, unfolding(crate::specs::Usages::policy_mapping_report))]
    fn say(&self, out: &mut Line) {
        out.begin_object();
        value_under(out, "issuer_domain_policy", &self.issuer_domain_policy);
        value_under(out, "subject_domain_policy", &self.subject_domain_policy);
        out.end_object();
    }
}

impl Said for ExtendedKeyUsage<'_> {
    ghost Value = { Usages };

    ghost view = { usages_of };

    ghost report = { extended_key_usage_report };

    #[tactic(auto, unfolding(crate::specs::Usages::extended_key_usage_report))]
    fn say(&self, out: &mut Line) {
        let purposes = [
            (self.any, "any"),
            (self.server_auth, "server_auth"),
            (self.client_auth, "client_auth"),
            (self.code_signing, "code_signing"),
            (self.email_protection, "email_protection"),
            (self.time_stamping, "time_stamping"),
            (self.ocsp_signing, "ocsp_signing"),
        ];
        out.begin_object();
        set_words_under(out, "purposes", &purposes);
        list_under(out, "other", self.other.as_slice());
        out.end_object();
    }
}

impl Said for ReasonCode {
    ghost Value = { ℕ };

    ghost view = { λ v. v.0 };

    ghost report = { reason_report };

    #[tactic(auto, unfolding(crate::specs::Usages::reason_report))]
    fn say(&self, out: &mut Line) {
        out.begin_object();
        count_under(out, "code", u64::from(self.0));
        text_under(out, "reason", self.word());
        out.end_object();
    }
}
