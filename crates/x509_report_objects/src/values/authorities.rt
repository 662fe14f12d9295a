//! What reports say of the values of extensions that say where more is found, and who signed.

ghost use Rattle.std.specs.Prelude.{ℕ, map};
ghost use Rattle.json.specs.Json as json;
ghost use Rattle.x509_der.specs.Promises.{option_view};
ghost use Rattle.x509_general_names.specs.AuthorityKeyIdentifier.{AuthorityKeyIdentifierValue, authority_key_identifier_of};
ghost use Rattle.x509_general_names.specs.DistributionPointName.{FullName, NameRelativeToCRLIssuer, point_name_of};
ghost use Rattle.x509_general_names.specs.DistributionPoints.{Point, point_of};
ghost use Rattle.x509_general_names.specs.InformationAccess.{Access, access_of};
ghost use Rattle.x509_general_names.specs.IssuingDistributionPoint.{IssuingPoint, issuing_point_of};
ghost use Rattle.x509_general_names.specs.ReasonFlags.{reason_flags_of};
ghost use Rattle.x509_report_lines.specs.Says.{SaysMembers};
ghost use Rattle.x509_names.specs.Names.{relative_name_of};
ghost use Rattle.x509_general_names.specs.GeneralName.{general_name_of};
ghost use Rattle.x509_report_objects.specs.Authorities.{reason_flags_report, authority_key_identifier_report, name_members, point_name_members, point_report};
ghost use Rattle.x509_report_objects.specs.Authorities.{cover_members, issuing_point_report, access_report};

use crate::values::bit_names::names_under;
use crate::values::identifiers::oid_members;
use crate::values::said::{Said, list_under, optional_list_under, optional_under, value_under};
use crate::values::under::{count_under, null_under, optional_hex_under, truth_under};
use x509_general_names::{
    AccessDescription, AuthorityKeyIdentifier, CRLDistributionPoint, DistributionPointName,
    GeneralName, IssuingDistributionPoint, KeyIdentifier, ReasonFlags,
};
use x509_names::RelativeDistinguishedName;
use x509_report_lines::Line;

impl Said for ReasonFlags {
    ghost Value = { ℕ };

    ghost view = { reason_flags_of };

    ghost report = { reason_flags_report };

    #[tactic(auto, unfolding(crate::specs::Authorities::reason_flags_report))]
    fn say(&self, out: &mut Line) {
        out.begin_object();
        count_under(out, "flags", u64::from(self.flags));
        names_under(out, "reasons", self.names());
        out.end_object();
    }
}

impl Said for AuthorityKeyIdentifier<'_> {
    ghost Value = { AuthorityKeyIdentifierValue };

    ghost view = { authority_key_identifier_of };

    ghost report = { authority_key_identifier_report };

    #[tactic(auto, unfolding(crate::specs::Authorities::authority_key_identifier_report))]
    fn say(&self, out: &mut Line) {
        out.begin_object();
        let identifier = match &self.key_identifier {
            Some(KeyIdentifier(octets)) => Some(*octets),
            None => None,
        };
        optional_hex_under(out, "key_identifier", identifier);
        optional_list_under(out, "issuer", &self.authority_cert_issuer);
        optional_hex_under(out, "serial", self.authority_cert_serial);
        out.end_object();
    }
}

/// A point by its names.
fn say_full_name(out: &mut Line, names: &[GeneralName<'_>])
    ensures { SaysMembers out.old out.new (name_members (FullName (map general_name_of names.now))) }
{
    list_under(out, "full_name", names);
    null_under(out, "relative_name");
}

/// A point by a name relative to its issuer's.
fn say_relative_name(out: &mut Line, relative: &RelativeDistinguishedName<'_>)
    ensures { SaysMembers out.old out.new (name_members (NameRelativeToCRLIssuer (relative_name_of relative.now))) }
{
    null_under(out, "full_name");
    value_under(out, "relative_name", relative);
}

/// One of two ways to name a point.
fn say_name(out: &mut Line, name: &DistributionPointName<'_>)
    ensures { SaysMembers out.old out.new (name_members (point_name_of name.now)) }
{
    match name {
        DistributionPointName::FullName(names) => say_full_name(out, names.as_slice()),
        DistributionPointName::NameRelativeToCRLIssuer(relative) => {
            say_relative_name(out, relative)
        }
    }
}

/// The name of a point, where it has one.
fn say_point_name(out: &mut Line, name: &Option<DistributionPointName<'_>>)
    ensures { SaysMembers out.old out.new (point_name_members (option_view point_name_of name.now)) }
{
    match name {
        Some(name) => say_name(out, name),
        None => {
            null_under(out, "full_name");
            null_under(out, "relative_name");
        }
    }
}

impl Said for CRLDistributionPoint<'_> {
    ghost Value = { Point };

    ghost view = { point_of };

    ghost report = { point_report };

    #[tactic(auto, unfolding(crate::specs::Authorities::point_report))]
    fn say(&self, out: &mut Line) {
        out.begin_object();
        say_point_name(out, &self.distribution_point);
        optional_under(out, "reasons", &self.reasons);
        optional_list_under(out, "crl_issuer", &self.crl_issuer);
        out.end_object();
    }
}

/// What a list of revoked certificates covers.
fn say_cover(out: &mut Line, point: &IssuingDistributionPoint<'_>)
    ensures { SaysMembers out.old out.new (cover_members (issuing_point_of point.now)) }
{
    truth_under(
        out,
        "only_user_certificates",
        point.only_contains_user_certs,
    );
    truth_under(out, "only_ca_certificates", point.only_contains_ca_certs);
    optional_under(out, "only_some_reasons", &point.only_some_reasons);
    truth_under(out, "indirect_crl", point.indirect_crl);
    truth_under(
        out,
        "only_attribute_certificates",
        point.only_contains_attribute_certs,
    );
}

impl Said for IssuingDistributionPoint<'_> {
    ghost Value = { IssuingPoint };

    ghost view = { issuing_point_of };

    ghost report = { issuing_point_report };

    #[tactic(auto, unfolding(crate::specs::Authorities::issuing_point_report))]
    fn say(&self, out: &mut Line) {
        out.begin_object();
        say_point_name(out, &self.distribution_point);
        say_cover(out, self);
        out.end_object();
    }
}

impl Said for AccessDescription<'_> {
    ghost Value = { Access };

    ghost view = { access_of };

    ghost report = { access_report };

    #[tactic(auto, unfolding(crate::specs::Authorities::access_report))]
    fn say(&self, out: &mut Line) {
        out.begin_object();
        oid_members(out, &self.access_method);
        value_under(out, "location", &self.access_location);
        out.end_object();
    }
}
