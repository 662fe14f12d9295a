//! What reports say of certification requests.

ghost use Rattle.std.specs.Prelude.{map};
ghost use Rattle.x509_requests.specs.CriAttribute.{attribute_of, parsed_of};
ghost use Rattle.x509_requests.specs.Request.{certification_request_of};
ghost use Rattle.x509_requests.specs.RequestInfo.{info_of};
ghost use Rattle.x509_report_lines.specs.Says.{Says, SaysEach, SaysMembers, SaysUnder, list_of};
ghost use Rattle.x509_report_objects.specs.Requests.{attribute_members, attribute_report, info_members, request_members, signature_members};

use crate::certificates::version_under;
use crate::extensions::extensions_under;
use crate::values::{
    count_under, hex_under, null_under, oid_members, say_key, text_under, value_under,
};
use x509_report_lines::Line;
use x509_requests::{
    ParsedCriAttribute, X509CertificationRequest, X509CertificationRequestInfo, X509CriAttribute,
};

/// What an attribute is, and what it says.
fn say_parsed(out: &mut Line, parsed: &ParsedCriAttribute<'_>)
    ensures { SaysMembers out.old out.new (attribute_members (parsed_of parsed.now)) }
{
    match parsed {
        ParsedCriAttribute::ChallengePassword(password) => {
            text_under(out, "kind", "challenge_password");
            text_under(out, "value", &password.0);
        }
        ParsedCriAttribute::ExtensionRequest(request) => {
            text_under(out, "kind", "extension_request");
            extensions_under(out, "value", request.extensions.as_slice());
        }
        ParsedCriAttribute::UnsupportedAttribute => {
            text_under(out, "kind", "unsupported");
            null_under(out, "value");
        }
    }
}

/// An attribute.
#[tactic(auto, unfolding(crate::specs::Requests::attribute_report))]
fn say_attribute(out: &mut Line, attribute: &X509CriAttribute<'_>)
    ensures { Says out.old out.new (attribute_report (attribute_of attribute.now)) }
{
    out.begin_object();
    oid_members(out, &attribute.oid);
    say_parsed(out, attribute.parsed_attribute());
    hex_under(out, "der", attribute.value);
    out.end_object();
}

fn say_attributes(out: &mut Line, attributes: &[X509CriAttribute<'_>])
    ensures { SaysEach out.old out.new attribute_report (map attribute_of attributes.now) }
{
    for attribute in attributes {
        say_attribute(out, attribute);
    }
}

/// Attributes under a key.
#[tactic(auto, using(x509_report_lines::proofs::Written::list_written))]
fn attributes_under(out: &mut Line, key: &str, attributes: &[X509CriAttribute<'_>])
    ensures { SaysUnder out.old out.new key.now (list_of attribute_report (map attribute_of attributes.now)) }
{
    out.key(key);
    out.begin_array();
    say_attributes(out, attributes);
    out.end_array();
}

/// What is signed.
fn say_info(out: &mut Line, fingerprints: bool, info: &X509CertificationRequestInfo<'_>)
    ensures { SaysMembers out.old out.new (info_members fingerprints (info_of info.now)) }
{
    version_under(out, "version", info.version);
    value_under(out, "subject", &info.subject);
    out.key("key");
    say_key(out, fingerprints, &info.subject_pki);
    attributes_under(out, "attributes", info.attributes());
}

/// How it is signed.
fn say_signature(out: &mut Line, request: &X509CertificationRequest<'_>)
    ensures { SaysMembers out.old out.new (signature_members (certification_request_of request.now)) }
{
    value_under(out, "signature_algorithm", &request.signature_algorithm);
    value_under(out, "signature", &request.signature_value);
    count_under(
        out,
        "tbs_length",
        request.certification_request_info.raw.len() as u64,
    );
}

/// The members of a request's report, one after another; with fingerprints where these are wanted.
#[tactic(auto, unfolding(crate::specs::Requests::request_members))]
pub fn request_members(out: &mut Line, fingerprints: bool, request: &X509CertificationRequest<'_>)
    ensures { SaysMembers out.old out.new (request_members fingerprints (certification_request_of request.now)) }
{
    say_info(out, fingerprints, &request.certification_request_info);
    say_signature(out, request);
}
