//! What reports say of extensions.

ghost use Rattle.std.specs.Prelude.{map};
ghost use Rattle.x509_extensions.specs.Extension.{extension_of};
ghost use Rattle.x509_extensions.specs.Parsed.{parsed_of};
ghost use Rattle.x509_report_lines.specs.Says.{Says, SaysEach, SaysUnder, list_of};
ghost use Rattle.x509_report_objects.specs.Extensions.{extension_report, value_report};

use crate::values::{Said, hex_under, oid_members, say_hex, say_list, text_under, truth_under};
use x509_extensions::{ParsedExtension, X509Extension};
use x509_report_lines::Line;

/// What the value of an extension says.
fn say_value(out: &mut Line, value: &ParsedExtension<'_>)
    ensures { Says out.old out.new (value_report (parsed_of value.now)) }
{
    match value {
        ParsedExtension::UnsupportedExtension { .. } | ParsedExtension::Unparsed => out.null(),
        ParsedExtension::ParseError { error } => out.string(error.word()),
        ParsedExtension::SubjectKeyIdentifier(v) => say_hex(out, v.0),
        ParsedExtension::KeyUsage(v) => v.say(out),
        ParsedExtension::SubjectAlternativeName(v) => say_list(out, v.general_names.as_slice()),
        ParsedExtension::IssuerAlternativeName(v) => say_list(out, v.general_names.as_slice()),
        ParsedExtension::BasicConstraints(v) => v.say(out),
        ParsedExtension::CRLNumber(v) => say_hex(out, v.as_bytes()),
        ParsedExtension::ReasonCode(v) => v.say(out),
        ParsedExtension::InvalidityDate(v) => v.say(out),
        ParsedExtension::IssuingDistributionPoint(v) => v.say(out),
        ParsedExtension::NameConstraints(v) => v.say(out),
        ParsedExtension::CRLDistributionPoints(v) => say_list(out, v.points.as_slice()),
        ParsedExtension::CertificatePolicies(v) => say_list(out, v.as_slice()),
        ParsedExtension::PolicyMappings(v) => say_list(out, v.mappings.as_slice()),
        ParsedExtension::AuthorityKeyIdentifier(v) => v.say(out),
        ParsedExtension::PolicyConstraints(v) => v.say(out),
        ParsedExtension::ExtendedKeyUsage(v) => v.say(out),
        ParsedExtension::InhibitAnyPolicy(v) => v.say(out),
        ParsedExtension::AuthorityInfoAccess(v) => say_list(out, v.accessdescs.as_slice()),
        ParsedExtension::SubjectInfoAccess(v) => say_list(out, v.accessdescs.as_slice()),
        ParsedExtension::SCT(v) => say_list(out, v.as_slice()),
        ParsedExtension::NSCertType(v) => v.say(out),
        ParsedExtension::NsCertComment(v) => out.string(v),
    }
}

/// An extension.
#[tactic(auto, unfolding(crate::specs::Extensions::extension_report))]
fn say_extension(out: &mut Line, extension: &X509Extension<'_>)
    ensures { Says out.old out.new (extension_report (extension_of extension.now)) }
{
    let parsed = extension.parsed_extension();
    out.begin_object();
    oid_members(out, &extension.oid);
    truth_under(out, "critical", extension.critical);
    text_under(out, "kind", parsed.kind());
    out.key("value");
    say_value(out, parsed);
    hex_under(out, "der", extension.value);
    out.end_object();
}

fn say_extensions(out: &mut Line, extensions: &[X509Extension<'_>])
    ensures { SaysEach out.old out.new extension_report (map extension_of extensions.now) }
{
    for extension in extensions {
        say_extension(out, extension);
    }
}

/// Extensions under a key.
#[tactic(auto, using(x509_report_lines::proofs::Written::list_written))]
pub(crate) fn extensions_under(out: &mut Line, key: &str, extensions: &[X509Extension<'_>])
    ensures { SaysUnder out.old out.new key.now (list_of extension_report (map extension_of extensions.now)) }
{
    out.key(key);
    out.begin_array();
    say_extensions(out, extensions);
    out.end_array();
}
