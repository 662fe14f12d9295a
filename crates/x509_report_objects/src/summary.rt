//! What is asked of certificates most: the hosts that one is for, and whether its subject is a certification authority.

ghost use Rattle.std.specs.Prelude.{◌≡◌, map, option_map, option_to_list};
ghost use Rattle.std.specs.Option.{option_copied};
ghost use Rattle.json.specs.Json as json;
ghost use Rattle.x509_der.specs.Oid.{oid_bytes};
ghost use Rattle.x509_extensions.specs.Extension.{extension_of};
ghost use Rattle.x509_extensions.specs.Parsed.{parsed_of};
ghost use Rattle.x509_general_names.specs.GeneralName.{general_name_of};
ghost use Rattle.x509_report_lines.specs.Says.{SaysEach, SaysEachIn, SaysMembers, SaysUnder};
ghost use Rattle.x509_report_objects.specs.Certificates.{host_in, hosts_in, hosts_of, is_authority, only_parsed, summary_members, texts_report};
ghost use Rattle.x509_report_objects.specs.Addresses.{address_text};

use crate::values::{address_text, truth_under};
use x509_der::Oid;
use x509_extensions::{ParsedExtension, X509Extension, get_extension_unique};
use x509_general_names::GeneralName;
use x509_names::OID_X509_EXT_BASIC_CONSTRAINTS;
use x509_report_lines::Line;

/// The text of an address, where its octets have one.
fn say_address(out: &mut Line, octets: &[u8])
    ensures { SaysEach out.old out.new (λ s. json.string s) (option_to_list (address_text octets.now)) }
{
    match address_text(out.alloc(), octets) {
        Ok(Some(text)) => out.string(&text),
        Ok(None) => {}
        Err(_) => out.stop(),
    }
}

/// The host of a name, where it names one.
fn say_host(out: &mut Line, name: &GeneralName<'_>)
    ensures { SaysEach out.old out.new (λ s. json.string s) (host_in (general_name_of name.now)) }
{
    match name {
        GeneralName::DNSName(text) => out.string(text),
        GeneralName::IPAddress(octets) => say_address(out, octets),
        _ => {}
    }
}

fn say_hosts(out: &mut Line, names: &[GeneralName<'_>])
    ensures { SaysEachIn out.old out.new (λ s. json.string s) host_in (map general_name_of names.now) }
{
    for name in names {
        say_host(out, name);
    }
}

/// The hosts of an extension that holds names of the subject.
#[tactic(auto, using(x509_report_lines::proofs::Written::each_in_flat))]
fn say_hosts_in(out: &mut Line, value: &ParsedExtension<'_>)
    ensures { SaysEach out.old out.new (λ s. json.string s) (hosts_in (parsed_of value.now)) }
{
    match value {
        ParsedExtension::SubjectAlternativeName(names) => say_hosts(
            out,
            names.general_names.as_slice(),
        ),
        _ => {}
    }
}

fn say_hosts_of(out: &mut Line, extensions: &[X509Extension<'_>])
    ensures { SaysEachIn out.old out.new (λ s. json.string s) (λ e. hosts_in e.parsed) (map extension_of extensions.now) }
{
    for extension in extensions {
        say_hosts_in(out, extension.parsed_extension());
    }
}

/// The hosts under a key.
#[tactic(auto, using(x509_report_lines::proofs::Written::list_written, x509_report_lines::proofs::Written::each_in_flat))]
fn hosts_under(out: &mut Line, key: &str, extensions: &[X509Extension<'_>])
    ensures { SaysUnder out.old out.new key.now (texts_report (hosts_of (map extension_of extensions.now))) }
{
    out.key(key);
    out.begin_array();
    say_hosts_of(out, extensions);
    out.end_array();
}

/// What an extension says, where there is one.
fn parsed_of<'v, 'a>(extension: Option<&'v X509Extension<'a>>) -> Option<&'v ParsedExtension<'a>>
    ensures { option_map (λ p. parsed_of p.now) result ≡ option_map (λ e. parsed_of e.parsed_extension) (option_copied extension.entry) }
{
    match extension {
        Some(extension) => Some(extension.parsed_extension()),
        None => None,
    }
}

/// What the only extension with this identifier says; none where there are two.
fn only_parsed<'v, 'a>(
    oid: &Oid<'_>,
    extensions: &'v [X509Extension<'a>],
) -> Option<&'v ParsedExtension<'a>>
    ensures { option_map (λ p. parsed_of p.now) result ≡ only_parsed (oid_bytes oid.now) (map extension_of extensions.now) }
{
    match get_extension_unique(extensions, oid) {
        Ok(found) => parsed_of(found),
        Err(_) => None,
    }
}

/// Whether they say that the subject is a certification authority.
fn is_authority(value: Option<&ParsedExtension<'_>>) -> bool
    ensures { result ≡ is_authority (option_map (λ p. parsed_of p.now) value.entry) }
{
    match value {
        Some(ParsedExtension::BasicConstraints(constraints)) => constraints.ca,
        _ => false,
    }
}

/// The hosts, and whether the subject is a certification authority.
pub(crate) fn say_summary(out: &mut Line, extensions: &[X509Extension<'_>])
    ensures { SaysMembers out.old out.new (summary_members (map extension_of extensions.now)) }
{
    let oid = Oid::new(OID_X509_EXT_BASIC_CONSTRAINTS);
    let is_ca = is_authority(only_parsed(&oid, extensions));
    hosts_under(out, "hosts", extensions);
    truth_under(out, "is_ca", is_ca);
}
