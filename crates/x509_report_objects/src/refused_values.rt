//! What a report says of the values of extensions that can't be read.

ghost use Rattle.std.specs.Prelude.{◌≡◌, None, drop, map, option_map, MatchResult, ⊤};
ghost use Rattle.json.specs.Json.{array};
ghost use Rattle.x509_extensions.specs.Extension.{extension_of};
ghost use Rattle.x509_lists.specs.CertificateList.{list_of};
ghost use Rattle.x509_lists.specs.RevokedCertificate.{revoked_of};
ghost use Rattle.x509_requests.specs.CriAttribute.{attribute_of, parsed_of};
ghost use Rattle.x509_requests.specs.Request.{certification_request_of};
ghost use Rattle.x509_report_lines.specs.Says.{Says, SaysEach, SaysUnder, items_of};
ghost use Rattle.x509_report_objects.specs.RefusedValues.{any_asked_for, any_in_attributes, any_in_entries, any_in_list, any_in_request, any_refused};
ghost use Rattle.x509_report_objects.specs.RefusedValues.{report_with_path, some_text, value_report, value_reports, values_if};

use crate::errors::refusal_name;
use crate::values::{count_under, optional_text_under, text_under};
use std::alloc::{AllocError, Global};
use x509_elements::{Part, RefusedValue, first_of, path_to, refused_values};
use x509_extensions::X509Extension;
use x509_lists::{CertificateRevocationList, RevokedCertificate};
use x509_report_lines::Line;
use x509_requests::{ParsedCriAttribute, X509CertificationRequest, X509CriAttribute};

/// Of how many values the paths are looked for.
const PATHS: usize = 100;

/// A text, where it has a character.
pub(crate) fn some_text(text: &str) -> Option<&str>
    ensures { option_map (λ s. s.now) result ≡ some_text text.now }
{
    if text.is_empty() { None } else { Some(text) }
}

/// Why a value is refused, at which octet, and the path that leads there.
fn say_value(out: &mut Line, path: Option<&str>, value: &RefusedValue)
    ensures { Says out.old out.new (value_report (option_map (λ s. s.now) path.entry) value.now) }
{
    out.begin_object();
    text_under(out, "error", refusal_name(&value.why));
    text_under(out, "word", value.why.word());
    count_under(out, "at", value.at as u64);
    optional_text_under(out, "path", path);
    out.end_object();
}

/// The same with the path of fields in these octets, which are such a part.
fn say_with_path(out: &mut Line, part: Part, octets: &[u8], value: &RefusedValue)
    ensures { Says out.old out.new (report_with_path part octets.now value.now) }
{
    match path_to(out.alloc(), part, octets, value.at) {
        Ok(path) => say_value(out, some_text(path.as_str()), value),
        Err(_) => out.stop(),
    }
}

/// Values with their paths, one after another.
fn say_each_with_path(out: &mut Line, part: Part, octets: &[u8], values: &[RefusedValue])
    ensures { SaysEach out.old out.new (report_with_path part octets.now) values.now }
{
    for value in values {
        say_with_path(out, part, octets, value);
    }
}

/// Values without a path, one after another.
fn say_each(out: &mut Line, values: &[RefusedValue])
    ensures { SaysEach out.old out.new (value_report None) values.now }
{
    for value in values {
        say_value(out, None, value);
    }
}

/// The values behind the first ones.
fn behind(values: &[RefusedValue], count: usize) -> &[RefusedValue]
    ensures { result.now ≡ drop count values.now }
{
    if count <= values.len() {
        &values[count..]
    } else {
        &[]
    }
}

/// All values, one after another.
#[tactic(auto, using(crate::proofs::Attempted::each_of_two))]
fn say_values(out: &mut Line, part: Part, octets: &[u8], values: &[RefusedValue])
    ensures { SaysEach out.old out.new (λ report. report) (value_reports part octets.now values.now) }
{
    say_each_with_path(out, part, octets, first_of(values, PATHS));
    say_each(out, behind(values, PATHS));
}

/// Whether the value of one of these extensions can't be read.
pub(crate) fn any_refused(extensions: &[X509Extension<'_>]) -> bool
    ensures { result ≡ any_refused (map extension_of extensions.now) }
{
    for extension in extensions {
        if extension.parsed_extension().error().is_some() {
            return true;
        }
    }
    false
}

/// Whether an entry of a list has such an extension.
fn any_in_entries(entries: &[RevokedCertificate<'_>]) -> bool
    ensures { result ≡ any_in_entries (map revoked_of entries.now) }
{
    for entry in entries {
        if any_refused(entry.extensions()) {
            return true;
        }
    }
    false
}

/// Whether a list has such an extension, or an entry of it.
pub(crate) fn any_in_list(list: &CertificateRevocationList<'_>) -> bool
    ensures { result ≡ any_in_list (list_of list.now).tbs }
{
    if any_refused(list.extensions()) {
        return true;
    }
    any_in_entries(list.tbs_cert_list.revoked_certificates.as_slice())
}

/// Whether such an extension is asked for by an attribute.
fn any_asked_for(attribute: &ParsedCriAttribute<'_>) -> bool
    ensures { result ≡ any_asked_for (parsed_of attribute.now) }
{
    match attribute {
        ParsedCriAttribute::ExtensionRequest(request) => any_refused(request.extensions.as_slice()),
        _ => false,
    }
}

/// The same of all attributes.
fn any_in_attributes(attributes: &[X509CriAttribute<'_>]) -> bool
    ensures { result ≡ any_in_attributes (map attribute_of attributes.now) }
{
    for attribute in attributes {
        if any_asked_for(attribute.parsed_attribute()) {
            return true;
        }
    }
    false
}

/// Whether a request asks for such an extension.
pub(crate) fn any_in_request(request: &X509CertificationRequest<'_>) -> bool
    ensures { result ≡ any_in_request (certification_request_of request.now).tbs }
{
    any_in_attributes(request.certification_request_info.attributes())
}

/// The values that can't be read; of an object that has none they aren't looked for.
fn values_if(
    alloc: Global,
    refused: bool,
    part: Part,
    octets: &[u8],
) -> Result<Vec<RefusedValue>, AllocError>
    ensures { MatchResult result (λ values. values.items ≡ values_if refused part octets.now) (λ _. ⊤) }
{
    if !refused {
        return Ok(Vec::new(alloc));
    }
    refused_values(alloc, part, octets)
}

/// The values of extensions that can't be read, of the object at the front of the octets, which is such a part, under a key.
#[tactic(auto, using(crate::proofs::Attempted::items_listed))]
pub(crate) fn refused_under(out: &mut Line, key: &str, refused: bool, part: Part, octets: &[u8])
    ensures { SaysUnder out.old out.new key.now (array (items_of (value_reports part octets.now (values_if refused part octets.now)))) }
{
    out.key(key);
    out.begin_array();
    match values_if(out.alloc(), refused, part, octets) {
        Ok(values) => say_values(out, part, octets, values.as_slice()),
        Err(_) => out.stop(),
    }
    out.end_array();
}
