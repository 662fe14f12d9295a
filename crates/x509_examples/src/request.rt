//! What a policy says of a certification request.

use crate::texts::Shown;
use std::alloc::Global;
use x509_parser::objects::registered_name;
use x509_parser::prelude::*;
use x509_parser::public_key::{KeyAlgorithm, NamedCurve};

/// Adds a line for each finding, with `allow` or `deny` in front: the key, each attribute but the extension request, each extension that
/// is asked for, and each name in it, which has to be a host of the domain.
///
/// # Errors
///
/// The refusal of the request, and `OutOfMemory`.
pub fn check_request(
    alloc: Global,
    bytes: &[u8],
    domain: &str,
    lines: &mut String,
) -> Result<(), X509Error> {
    let (_, request) = parse_x509_csr(alloc, bytes)?;
    push_findings(&request, domain, lines)
}

/// Adds the lines of the findings.
fn push_findings(
    request: &X509CertificationRequest<'_>,
    domain: &str,
    lines: &mut String,
) -> Result<(), X509Error> {
    let info = &request.certification_request_info;
    push_key(&info.subject_pki, lines)?;
    for attribute in info.iter_attributes() {
        push_attribute(attribute, lines)?;
    }
    let Some(extensions) = request.requested_extensions() else {
        return Ok(writeln!(lines, "deny\tno extension request")?);
    };
    for asked in extensions {
        push_extension(asked, domain, lines)?;
    }
    Ok(())
}

/// What stands in front of a finding.
fn verdict(is_allowed: bool) -> &'static str {
    if is_allowed { "allow" } else { "deny" }
}

/// Adds what is said of the key: RSA of 2,048 bits or more, P-256, P-384 and Ed25519 are allowed.
fn push_key(key: &SubjectPublicKeyInfo<'_>, lines: &mut String) -> Result<(), X509Error> {
    let algorithm = key.key_algorithm();
    let bits = key.key_size().unwrap_or(0);
    let curve = key.named_curve();
    let verdict = verdict(match algorithm {
        KeyAlgorithm::Rsa => bits >= 2048,
        KeyAlgorithm::Ec => matches!(curve, Some(NamedCurve::Secp256r1 | NamedCurve::Secp384r1)),
        KeyAlgorithm::Ed25519 => true,
        _ => false,
    });
    let kind = algorithm.word();
    writeln!(lines, "{verdict}\tkey\t{kind} {bits}")?;
    Ok(())
}

/// Adds what is said of an attribute: none but the extension request is allowed.
fn push_attribute(attribute: &X509CriAttribute<'_>, lines: &mut String) -> Result<(), X509Error> {
    if let ParsedCriAttribute::ExtensionRequest(_) = attribute.parsed_attribute() {
        return Ok(());
    }
    let name = registered_name(attribute.oid.as_bytes()).unwrap_or("unknown");
    writeln!(lines, "deny\tattribute\t{name}")?;
    Ok(())
}

/// Adds what is said of an extension that is asked for, and of the names in it.
fn push_extension(
    asked: &ParsedExtension<'_>,
    domain: &str,
    lines: &mut String,
) -> Result<(), X509Error> {
    let verdict = verdict(match asked {
        ParsedExtension::BasicConstraints(constraints) => !constraints.ca,
        ParsedExtension::KeyUsage(_)
        | ParsedExtension::ExtendedKeyUsage(_)
        | ParsedExtension::SubjectAlternativeName(_) => true,
        _ => false,
    });
    let kind = asked.kind();
    writeln!(lines, "{verdict}\textension\t{kind}")?;
    if let ParsedExtension::SubjectAlternativeName(names) = asked {
        for name in names.general_names.iter() {
            push_name(name, domain, lines)?;
        }
    }
    Ok(())
}

/// Adds what is said of a name.
fn push_name(name: &GeneralName<'_>, domain: &str, lines: &mut String) -> Result<(), X509Error> {
    let (is_allowed, text) = match name {
        GeneralName::DNSName(host) => (is_below(host, domain), *host),
        GeneralName::RFC822Name(text) | GeneralName::URI(text) => (false, *text),
        _ => (false, "of another kind"),
    };
    let (verdict, text) = (verdict(is_allowed), Shown(text));
    writeln!(lines, "{verdict}\tname\t{text}")?;
    Ok(())
}

/// Whether the host is the domain or lies below it, with no letters but those of host names, so no wildcard either.
fn is_below(host: &str, domain: &str) -> bool {
    let is_plain = host
        .bytes()
        .all(|b| b.is_ascii_alphanumeric() || b == b'-' || b == b'.');
    is_plain
        && host
            .strip_suffix(domain)
            .is_some_and(|front| front.is_empty() || front.ends_with('.'))
}
