//! Judging a certification request before it is certified.

ghost use Rattle.std.specs.Prelude.{◌≡◌, ◌↔◌, IsTrue};
ghost use Rattle.x509_uses.specs.Requests.{IsModest, is_usual};

use x509_parser::certification_request::X509CertificationRequest;
use x509_parser::cri_attributes::ParsedCriAttribute;
use x509_parser::extensions::ParsedExtension;

/// Whether an extension is a key usage, an extended one, or alternative names.
fn is_usual(asked: &ParsedExtension<'_>) -> bool
    ensures { result ≡ is_usual asked.now }
{
    matches!(
        asked,
        ParsedExtension::KeyUsage(_)
            | ParsedExtension::ExtendedKeyUsage(_)
            | ParsedExtension::SubjectAlternativeName(_)
    )
}

/// Whether a request asks for nothing but a key usage, an extended one and alternative names, and holds no password.
pub fn is_modest(request: &X509CertificationRequest<'_>) -> bool
    ensures { IsTrue result ↔ IsModest request.now.certification_request_info.attributes }
{
    let info = &request.certification_request_info;
    let asks_alone = info.iter_attributes().all(|a| matches!(
        a.parsed_attribute(),
        ParsedCriAttribute::ExtensionRequest(_)
    ));
    asks_alone
        && match request.requested_extensions() {
            Some(mut asked) => asked.all(is_usual),
            None => true,
        }
}
