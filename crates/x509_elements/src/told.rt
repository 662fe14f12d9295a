//! What a field is that an identifier before it tells.

ghost use Rattle.std.specs.Prelude.{◌≡◌};
ghost use Rattle.x509_elements.specs.Told.{told_by, value_of, value_part};

use crate::part::Part;
use crate::seen::front_contents;
use crate::value::ExtensionValue;

/// rsaEncryption, 1.2.840.113549.1.1.1 (RFC 3279, section 2.3.1).
const RSA_ENCRYPTION: &[u8] = &[0x2a, 0x86, 0x48, 0x86, 0xf7, 0x0d, 0x01, 0x01, 0x01];

/// extensionRequest, 1.2.840.113549.1.9.14 (RFC 2985, section 5.4.2).
const EXTENSION_REQUEST: &[u8] = &[0x2a, 0x86, 0x48, 0x86, 0xf7, 0x0d, 0x01, 0x09, 0x0e];

/// challengePassword, 1.2.840.113549.1.9.7 (RFC 2985, section 5.4.1).
const CHALLENGE_PASSWORD: &[u8] = &[0x2a, 0x86, 0x48, 0x86, 0xf7, 0x0d, 0x01, 0x09, 0x07];

/// id-qt-unotice, 1.3.6.1.5.5.7.2.2 (RFC 5280, section 4.2.1.4).
const USER_NOTICE: &[u8] = &[0x2b, 0x06, 0x01, 0x05, 0x05, 0x07, 0x02, 0x02];

/// What the value of an extension with this identifier is.
fn value_part(identifier: &[u8]) -> Part
    ensures { result ≡ value_part (value_of identifier.now) }
{
    match ExtensionValue::of(identifier) {
        Some(value) => Part::Value(value),
        None => Part::Whole,
    }
}

/// What the field is whose kind the contents of this part tell; where they tell nothing, what was told before.
pub(crate) fn told_by(part: Part, contents: &[u8], before: Part) -> Part
    ensures { result ≡ told_by part contents.now before }
{
    match part {
        Part::ExtensionId => value_part(contents),
        Part::KeyAlgorithm => if front_contents(contents) == RSA_ENCRYPTION {
            Part::RsaKeyBits
        } else {
            Part::Whole
        },
        Part::AttributeType => if contents == EXTENSION_REQUEST {
            Part::RequestedExtensions
        } else if contents == CHALLENGE_PASSWORD {
            Part::Passwords
        } else {
            Part::Values
        },
        Part::QualifierId => if contents == USER_NOTICE {
            Part::UserNotice
        } else {
            Part::Whole
        },
        _ => before,
    }
}
