//! Which value an attribute holds.

ghost use Rattle.std.specs.Prelude.{◌≡◌};
ghost use Rattle.x509_requests.specs.CriAttribute.{kind_of};

use x509_names::{OID_PKCS9_CHALLENGE_PASSWORD, OID_PKCS9_EXTENSION_REQUEST};

/// The values that are read, by the attribute's identifier.
#[derive(Clone, Copy, Debug)]
pub(crate) enum AttributeKind {
    ChallengePassword,
    ExtensionRequest,
}

impl AttributeKind {
    /// The value that an attribute with this identifier holds; none where it isn't known.
    #[tactic(auto, unfolding(crate::specs::CriAttribute::kind_of))]
    pub(crate) fn of(octets: &[u8]) -> Option<AttributeKind>
        ensures { result ≡ kind_of octets.now }
    {
        if octets == OID_PKCS9_CHALLENGE_PASSWORD {
            Some(AttributeKind::ChallengePassword)
        } else if octets == OID_PKCS9_EXTENSION_REQUEST {
            Some(AttributeKind::ExtensionRequest)
        } else {
            None
        }
    }
}
