//! The text of a challenge password.

ghost use Rattle.std.specs.Prelude.{◌≡◌, string_bytes, true, IfOk, MatchResult};
ghost use Rattle.x509_der.specs.Looks.{behind, is_element};
ghost use Rattle.x509_der.specs.Place.{at, outside_of};
ghost use Rattle.x509_fields.specs.declared.error.X509Error.TheVariants.{OutOfMemory};
ghost use Rattle.x509_fields.specs.Errors.{is_x509_memory};
ghost use Rattle.x509_names.specs.NameTexts.{IsText};
ghost use Rattle.x509_requests.specs.PasswordTexts.{utf32_text, password_text, password};
ghost use Rattle.x509_der.specs.Promises.{AnswersAt};

use std::alloc::Global;
use x509_der::{Class, Err, Outside, Place, Refused, Tag, named};
use x509_fields::X509Error;
use x509_names::{utf8_text, utf16_text};

/// A password by which a certificate can be revoked (RFC 2985, section 5.4.1).
#[derive(Debug, Drop, PartialEq, Eq)]
pub struct ChallengePassword(pub String);

impl ChallengePassword {
    /// The same text in memory of its own.
    ///
    /// # Errors
    ///
    /// `OutOfMemory`.
    pub fn try_clone(&self) -> Result<Self, X509Error>
        ensures copies { MatchResult result (λ copy. string_bytes copy.0 ≡ string_bytes self.now.0) (λ e. e ≡ OutOfMemory) }
    {
        let text = self.0.clone()?;
        Ok(ChallengePassword(text))
    }
}

/// The password at a place, in any of five types of strings.
#[tactic(auto, unfolding(crate::specs::PasswordTexts::password, crate::specs::PasswordTexts::password_element, x509_der::specs::Leaves::any))]
pub(crate) fn read_password<'a, L: Outside>(
    alloc: Global,
    place: &Place<'a, L>,
) -> Result<ChallengePassword, Refused<X509Error, L>>
    ensures reads { AnswersAt is_x509_memory true (λ x. (behind (at place.now), string_bytes x.0)) password L.adds (at place.now) (outside_of place.now)
        result }
    ensures marks { password.marks (at place.now) ≡ true }
    ensures there { IfOk result (λ _. is_element (at place.now) ≡ true) }
{
    let any = named!(place.any(), X509Error::InvalidAttributes);
    let header = any.header();
    if header.constructed || !matches!(header.class, Class::Universal) {
        return Err(place.refuse(Err::Error(X509Error::InvalidAttributes)));
    }
    match password_text(alloc, header.tag, any.as_bytes()) {
        Ok(text) => Ok(ChallengePassword(text)),
        Err(X509Error::OutOfMemory) => { Err(place.refuse(Err::Failure(X509Error::OutOfMemory))) }
        Err(_) => Err(place.refuse(Err::Error(X509Error::InvalidAttributes))),
    }
}

// The text of a string with this number.
fn password_text(alloc: Global, tag: Tag, octets: &[u8]) -> Result<String, X509Error>
    ensures { IsText string_bytes (password_text tag.0 octets.now) result }
{
    match tag {
        Tag::Utf8String | Tag::PrintableString | Tag::T61String => utf8_text(alloc, octets),
        Tag::BmpString => utf16_text(alloc, octets),
        Tag::UniversalString => utf32_text(alloc, octets),
        _ => Err(X509Error::InvalidAttributes),
    }
}

// Characters of four octets, the most significant one first.
fn utf32_text(alloc: Global, octets: &[u8]) -> Result<String, X509Error>
    ensures { IsText string_bytes (utf32_text octets.now) result }
{
    let mut text = String::new(alloc);
    let mut rest = octets;
    'characters: while let [first, second, third, fourth, after @ ..] = rest {
        let high = u32::from(*first) * 256 + u32::from(*second);
        let number = (high * 256 + u32::from(*third)) * 256 + u32::from(*fourth);
        let Some(character) = char::from_u32(number) else {
            return Err(X509Error::InvalidAttributes);
        };
        text.push(character)?;
        rest = after;
    }
    if !rest.is_empty() {
        return Err(X509Error::InvalidAttributes);
    }
    Ok(text)
}
