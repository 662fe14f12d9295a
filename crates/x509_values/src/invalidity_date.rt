//! Since when a certificate is held to be invalid.

ghost use Rattle.std.specs.Prelude.{◌≡◌, option_map};
ghost use Rattle.x509_der.specs.Grammar.{in_primitive};
ghost use Rattle.x509_fields.specs.Times.{Time, time_of};
ghost use Rattle.x509_values.specs.InvalidityDate.{invalidity_date_of, date_in, invalidity_date, invalidity_date_laws};

use std::alloc::Global;
use x509_der::{BerError, Class, Err, FromDer, Outside, Place, Refused, Tries, converted};
use x509_fields::{ASN1Time, X509Error, generalized_time};

/// Since when the private key is held to be known to others, or the certificate to be invalid (RFC 5280, section 5.3.2).
///
/// ```text
/// InvalidityDate ::= GeneralizedTime
/// ```
///
/// The time has the form that its civil year asks for, as `ASN1Time::new` gives it: it is a UTCTime through 2049, and a
/// GeneralizedTime from 2050 on. Another type is refused as `InvalidTag`, and contents that are no time, or a date or time
/// of day that there is not, as `BerValueError`.
#[derive(Clone, Copy, Debug, PartialEq, Eq)]
pub struct InvalidityDate(pub ASN1Time);

impl<'a> FromDer<'a, X509Error> for InvalidityDate {
    ghost Value = { Time };

    ghost view = { invalidity_date_of };

    ghost grammar = { in_primitive 24 invalidity_date invalidity_date_laws };

    #[tactic(auto, unfolding(crate::specs::InvalidityDate::invalidity_date, crate::specs::InvalidityDate::generalized_date, x509_der::specs::Leaves::any, x509_der::specs::Primitives::contents_at), using(x509_der::proofs::Marking::marks_of_readers))]
    fn read_at<L: Outside>(
        _alloc: Global,
        _tries: &mut Tries,
        place: &Place<'a, L>,
    ) -> Result<(Self, bool), Refused<X509Error, L>> {
        let any = converted!(place.any());
        let header = any.header();
        if header.constructed || !matches!(header.class, Class::Universal) || header.tag.0 != 24 {
            return Err(place.refuse(Err::Error(X509Error::Der(BerError::InvalidTag))));
        }
        match dated(any.as_bytes()) {
            Some(date) => Ok((InvalidityDate(date), true)),
            None => Err(place.refuse(Err::Error(X509Error::Der(BerError::BerValueError)))),
        }
    }

    ghost never_memory = { invalidity_date_laws.laws.never_memory };
}

/// The time that the contents of a GeneralizedTime say, in the form of its year.
#[tactic(auto, using(crate::proofs::FormOfYear::form_of_year))]
fn dated(contents: &[u8]) -> Option<ASN1Time>
    ensures { option_map time_of result ≡ date_in contents.now }
{
    let time = generalized_time(contents)?;
    Some(ASN1Time::new(time))
}
