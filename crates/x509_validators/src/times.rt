//! Times of validity.

ghost use Rattle.std.specs.Prelude.{◌≡◌};
ghost use Rattle.x509_fields.specs.Times.{time_of};
ghost use Rattle.x509_validators.specs.Rules.{row_of};
ghost use Rattle.x509_validators.specs.Times.{generalized_rule, is_past_utc, utc_rule, wants_generalized, wants_utc};

use crate::rule::{Rule, field_warning_where};
use x509_fields::ASN1Time;

/// UTCTime through the year 2049 (RFC 5280, section 4.1.2.5), of a field by its name.
pub(crate) fn utc_rule<'a>(field: &'a str, time: &ASN1Time) -> Rule<'a>
    ensures { row_of result ≡ utc_rule field.now (time_of time.now) }
{
    field_warning_where(
        wants_utc(time),
        "year <= 2049 should use UTCTime (",
        field,
        ")",
    )
}

/// GeneralizedTime from 2050 on.
pub(crate) fn generalized_rule<'a>(field: &'a str, time: &ASN1Time) -> Rule<'a>
    ensures { row_of result ≡ generalized_rule field.now (time_of time.now) }
{
    field_warning_where(
        wants_generalized(time),
        "year >= 2050 should use GeneralizedTime (",
        field,
        ")",
    )
}

// Whether it is a GeneralizedTime of a year that UTCTime has.
fn wants_utc(time: &ASN1Time) -> bool
    ensures { result ≡ wants_utc (time_of time.now) }
{
    !is_past_utc(time) && time.is_generalizedtime()
}

// Whether it is a UTCTime of a year that is left to GeneralizedTime.
fn wants_generalized(time: &ASN1Time) -> bool
    ensures { result ≡ wants_generalized (time_of time.now) }
{
    is_past_utc(time) && time.is_utctime()
}

fn is_past_utc(time: &ASN1Time) -> bool
    ensures { result ≡ is_past_utc (time_of time.now) }
{
    time.to_datetime().year() > 2049
}
