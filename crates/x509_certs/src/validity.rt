//! When a certificate is valid.

ghost use Rattle.std.specs.Prelude.{◌≡◌, IsTrue, ◌↔◌, ℤ, false, option_map};
ghost use Rattle.jiff_duration.specs.SignedDuration.{signed_nanos};
ghost use Rattle.x509_der.specs.Grammar.{borrows, in_sequence};
ghost use Rattle.x509_fields.specs.Times.{instant_of};
ghost use Rattle.x509_certs.specs.Expiration.{IsValidAt, IsLeftAt, IsValidAtSecond, IsTimeLeft, days_left};
ghost use Rattle.x509_certs.specs.Validity.{Period, period_of, period_heads, validity, validity_laws};

use jiff_duration::SignedDuration;
use std::alloc::Global;
use x509_der::{Fields, FromDer, Outside, Place, Refused, Tries, ok};
use x509_fields::{ASN1Time, Clock, X509Error, sequence_at};

const SECONDS_PER_DAY: i64 = 86_400;

/// The first and the last moment at which a certificate is valid (RFC 5280, section 4.1.2.5).
///
/// ```text
/// Validity  ::=  SEQUENCE  {
///     notBefore  Time,
///     notAfter   Time  }
/// ```
#[derive(Clone, Copy, Debug, PartialEq, Eq)]
pub struct Validity {
    /// The first moment.
    pub not_before: ASN1Time,
    /// The last moment.
    pub not_after: ASN1Time,
}

impl Validity {
    /// Whether the time lies between both moments or is one of them. Instants decide: the forms of the times, UTCTime or
    /// GeneralizedTime, do not.
    pub fn is_valid_at(&self, time: ASN1Time) -> bool
        ensures { IsTrue result ↔ IsValidAt self.now (instant_of time) }
    {
        let instant = time.instant_nanos();
        self.not_before.instant_nanos() <= instant && instant <= self.not_after.instant_nanos()
    }

    /// Whether the time that the clock says, which is read once, lies between both moments or is one of them; false where it says
    /// a second outside the years -9999 to 9999.
    pub fn is_valid<C: Clock>(&self, clock: &mut C) -> bool
        ensures { (seconds : ℤ) × C.says clock.old seconds clock.new × (IsTrue result ↔ IsValidAtSecond self.now seconds) }
    {
        match ASN1Time::now(clock) {
            Ok(now) => self.is_valid_at(now),
            Err(_) => false,
        }
    }

    /// How long the certificate will be valid from the time on that the clock says, which is read once. None where it isn't valid
    /// then, and at its last valid moment.
    pub fn time_to_expiration<C: Clock>(&self, clock: &mut C) -> Option<SignedDuration>
        ensures { (seconds : ℤ) × C.says clock.old seconds clock.new × IsTimeLeft self.now seconds (option_map signed_nanos result) }
    {
        match ASN1Time::now(clock) {
            Ok(now) => self.time_left(&now),
            Err(_) => None,
        }
    }

    /// How many whole days of 86,400 seconds there are from that time to the last moment, rounded down: 0 within the last day, and below
    /// zero behind the last moment. Both times count by their whole seconds.
    pub fn days_left(&self, time: ASN1Time) -> i64
        ensures { result ≡ days_left self.now time }
    {
        (self.not_after.timestamp() - time.timestamp()).div_euclid(SECONDS_PER_DAY)
    }

    /// How long the certificate will be valid from that time on; None where it isn't valid then, and at its last valid moment.
    fn time_left(&self, now: &ASN1Time) -> Option<SignedDuration>
        ensures { IsLeftAt self.now (instant_of now.now) (option_map signed_nanos result) }
    {
        if !self.is_valid_at(*now) {
            return None;
        }
        let last = self.not_after;
        let now = *now;
        last - now
    }
}

/// The validity at a place, and whether it stands plainly; a refusal ends the function. For the reader of signed parts, in which it stands in place.
macro_rules! validity_at {
    ($alloc:ident, $tries:ident, $place:expr) => {{
        let contents = sequence_at($place)?;
        let fields = Fields::of($tries, &contents);
        let (fields, not_before) = ok!(fields.field($alloc, $tries));
        let (not_after, plain) = ok!(fields.last($alloc, $tries));
        let validity = Validity {
            not_before,
            not_after,
        };
        (validity, plain)
    }};
}

pub(crate) use validity_at;

/// A time that can't be read is `InvalidDate`; the SEQUENCE has its own refusals.
impl<'a> FromDer<'a, X509Error> for Validity {
    ghost Value = { Period };

    ghost view = { period_of };

    ghost grammar = { in_sequence validity validity_laws period_heads borrows };

    #[inline(always)]
    #[tactic(auto, unfolding(crate::specs::Validity::validity), using(x509_der::proofs::Marking::marks_of_readers))]
    fn read_at<L: Outside>(
        alloc: Global,
        tries: &mut Tries,
        place: &Place<'a, L>,
    ) -> Result<(Self, bool), Refused<X509Error, L>> {
        Ok(validity_at!(alloc, tries, place))
    }

    ghost never_memory = { validity_laws.laws.never_memory };
}
