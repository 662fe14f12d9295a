//! Times from their octets (X.680, sections 47 and 46; RFC 5280, section 4.1.2.5).

ghost use Rattle.std.specs.Prelude.{◌≡◌, ◌<◌, Some, IfSome, option_map, pos};
ghost use Rattle.x509_times.specs.Moments.{Moment, IsOffset};
ghost use Rattle.x509_times.specs.Octets.{pair, optional_pair, zone, if_real, utc_moment, generalized_moment};
ghost use Rattle.x509_times.specs.Spelling.{SpellsUtc, SpellsGeneralized};
ghost use Rattle.x509_times.specs.OffsetDateTimes.{moment_of};

use crate::offset_date_time::OffsetDateTime;
use jiff_core::civil::{Date, DateTime, Time};

// A number of two decimal digits, and the octets behind it.
#[inline(always)]
#[tactic(auto, unfolding(crate::specs::Octets::pair))]
fn read_pair(bytes: &[u8]) -> Option<(u8, &[u8])>
    ensures value { option_map (λ x. (x.0, x.1.now)) result ≡ pair bytes.now }
    ensures small { IfSome result (λ x. x.0 < 100) }
{
    if bytes.len() < 2 {
        return None;
    }
    let (tens, ones) = (bytes[0], bytes[1]);
    if tens.is_ascii_digit() && ones.is_ascii_digit() {
        return Some(((tens - b'0') * 10 + (ones - b'0'), &bytes[2..]));
    }
    None
}

// The same where a digit stands first, and else zero.
#[inline(always)]
#[tactic(auto, unfolding(crate::specs::Octets::optional_pair))]
fn read_optional_pair(bytes: &[u8]) -> Option<(u8, &[u8])>
    ensures value { option_map (λ x. (x.0, x.1.now)) result ≡ optional_pair bytes.now }
    ensures small { IfSome result (λ x. x.0 < 100) }
{
    if bytes.is_empty() || !bytes[0].is_ascii_digit() {
        return Some((0, bytes));
    }
    read_pair(bytes)
}

// An offset in minutes, to the end of the octets.
#[inline(always)]
#[tactic(auto, unfolding(crate::specs::Octets::zone))]
fn read_zone(bytes: &[u8]) -> Option<i16>
    ensures value { result ≡ zone bytes.now }
    ensures in_day { IfSome result IsOffset }
{
    let (sign, digits) = match bytes {
        [b'Z'] => return Some(0),
        [sign, digits @ ..] => (sign, digits),
        [] => return None,
    };
    let (hours, rest) = read_pair(digits)?;
    let (minutes, rest) = read_pair(rest)?;
    if !rest.is_empty() || hours >= 24 || minutes >= 60 {
        return None;
    }
    let offset = i16::from(hours) * 60 + i16::from(minutes);
    match *sign {
        b'+' => Some(offset),
        b'-' => Some(-offset),
        _ => None,
    }
}

// The date and time, where the calendar and a clock have them.
#[inline(always)]
fn real_moment(
    year: u16,
    month: u8,
    day: u8,
    hour: u8,
    minute: u8,
    second: u8,
    offset: i16,
) -> Option<OffsetDateTime>
    requires year { year < 10000 }
    requires month { month < 100 }
    requires day { day < 100 }
    requires hour { hour < 100 }
    requires minute { minute < 100 }
    requires second { second < 100 }
    requires in_day { IsOffset offset }
    ensures { option_map moment_of result
        ≡ if_real (record { year = pos year; month = month; day = day; hour = hour; minute = minute; second = second; nanosecond = 0; offset = offset }) }
{
    let date = match Date::new(year as i16, month as i8, day as i8) {
        Ok(date) => date,
        Err(_) => return None,
    };
    match Time::new(hour as i8, minute as i8, second as i8, 0) {
        Ok(time) => Some(OffsetDateTime::at(DateTime { date, time }, offset)),
        Err(_) => None,
    }
}

/// The time that the contents of a UTCTime say: `YYMMDDhhmm`, seconds or none, and `Z` or an offset `+hhmm` or `-hhmm`.
/// Years from 50 on are of the twentieth century. None where the octets are no such time, or there is no such date or
/// time of day.
#[inline(always)]
#[tactic(auto, unfolding(crate::specs::Octets::utc_moment))]
pub fn utc_time(bytes: &[u8]) -> Option<OffsetDateTime>
    ensures value { option_map moment_of result ≡ utc_moment bytes.now }
    ensures spells { IfSome result (λ t. SpellsUtc bytes.now (moment_of t)) }
    ensures reads { (m : Moment) → SpellsUtc bytes.now m → option_map moment_of result ≡ Some m }
{
    let (year, rest) = read_pair(bytes)?;
    let (month, rest) = read_pair(rest)?;
    let (day, rest) = read_pair(rest)?;
    let (hour, rest) = read_pair(rest)?;
    let (minute, rest) = read_pair(rest)?;
    let (second, rest) = read_optional_pair(rest)?;
    let offset = read_zone(rest)?;
    let year = if year < 50 {
        2000 + u16::from(year)
    } else {
        1900 + u16::from(year)
    };
    real_moment(year, month, day, hour, minute, second, offset)
}

/// The time that the contents of a GeneralizedTime say: `YYYYMMDDhhmmss`, and `Z` or an offset `+hhmm` or `-hhmm`.
/// None where the octets are no such time, or there is no such date or time of day.
#[tactic(auto, unfolding(crate::specs::Octets::generalized_moment))]
pub fn generalized_time(bytes: &[u8]) -> Option<OffsetDateTime>
    ensures value { option_map moment_of result ≡ generalized_moment bytes.now }
    ensures spells { IfSome result (λ t. SpellsGeneralized bytes.now (moment_of t)) }
    ensures reads { (m : Moment) → SpellsGeneralized bytes.now m → option_map moment_of result ≡ Some m }
{
    let (century, rest) = read_pair(bytes)?;
    let (year, rest) = read_pair(rest)?;
    let (month, rest) = read_pair(rest)?;
    let (day, rest) = read_pair(rest)?;
    let (hour, rest) = read_pair(rest)?;
    let (minute, rest) = read_pair(rest)?;
    let (second, rest) = read_pair(rest)?;
    let offset = read_zone(rest)?;
    let year = u16::from(century) * 100 + u16::from(year);
    real_moment(year, month, day, hour, minute, second, offset)
}
