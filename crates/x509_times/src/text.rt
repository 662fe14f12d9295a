//! A time as text.

ghost use Rattle.std.specs.Prelude.{◌≡◌, ◌<◌, Some};
ghost use Rattle.x509_times.specs.Moments.{IsOffset};
ghost use Rattle.x509_times.specs.Spelling.{two_digits};
ghost use Rattle.x509_times.specs.TimeText.{in_two_places, month_name, year_text, clock_text, offset_text, time_text};
ghost use Rattle.x509_times.specs.OffsetDateTimes.{moment_of};

use crate::offset_date_time::OffsetDateTime;
use std::fmt;

mod rfc2822;
mod rfc3339;

pub use rfc2822::Rfc2822;
pub use rfc3339::Rfc3339;

// A number below 100 in two digits.
#[derive(Clone, Copy)]
struct TwoDigits {
    number: u8,
    ghost small: { number < 100 },
}

impl fmt::Display for TwoDigits {
    ghost output = { λ n. Some (two_digits n.number) };

    fn fmt<W: fmt::Write>(&self, f: &mut fmt::Formatter<W>) -> fmt::Result {
        f.write_char(char::from(b'0' + self.number / 10))?;
        f.write_char(char::from(b'0' + self.number % 10))
    }
}

// A number below 100, right in two places.
#[derive(Clone, Copy)]
struct InTwoPlaces {
    number: u8,
    ghost small: { number < 100 },
}

impl fmt::Display for InTwoPlaces {
    ghost output = { λ n. Some (in_two_places n.number) };

    #[tactic(auto, unfolding(crate::specs::TimeText::in_two_places))]
    fn fmt<W: fmt::Write>(&self, f: &mut fmt::Formatter<W>) -> fmt::Result {
        if self.number < 10 {
            f.write_str(" ")?;
            f.write_char(char::from(b'0' + self.number))
        } else {
            let two = TwoDigits {
                number: self.number,
            };
            write!(f, "{two}")
        }
    }
}

#[tactic(auto, unfolding(crate::specs::TimeText::month_name))]
fn name_of_month(month: u8) -> &'static str
    ensures { result.now ≡ month_name month }
{
    match month {
        1 => "Jan",
        2 => "Feb",
        3 => "Mar",
        4 => "Apr",
        5 => "May",
        6 => "Jun",
        7 => "Jul",
        8 => "Aug",
        9 => "Sep",
        10 => "Oct",
        11 => "Nov",
        _ => "Dec",
    }
}

// A year below 10000 in four digits.
#[derive(Clone, Copy)]
struct Year {
    number: u16,
    ghost small: { number < 10000 },
}

impl fmt::Display for Year {
    ghost output = { λ y. Some (year_text y.number) };

    #[tactic(auto, unfolding(crate::specs::TimeText::year_text))]
    fn fmt<W: fmt::Write>(&self, f: &mut fmt::Formatter<W>) -> fmt::Result {
        let high = TwoDigits {
            number: (self.number / 100) as u8,
        };
        let low = TwoDigits {
            number: (self.number % 100) as u8,
        };
        write!(f, "{high}{low}")
    }
}

// As `hh:mm:ss`.
#[derive(Clone, Copy)]
struct TimeOfDay {
    hour: u8,
    minute: u8,
    second: u8,
    ghost hours: { hour < 100 },
    ghost minutes: { minute < 100 },
    ghost seconds: { second < 100 },
}

impl fmt::Display for TimeOfDay {
    ghost output = { λ t. Some (clock_text t.hour t.minute t.second) };

    #[tactic(auto, unfolding(crate::specs::TimeText::clock_text))]
    fn fmt<W: fmt::Write>(&self, f: &mut fmt::Formatter<W>) -> fmt::Result {
        let hour = TwoDigits { number: self.hour };
        let minute = TwoDigits {
            number: self.minute,
        };
        let second = TwoDigits {
            number: self.second,
        };
        write!(f, "{hour}:{minute}:{second}")
    }
}

// A sign and `hh:mm`.
#[derive(Clone, Copy)]
struct Offset {
    minutes: i16,
    ghost in_day: { IsOffset minutes },
}

impl fmt::Display for Offset {
    ghost output = { λ t. Some (offset_text t.minutes) };

    #[tactic(auto, unfolding(crate::specs::TimeText::offset_text))]
    fn fmt<W: fmt::Write>(&self, f: &mut fmt::Formatter<W>) -> fmt::Result {
        let total = self.minutes.unsigned_abs();
        let hours = TwoDigits {
            number: (total / 60) as u8,
        };
        let minutes = TwoDigits {
            number: (total % 60) as u8,
        };
        f.write_str(if self.minutes < 0 { "-" } else { "+" })?;
        write!(f, "{hours}:{minutes}")
    }
}

/// As `Jan  1 00:00:00 1970 +00:00`: the civil time, with a fraction of a second left out, and the offset.
impl fmt::Display for OffsetDateTime {
    ghost output = { λ t. Some (time_text (moment_of t)) };

    fn fmt<W: fmt::Write>(&self, f: &mut fmt::Formatter<W>) -> fmt::Result {
        let minutes = self.offset_minutes();
        let civil = self.civil();
        let month = name_of_month(civil.date.month);
        let day = InTwoPlaces {
            number: civil.date.day,
        };
        let clock = TimeOfDay {
            hour: civil.time.hour,
            minute: civil.time.minute,
            second: civil.time.second,
        };
        let year = civil.date.year;
        let offset = Offset { minutes };
        write!(f, "{month} {day} {clock} {year} {offset}")
    }
}
