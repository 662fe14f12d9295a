//! Times and validities: texts, sums, differences, clocks.

use crate::calls::orders::put_order;
use crate::calls::registries::put_text;
use jiff_duration::SignedDuration;
use x509_certs::Validity;
use x509_der::FromDer;
use x509_fields::{ASN1Time, Clock};
use x509_probe_answers::{Answer, Show, put_result, read_both};

// Two times, compared.
fn put_times(a: &[u8], b: &[u8], out: &mut Answer) {
    if let Some((a, b)) = read_both::<ASN1Time, ASN1Time>(out, a, b) {
        put_order(out, a == b, a.cmp(&b));
    }
}

// The time of so many seconds.
fn put_timestamp(a: &[u8], out: &mut Answer) {
    match (a.len(), seconds_in(a)) {
        (8, Some(seconds)) => match ASN1Time::from_timestamp(seconds) {
            Ok(time) => time.show(out),
            Err(kind) => out.named_error(&kind),
        },
        _ => out.add("eight bytes"),
    }
}

// A time as messages write it.
fn put_mail(a: &[u8], out: &mut Answer) {
    match ASN1Time::from_der(out.alloc(), a) {
        Ok((_, time)) => put_text(out, time.to_rfc2822(out.alloc())),
        Err(refusal) => out.refused(&refusal),
    }
}

// The text of a time as the internet writes it, and its seconds.
fn put_rfc3339(a: &[u8], out: &mut Answer) {
    match ASN1Time::from_der(out.alloc(), a) {
        Ok((_, time)) => {
            match time.to_rfc3339(out.alloc()) {
                Ok(text) => out.add(text.as_str()),
                Err(kind) => out.error(&kind),
            }
            out.add(" ");
            out.display(&time.timestamp());
        }
        Err(refusal) => out.refused(&refusal),
    }
}

// The first eight octets as a number.
fn seconds_in(bytes: &[u8]) -> Option<i64> {
    match bytes {
        [b0, b1, b2, b3, b4, b5, b6, b7, ..] => Some(i64::from_be_bytes([
            *b0, *b1, *b2, *b3, *b4, *b5, *b6, *b7,
        ])),
        _ => None,
    }
}

// The four octets behind them as a number; 0 where they are missing.
fn nanos_in(bytes: &[u8]) -> i32 {
    match bytes {
        [_, _, _, _, _, _, _, _, b0, b1, b2, b3] => i32::from_be_bytes([*b0, *b1, *b2, *b3]),
        _ => 0,
    }
}

// So many seconds, and the nanoseconds below a second that stand behind them.
fn duration_of(seconds: i64, bytes: &[u8]) -> Option<SignedDuration> {
    let nanos = SignedDuration::from_nanos(i64::from(nanos_in(bytes)));
    SignedDuration::from_secs(seconds).checked_add(nanos)
}

// A time that may lie outside the years that are known.
fn put_later(out: &mut Answer, later: Option<ASN1Time>) {
    match later {
        Some(later) => {
            later.show(out);
            out.display(&later.instant_nanos());
        }
        None => out.add("none"),
    }
}

// The time and a number of seconds, and of nanoseconds below a second.
fn put_sum(a: &[u8], b: &[u8], out: &mut Answer) {
    match (ASN1Time::from_der(out.alloc(), a), seconds_in(b)) {
        (Ok((_, time)), Some(seconds)) => match duration_of(seconds, b) {
            Some(duration) => put_later(out, time + duration),
            None => out.add("no duration"),
        },
        (Err(refusal), _) => out.refused(&refusal),
        _ => out.add("refused"),
    }
}

// How many nanoseconds apart.
fn put_apart(out: &mut Answer, apart: Option<SignedDuration>) {
    match apart {
        Some(duration) => out.display(&duration.as_nanos()),
        None => out.add("none"),
    }
}

// From the second time to the first.
fn put_difference(a: &[u8], b: &[u8], out: &mut Answer) {
    if let Some((a, b)) = read_both::<ASN1Time, ASN1Time>(out, a, b) {
        put_apart(out, a - b);
    }
}

// A number of seconds, and of nanoseconds below a second.
fn duration_in(bytes: &[u8]) -> Option<SignedDuration> {
    duration_of(seconds_in(bytes)?, bytes)
}

// From the second time to the first and back, by times and by their dates.
fn put_both_ways(out: &mut Answer, later: &ASN1Time, time: &ASN1Time) {
    let (later, time) = (*later, *time);
    put_apart(out, later - time);
    out.add(" ");
    put_apart(out, time - later);
    let (later, time) = (later.to_datetime(), time.to_datetime());
    out.add(" ");
    put_apart(out, Some(later.duration_since(&time)));
    out.add(" ");
    put_apart(out, Some(time.duration_since(&later)));
}

// How far apart the time and the sum are.
fn put_sum_apart(a: &[u8], b: &[u8], out: &mut Answer) {
    match (ASN1Time::from_der(out.alloc(), a), duration_in(b)) {
        (Ok((_, time)), Some(duration)) => match time + duration {
            Some(later) => put_both_ways(out, &later, &time),
            None => out.add("none"),
        },
        (Err(refusal), _) => out.refused(&refusal),
        _ => out.add("refused"),
    }
}

/// Says one second more each time that it is read.
#[derive(Drop)]
struct Ticking {
    next: i64,
}

impl Clock for Ticking {
    fn seconds(&mut self) -> i64 {
        let now = self.next;
        self.next = now.wrapping_add(1);
        now
    }
}

// Two times of a clock, one behind the other.
fn put_now(a: &[u8], out: &mut Answer) {
    match seconds_in(a) {
        Some(next) => {
            let mut clock = Ticking { next };
            let first = ASN1Time::now(&mut clock);
            put_result(out, first);
            let second = ASN1Time::now(&mut clock);
            put_result(out, second);
        }
        None => out.add("eight bytes"),
    }
}

// What a validity says by a clock, and how often it asks.
fn put_clocked(a: &[u8], b: &[u8], out: &mut Answer) {
    match (Validity::from_der(out.alloc(), a), seconds_in(b)) {
        (Ok((_, validity)), Some(next)) => {
            let mut clock = Ticking { next };
            let valid = validity.is_valid(&mut clock);
            valid.show(out);
            out.add(" ");
            let mut clock = Ticking { next };
            put_apart(out, validity.time_to_expiration(&mut clock));
            let used = clock.next.wrapping_sub(next);
            out.add(" ");
            out.display(&used);
        }
        (Err(refusal), _) => out.refused(&refusal),
        _ => out.add("refused"),
    }
}

// Whether a validity has a moment.
fn put_valid(a: &[u8], b: &[u8], out: &mut Answer) {
    if let Some((validity, time)) = read_both::<Validity, ASN1Time>(out, a, b) {
        let valid = validity.is_valid_at(time);
        out.add(if valid { "valid" } else { "not valid" });
    }
}

// How many days of a validity are left at a time.
fn put_days_left(a: &[u8], b: &[u8], out: &mut Answer) {
    if let Some((validity, time)) = read_both::<Validity, ASN1Time>(out, a, b) {
        out.display(&validity.days_left(time));
    }
}

// The same at the time of so many seconds.
fn put_days_left_at(a: &[u8], b: &[u8], out: &mut Answer) {
    match (Validity::from_der(out.alloc(), a), seconds_in(b)) {
        (Ok((_, validity)), Some(seconds)) => match ASN1Time::from_timestamp(seconds) {
            Ok(time) => out.display(&validity.days_left(time)),
            Err(kind) => out.named_error(&kind),
        },
        (Err(refusal), _) => out.refused(&refusal),
        _ => out.add("refused"),
    }
}

/// Adds the answer of a call; false where the word names none.
pub fn answer(word: &str, a: &[u8], b: &[u8], out: &mut Answer) -> bool {
    match word {
        "time_order" => put_times(a, b, out),
        "from_timestamp" => put_timestamp(a, out),
        "rfc2822" => put_mail(a, out),
        "rfc3339" => put_rfc3339(a, out),
        "time_add" => put_sum(a, b, out),
        "time_sub" => put_difference(a, b, out),
        "time_apart" => put_sum_apart(a, b, out),
        "now" => put_now(a, out),
        "clocked" => put_clocked(a, b, out),
        "valid_at" => put_valid(a, b, out),
        "days_left" => put_days_left(a, b, out),
        "days_left_at" => put_days_left_at(a, b, out),
        _ => return false,
    }
    true
}
