//! Values that calls make of what was read: times in other forms and at other offsets, names by their members.

use std::alloc::{AllocError, Global};
use x509_der::{FromDer, Oid};
use x509_fields::{ASN1Time, OffsetDateTime, X509Error};
use x509_names::{RelativeDistinguishedName, X509Name};
use x509_probe_answers::{Answer, Show, Tells, both, look_in, put_result};

// A time made again in four ways.
fn put_four(time: &ASN1Time, out: &mut Answer) {
    let by_year = ASN1Time::new(time.to_datetime());
    by_year.show(out);
    let converted = ASN1Time::from(time.to_datetime());
    converted.show(out);
    let short = ASN1Time::new_utc(time.to_datetime());
    short.show(out);
    let long = ASN1Time::new_generalized(time.to_datetime());
    long.show(out);
}

// The ways to make a time of a date.
fn put_forms(a: &[u8], out: &mut Answer) {
    match ASN1Time::from_der(out.alloc(), a) {
        Ok((_, time)) => put_four(&time, out),
        Err(refusal) => out.refused(&refusal),
    }
}

// The date and time of a time at another offset.
fn put_offset(a: &[u8], b: &[u8], out: &mut Answer) {
    match (ASN1Time::from_der(out.alloc(), a), b) {
        (Ok((_, time)), [high, low]) => {
            let minutes = i16::from_be_bytes([*high, *low]);
            match OffsetDateTime::new(time.to_datetime().civil(), minutes) {
                Some(moment) => ASN1Time::new(moment).show(out),
                None => out.add("none"),
            }
        }
        (Err(refusal), _) => out.refused(&refusal),
        _ => out.add("refused"),
    }
}

/// The attributes of one type.
#[derive(Clone, Copy)]
struct OfType<'o>(Oid<'o>);

impl Tells<OfType<'_>> for X509Name<'_> {
    fn tell(&self, asked: &OfType<'_>, out: &mut Answer) {
        out.add("by");
        for attribute in self.iter_by_oid(&asked.0) {
            out.add(",");
            attribute.show(out);
        }
    }
}

// The members of a list, one more, and those of another.
fn chained<T: Drop>(first: Vec<T>, member: T, second: Vec<T>) -> Result<Vec<T>, AllocError> {
    let (mut list, mut others) = (first, second);
    if list.push(member).is_err() {
        return Err(AllocError);
    }
    list.append(&mut others)?;
    Ok(list)
}

// The relative names of the first, an empty one, and those of the second.
fn joined<'a>(
    alloc: Global,
    first: X509Name<'a>,
    second: X509Name<'a>,
) -> Result<X509Name<'a>, X509Error> {
    let empty = RelativeDistinguishedName::from_list(Vec::new(alloc));
    match chained(first.into_list(), empty, second.into_list()) {
        Ok(list) => Ok(X509Name::from_list(list)),
        Err(AllocError) => Err(X509Error::OutOfMemory),
    }
}

// The name of the relative names of two.
fn put_joined(a: &[u8], b: &[u8], out: &mut Answer) {
    let alloc = out.alloc();
    let (a, b) = (X509Name::from_der(alloc, a), X509Name::from_der(alloc, b));
    if let Some((first, second)) = both(out, a, b) {
        put_result(out, joined(alloc, first, second));
    }
}

/// Adds the answer of such a call; false where the word names none.
pub fn answer(word: &str, a: &[u8], b: &[u8], out: &mut Answer) -> bool {
    match word {
        "time_forms" => put_forms(a, out),
        "offset_new" => put_offset(a, b, out),
        "name_by_oid" => look_in::<X509Name, _>(out, &OfType(Oid::new(b)), a),
        "name_from_list" => put_joined(a, b, out),
        _ => return false,
    }
    true
}
