//! Which of two values comes first.

use std::cmp::Ordering;
use x509_der::{Oid, UnsignedBytes};
use x509_probe_answers::Answer;

// The word for an order.
fn order_word(order: Ordering) -> &'static str {
    match order {
        Ordering::Less => "less",
        Ordering::Equal => "equal",
        Ordering::Greater => "greater",
    }
}

/// Adds whether two values are the same, and which comes first.
pub fn put_order(out: &mut Answer, equal: bool, order: Ordering) {
    out.add(if equal { "same " } else { "other " });
    out.add(order_word(order));
}

// Two identifiers, compared.
fn put_identifiers(out: &mut Answer, a: &[u8], b: &[u8]) {
    let (a, b) = (Oid::new(a), Oid::new(b));
    put_order(out, a == b, a.cmp(&b));
    out.add(if a.starts_with(&b) {
        " begins"
    } else {
        " differs"
    });
}

// Two numbers, compared.
fn put_unsigned(out: &mut Answer, a: &[u8], b: &[u8]) {
    let (a, b) = (UnsignedBytes::new(a), UnsignedBytes::new(b));
    put_order(out, a == b, a.cmp(&b));
}

/// Adds how two values compare; false where the word names none.
pub fn answer(word: &str, a: &[u8], b: &[u8], out: &mut Answer) -> bool {
    match word {
        "unsigned_order" => put_unsigned(out, a, b),
        "oid_order" => put_identifiers(out, a, b),
        _ => return false,
    }
    true
}
