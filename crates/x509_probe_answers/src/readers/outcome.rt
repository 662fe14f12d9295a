//! What readers answer.

use crate::show::{Answer, Show};
use std::fmt;
use x509_der::{BerError, Err, Located, ReadError, Tries};
use x509_fields::X509Error;

// How many headers were looked at.
fn put_count(out: &mut Answer, tries: &Tries) {
    out.add(" tries=");
    out.display(&tries.count());
}

// A value: how many bytes stand behind it, how many headers were looked at, and its mark.
fn put_value<T: Show>(
    out: &mut Answer,
    input: &[u8],
    tries: &Tries,
    rest: &[u8],
    mark: &str,
    value: &T,
) {
    out.add("ok rest=");
    out.display(&rest.len());
    if !input.ends_with(rest) {
        out.add("!");
    }
    put_count(out, tries);
    out.add(mark);
    value.show(out);
}

// A refusal, and how many headers were looked at.
fn put_refusal<E: fmt::Debug + ReadError>(out: &mut Answer, tries: &Tries, refusal: &Err<E>) {
    out.refusal(refusal);
    put_count(out, tries);
}

/// Adds an outcome and its count.
pub fn put_outcome<T: Show, E: fmt::Debug + ReadError>(
    out: &mut Answer,
    input: &[u8],
    tries: &Tries,
    outcome: Result<(&[u8], T), Err<E>>,
) {
    match outcome {
        Ok((rest, value)) => put_value(out, input, tries, rest, " ", &value),
        Err(refusal) => put_refusal(out, tries, &refusal),
    }
}

/// Adds an outcome with its mark.
pub fn put_marked<T: Show, E: fmt::Debug + ReadError>(
    out: &mut Answer,
    input: &[u8],
    tries: &Tries,
    outcome: Result<(&[u8], T, bool), Err<E>>,
) {
    match outcome {
        Ok((rest, value, plain)) => {
            let mark = if plain { " plain " } else { " loose " };
            put_value(out, input, tries, rest, mark, &value);
        }
        Err(refusal) => put_refusal(out, tries, &refusal),
    }
}

/// Adds what a reader to the end of the input answers.
pub fn put_whole<T: Show, E: fmt::Debug + ReadError>(
    out: &mut Answer,
    input: &[u8],
    tries: &Tries,
    outcome: Result<(T, bool), Err<E>>,
) {
    let outcome = match outcome {
        Ok((value, plain)) => Ok((&input[input.len()..], value, plain)),
        Err(refusal) => Err(refusal),
    };
    put_marked(out, input, tries, outcome);
}

/// Adds what a call that counts no headers answers.
pub fn put_uncounted<T: Show, E: fmt::Debug + ReadError>(
    out: &mut Answer,
    input: &[u8],
    outcome: Result<(&[u8], T), Err<E>>,
) {
    put_outcome(out, input, &Tries::new(), outcome);
}

// What a call answers that tells the place of a refusal; of an error type by itself, since the borrow checker doesn't cover a
// refusal with its place of any error type.
macro_rules! put_places {
    ($out:ident, $input:ident, $outcome:ident) => {
        match $outcome {
            Ok((rest, value)) => put_value($out, $input, &Tries::new(), rest, " ", &value),
            Err(refusal) => {
                $out.refusal(&refusal.why);
                $out.add(" at=");
                $out.display(&refusal.at);
            }
        }
    };
}

/// Adds what a call answers that tells the place of a refusal.
pub fn put_located<T: Show>(
    out: &mut Answer,
    input: &[u8],
    outcome: Result<(&[u8], T), Located<X509Error>>,
) {
    put_places!(out, input, outcome);
}

/// The same of elements.
pub fn put_located_element<T: Show>(
    out: &mut Answer,
    input: &[u8],
    outcome: Result<(&[u8], T), Located<BerError>>,
) {
    put_places!(out, input, outcome);
}
