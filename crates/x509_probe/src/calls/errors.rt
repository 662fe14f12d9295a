//! Errors and reasons by numbers, and their texts.

use std::fmt;
use x509_der::{BerError, Err, ErrorKind, ReadError};
use x509_fields::{NidError, ReasonCode, X509Error};
use x509_probe_answers::Answer;

// The errors of lists by numbers of their own.
fn list_kind(number: u8) -> Option<ErrorKind> {
    Some(match number {
        0 => ErrorKind::Complete,
        1 => ErrorKind::Eof,
        2 => ErrorKind::Many1,
        3 => ErrorKind::MapRes,
        _ => return None,
    })
}

// The errors of elements by numbers of their own.
fn element_kind(number: u8) -> Option<BerError> {
    Some(match number {
        4 => BerError::Incomplete,
        5 => BerError::InvalidTag,
        6 => BerError::InvalidLength,
        7 => BerError::BerTypeError,
        8 => BerError::BerValueError,
        9 => BerError::DerConstraintFailed,
        10 => BerError::OutOfMemory,
        other => BerError::NomError(list_kind(other)?),
    })
}

// The errors of fields by numbers of their own.
fn field_kind(number: u8) -> Option<X509Error> {
    Some(match number {
        20 => X509Error::Generic,
        21 => X509Error::InvalidVersion,
        22 => X509Error::InvalidSerial,
        23 => X509Error::InvalidAlgorithmIdentifier,
        24 => X509Error::InvalidX509Name,
        25 => X509Error::InvalidDate,
        26 => X509Error::InvalidSPKI,
        27 => X509Error::InvalidSubjectUID,
        28 => X509Error::InvalidIssuerUID,
        29 => X509Error::InvalidExtensions,
        30 => X509Error::InvalidAttributes,
        31 => X509Error::DuplicateExtensions,
        32 => X509Error::DuplicateAttributes,
        33 => X509Error::InvalidSignatureValue,
        34 => X509Error::InvalidTbsCertificate,
        35 => X509Error::InvalidUserCertificate,
        36 => X509Error::InvalidCertificate,
        37 => X509Error::SignatureVerificationError,
        38 => X509Error::SignatureUnsupportedAlgorithm,
        39 => X509Error::InvalidNumber,
        40 => X509Error::OutOfMemory,
        60 => X509Error::NomError(ErrorKind::Complete),
        61 => X509Error::NomError(ErrorKind::Eof),
        62 => X509Error::NomError(ErrorKind::Many1),
        63 => X509Error::NomError(ErrorKind::MapRes),
        other => X509Error::Der(element_kind(other)?),
    })
}

// An error: its name, its text, its word.
fn put_kind<E: fmt::Debug + fmt::Display>(out: &mut Answer, kind: &E, word: &str) {
    out.add(" ");
    out.debug(kind);
    out.add(" [");
    out.display(kind);
    out.add("] [");
    out.add(word);
    out.add("]");
}

// An error of fields.
fn put_field_kind(out: &mut Answer, kind: X509Error) {
    put_kind(out, &kind, kind.word());
}

// Each case of a refusal.
fn cases<E: Copy>(kind: E) -> [Err<E>; 3] {
    [Err::Incomplete, Err::Error(kind), Err::Failure(kind)]
}

// An error of the element layer, as itself and as an error of fields, bare and in each case of a refusal.
fn put_element_error(number: u8, out: &mut Answer) {
    if let Some(kind) = list_kind(number) {
        put_field_kind(out, X509Error::from(kind));
    }
    let Some(kind) = element_kind(number) else {
        return out.add("no number");
    };
    put_kind(out, &kind, kind.word());
    put_field_kind(out, X509Error::from(kind));
    for refusal in cases(kind) {
        put_field_kind(out, X509Error::from(refusal));
    }
    for refusal in cases(kind) {
        out.refusal_text(&refusal.convert::<X509Error>());
    }
}

// An error of fields, bare and in each case of a refusal.
fn put_field_error(number: u8, out: &mut Answer) {
    let Some(kind) = field_kind(number) else {
        return out.add("no number");
    };
    put_field_kind(out, kind);
    for refusal in cases(kind) {
        put_field_kind(out, X509Error::from(refusal));
    }
    out.refusal_text(&Err::<X509Error>::from(kind));
}

// Whether the refusal with an error of fields is that there was no memory.
fn put_memory(number: u8, out: &mut Answer) {
    match field_kind(number) {
        Some(kind) => out.truth(Err::<X509Error>::from(kind).is_out_of_memory()),
        None => out.add("no number"),
    }
}

// The error of an identifier that has no name.
fn put_unknown(out: &mut Answer) {
    out.display(&NidError);
}

// An error by its layer and its number.
fn put_error(numbers: &[u8], out: &mut Answer) {
    match numbers {
        [0, number] => put_element_error(*number, out),
        [1, number] => put_field_error(*number, out),
        [2] => put_unknown(out),
        [3, number] => put_memory(*number, out),
        _ => out.add("two numbers"),
    }
}

// The text of a reason; of the default one where there is no number.
fn put_reason(numbers: &[u8], out: &mut Answer) {
    match numbers {
        [] => out.display_hex(&ReasonCode::default()),
        [number] => out.display_hex(&ReasonCode(*number)),
        _ => out.add("one number"),
    }
}

/// Adds the texts of an error or a reason; false where the word names none.
pub fn answer(word: &str, numbers: &[u8], out: &mut Answer) -> bool {
    match word {
        "error_text" => put_error(numbers, out),
        "reason_text" => put_reason(numbers, out),
        _ => return false,
    }
    true
}
