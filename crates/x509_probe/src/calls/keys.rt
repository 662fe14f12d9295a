//! Keys, and parameters of algorithms.

use x509_der::{FromDer, Tries, read_any};
use x509_fields::{AlgorithmIdentifier, X509Error};
use x509_keys::{
    ECPoint, RsaAesOaepParams, RsaSsaPssParams, SignatureAlgorithm, SubjectPublicKeyInfo,
};
use x509_probe_answers::{Answer, Show, both, put_result, read_both};

// The key of a key info.
fn put_key(a: &[u8], out: &mut Answer) {
    match SubjectPublicKeyInfo::from_der(out.alloc(), a) {
        Ok((_, info)) => put_result(out, info.parsed()),
        Err(refusal) => out.refused(&refusal),
    }
}

// Whether two values are equal, or why there is none.
fn put_equal<T: PartialEq + Show>(
    out: &mut Answer,
    a: Result<T, X509Error>,
    b: Result<T, X509Error>,
) {
    match (a, b) {
        (Ok(a), Ok(b)) => out.add(if a == b { "equal" } else { "unequal" }),
        (Err(kind), _) => out.error(&kind),
        (_, Err(kind)) => out.error(&kind),
    }
}

// Whether the keys of two key infos are equal.
fn put_equal_keys(a: &[u8], b: &[u8], out: &mut Answer) {
    let keys = read_both::<SubjectPublicKeyInfo, SubjectPublicKeyInfo>(out, a, b);
    if let Some((a, b)) = keys {
        put_equal(out, a.parsed(), b.parsed());
    }
}

// Whether two parameters of RSASSA-PSS are equal.
fn put_equal_pss(a: &[u8], b: &[u8], out: &mut Answer) {
    let (a, b) = (
        read_any(&mut Tries::new(), a),
        read_any(&mut Tries::new(), b),
    );
    if let Some((a, b)) = both(out, a, b) {
        let (a, b) = (RsaSsaPssParams::try_from(a), RsaSsaPssParams::try_from(b));
        put_equal(out, a, b);
    }
}

// The kind of a signature.
fn put_kind(a: &[u8], out: &mut Answer) {
    match AlgorithmIdentifier::from_der(out.alloc(), a) {
        Ok((_, algorithm)) => {
            put_result(out, SignatureAlgorithm::try_from(out.alloc(), &algorithm));
        }
        Err(refusal) => out.refused(&refusal),
    }
}

// Parameters of RSASSA-PSS, by two calls.
fn put_pss(a: &[u8], out: &mut Answer) {
    match read_any(&mut Tries::new(), a) {
        Ok((_, any)) => {
            put_result(out, RsaSsaPssParams::try_from_ref(&any));
            out.add("|");
            put_result(out, RsaSsaPssParams::try_from(any));
        }
        Err(refusal) => out.refused(&refusal),
    }
}

// Parameters of RSAES-OAEP, by two calls, and the default source.
fn put_oaep(a: &[u8], out: &mut Answer) {
    match read_any(&mut Tries::new(), a) {
        Ok((_, any)) => {
            put_result(out, RsaAesOaepParams::try_from_ref(&any));
            out.add("|");
            put_result(out, RsaAesOaepParams::try_from(any));
            out.add("|");
            RsaAesOaepParams::empty().show(out);
        }
        Err(refusal) => out.refused(&refusal),
    }
}

/// Adds the answer of a call; false where the word names none.
pub fn answer(word: &str, a: &[u8], b: &[u8], out: &mut Answer) -> bool {
    match word {
        "key_of" => put_key(a, out),
        "ec_point" => ECPoint::from(a).show(out),
        "eq_key" => put_equal_keys(a, b, out),
        "eq_ec_point" => put_equal(out, Ok(ECPoint::from(a)), Ok(ECPoint::from(b))),
        "eq_pss" => put_equal_pss(a, b, out),
        "signature_kind" => put_kind(a, out),
        "pss" => put_pss(a, out),
        "oaep" => put_oaep(a, out),
        _ => return false,
    }
    true
}
