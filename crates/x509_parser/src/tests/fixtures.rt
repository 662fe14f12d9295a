//! Certificates in bytes, and places in them.

use crate::prelude::*;
use std::alloc::Global;
use std::fmt::{Debug, Display};
use std::process::Abort;
use x509_der::Err;

/// What a test is given: memory, and that it ends where something isn't as it should be.
pub trait Ends: Abort + AllocGlobal {}

impl<R: Abort + AllocGlobal> Ends for R {}

/// A certificate that is empty wherever it may be: 66 bytes.
pub const PLAIN_BYTES: &[u8; 66] =
    b"\x30\x40\x30\x36\x02\x01\x01\x30\x03\x06\x01\x2A\x30\x00\x30\x1E\x17\x0D700101000000Z\x17\x0D491231235959Z\x30\x00\x30\x08\x30\x03\x06\x01\x2A\
      \x03\x01\x00\x30\x03\x06\x01\x2A\x03\x01\x00";

/// One of the third version with a subject key identifier (RFC 5280, 4.2.1.2): 106 bytes.
pub const EXTENDED_BYTES: &[u8; 106] =
    b"\x30\x68\x30\x5E\xA0\x03\x02\x01\x02\x02\x01\x01\x30\x03\x06\x01\x2A\x30\x00\x30\x1E\x17\x0D700101000000Z\x17\x0D491231235959Z\x30\x00\x30\x08\
      \x30\x03\x06\x01\x2A\x03\x01\x00\xA3\x21\x30\x1F\x30\x1D\x06\x03\x55\x1D\x0E\x04\x16\x04\x14\xA3\x05\x2F\x18\x60\x50\xC2\x89\x0A\xDD\x2B\x21\x4F\
      \xFF\x8E\x4E\xA8\x30\x31\x36\x30\x03\x06\x01\x2A\x03\x01\x00";

/// Where a field of a certificate begins and ends.
pub type Place = (usize, usize);

/// In front of the plain certificate's serial.
pub const VERSION: Place = (4, 4);
/// The plain certificate's serial.
pub const SERIAL: Place = (4, 7);
/// The header of its key.
pub const KEY: Place = (48, 50);
/// Its algorithm, behind the signed part.
pub const ALGORITHM: Place = (58, 63);
/// Its signature.
pub const BITS: Place = (63, 66);
/// The extensions of the extended certificate, with their wrapper.
pub const EXTENSIONS: Place = (63, 98);

/// A certificate with other bytes at a place, and with the lengths of its two containers kept right.
pub fn replaced(rt: &impl Ends, whole: &[u8], place: Place, bytes: &[u8]) -> &'static [u8] {
    let (from, to) = place;
    let (Some(front), Some(behind)) = (whole.get(..from), whole.get(to..)) else {
        panic!(rt; "no such place");
    };
    let all = joined(rt, &[front, bytes, behind]);
    let length = u8::try_from(all.len()).expect(rt, "a short length");
    let [_, outer, _, inner, ..] = &mut *all else {
        panic!(rt; "too short");
    };
    *outer = length.wrapping_sub(2);
    if from < usize::from(*inner).saturating_add(4) {
        // an algorithm of five bytes and a signature of three stand behind the signed part
        *inner = length.wrapping_sub(12);
    }
    &*all
}

/// The bytes of all, one behind the other.
pub fn joined(rt: &impl Ends, parts: &[&[u8]]) -> &'static mut [u8] {
    let mut bytes = Vec::new(rt.alloc());
    for part in parts {
        bytes.extend_from_slice(*part).expect(rt, "memory");
    }
    bytes.leak()
}

/// A SEQUENCE of these contents.
pub fn sequence(rt: &impl Ends, parts: &[&[u8]]) -> &'static [u8] {
    let contents = joined(rt, parts);
    let length = u8::try_from(contents.len()).expect(rt, "a short length");
    &*joined(rt, &[&[0x30, length], &*contents])
}

/// The value, which is never let go, so that a test owns nothing: whatever it owns at an assertion has to be proved to be
/// dropped there.
pub fn kept<'e, T: Drop + 'e>(rt: &impl Ends, value: T) -> &'e T {
    Box::leak(Box::new(rt.alloc(), value).expect(rt, "memory"))
}

/// What was made, or the end of the test.
pub fn made<'e, T: Drop + 'e, E: Debug + Drop>(rt: &impl Ends, made: Result<T, E>) -> &'e T {
    kept(rt, made.expect(rt, "a value"))
}

/// What was read, with nothing behind it, or the end of the test.
pub fn whole<'e, T: Drop + 'e, E: Debug + Drop>(
    rt: &impl Ends,
    read: Result<(&[u8], T), E>,
) -> &'e T {
    match read {
        Ok(([], value)) => kept(rt, value),
        Ok(_) => panic!(rt; "bytes behind it"),
        Err(e) => panic!(rt; "refused: {e:?}"),
    }
}

/// What stands in these bytes, with nothing behind it, or the end of the test.
pub fn read_in<'a, T: FromDer<'a, X509Error> + Drop + 'a>(
    rt: &impl Ends,
    bytes: &'a [u8],
) -> &'a T {
    whole(rt, T::from_der(rt.alloc(), bytes))
}

/// The certificate in these bytes. A test that reads it so holds a reference alone.
pub fn certificate_in(rt: &impl Ends, bytes: &'static [u8]) -> &'static X509Certificate<'static> {
    whole(rt, parse_x509_certificate(rt.alloc(), bytes))
}

/// What stands behind the certificate at the front of these bytes, and the certificate.
pub fn certificate_at(
    rt: &impl Ends,
    bytes: &'static [u8],
) -> &'static (&'static [u8], X509Certificate<'static>) {
    made(rt, parse_x509_certificate(rt.alloc(), bytes))
}

/// The same by the strict reader.
pub fn strict_certificate_at(
    rt: &impl Ends,
    bytes: &'static [u8],
) -> &'static (&'static [u8], X509Certificate<'static>) {
    made(rt, parse_x509_certificate_strict(rt.alloc(), bytes))
}

/// The list in these bytes.
pub fn list_in(
    rt: &impl Ends,
    bytes: &'static [u8],
) -> &'static CertificateRevocationList<'static> {
    whole(rt, parse_x509_crl(rt.alloc(), bytes))
}

/// Whether the value is shown so.
pub fn shows<D: Display>(rt: &impl Ends, value: &D, wanted: &str) -> bool {
    let shown = format!(in rt.alloc(); "{value}").expect(rt, "memory");
    shown.as_str() == wanted
}

/// Why the bytes are no certificate, and why they are none to the strict reader.
pub fn refusals(alloc: Global, bytes: &[u8]) -> [Option<Err<X509Error>>; 2] {
    let loose = parse_x509_certificate(alloc, bytes).err();
    [loose, parse_x509_certificate_strict(alloc, bytes).err()]
}

// Critical extensions 1.2, 1.3, 1.2, 1.4 and 1.4 without contents.
const REPEATED: &[u8] =
    b"\xA3\x34\x30\x32\x30\x08\x06\x01\x2A\x01\x01\xFF\x04\x00\x30\x08\x06\x01\x2B\x01\x01\xFF\x04\x00\x30\x08\x06\x01\x2A\x01\x01\xFF\x04\x00\x30\x08\
      \x06\x01\x2C\x01\x01\xFF\x04\x00\x30\x08\x06\x01\x2C\x01\x01\xFF\x04\x00";

/// A certificate with the extensions 1.2, 1.3, 1.2, 1.4 and 1.4.
pub fn repeated(rt: &impl Ends) -> &'static X509Certificate<'static> {
    certificate_in(rt, replaced(rt, EXTENDED_BYTES, EXTENSIONS, REPEATED))
}
