//! Values of the extensions of Netscape.

ghost use Rattle.std.specs.Prelude.{◌≡◌};
ghost use Rattle.x509_values.specs.NsCertType.{ns_cert_type};
ghost use Rattle.x509_values.specs.NsComment.{ns_comment};
ghost use Rattle.x509_c.specs.Tells.{Tells, TellsWhole, Done};
ghost use Rattle.x509_c.specs.Values.{AreOctets};

use crate::octets::OctetsRow;
use crate::status::{OK, refused};
use std::alloc::Global;
use x509_der::{FromDer, Located, Tries};
use x509_values::{NSCertType, read_ns_comment};

/// What a certificate may be used for: bit k of the type is set where bit k of the BIT STRING is (Netscape certificate extensions).
#[unsafe(no_mangle)]
pub extern "C" fn rtv_read_ns_cert_type(
    alloc: Global,
    value: &[u8],
    bits: &mut u32,
    at: &mut usize,
) -> u32
    ensures { Tells ns_cert_type value.now
        (λ flags _. Done (bits.new ≡ flags))
        (bits.new ≡ bits.old)
        at.old at.new result }
{
    match NSCertType::from_der_located(alloc, value) {
        Ok((_, read)) => {
            *bits = u32::from(read.flags);
            OK
        }
        Err(refusal) => refused(refusal, at),
    }
}

/// The comment of a certificate (Netscape certificate extensions): an IA5String, or the whole value where none stands there and the value
/// is UTF-8. What is refused is refused at its first octet.
#[unsafe(no_mangle)]
pub extern "C" fn rtv_read_ns_comment<'a>(
    value: &'a [u8],
    comment: &mut OctetsRow<'a>,
    at: &mut usize,
) -> u32
    ensures { TellsWhole ns_comment value.now
        (λ text _. Done (AreOctets comment.new text))
        (comment.new ≡ comment.old)
        at.old at.new result }
{
    let mut tries = Tries::new();
    match read_ns_comment(&mut tries, value) {
        Ok((_, read)) => {
            *comment = OctetsRow {
                octets: read.as_bytes(),
            };
            OK
        }
        Err(why) => refused(Located { why, at: 0 }, at),
    }
}
