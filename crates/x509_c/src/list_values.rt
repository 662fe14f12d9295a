//! Values of the extensions of lists of revoked certificates and of their entries.

ghost use Rattle.std.specs.Prelude.{◌≡◌};
ghost use Rattle.x509_values.specs.CrlNumber.{crl_number};
ghost use Rattle.x509_values.specs.InvalidityDate.{invalidity_date};
ghost use Rattle.x509_values.specs.ReasonCode.{reason_code};
ghost use Rattle.x509_c.specs.Seconds.{AreSecondsOf};
ghost use Rattle.x509_c.specs.Tells.{Tells, Done};
ghost use Rattle.x509_c.specs.Values.{AreOctets};

use crate::octets::OctetsRow;
use crate::status::{OK, refused};
use crate::times::seconds;
use std::alloc::Global;
use x509_der::FromDer;
use x509_values::{CRLNumber, InvalidityDate, ReasonCodeValue};

/// The number of a list, which grows from list to list (RFC 5280, section 5.2.3): its octets without zeros in front, none of the number 0.
#[unsafe(no_mangle)]
pub extern "C" fn rtv_read_crl_number<'a>(
    alloc: Global,
    value: &'a [u8],
    number: &mut OctetsRow<'a>,
    at: &mut usize,
) -> u32
    ensures { Tells crl_number value.now
        (λ octets _. Done (AreOctets number.new octets))
        (number.new ≡ number.old)
        at.old at.new result }
{
    match CRLNumber::from_der_located(alloc, value) {
        Ok((_, read)) => {
            *number = OctetsRow {
                octets: read.0.as_bytes(),
            };
            OK
        }
        Err(refusal) => refused(refusal, at),
    }
}

/// Why a certificate was revoked, by its number (RFC 5280, section 5.3.1).
#[unsafe(no_mangle)]
pub extern "C" fn rtv_read_reason_code(
    alloc: Global,
    value: &[u8],
    reason: &mut u32,
    at: &mut usize,
) -> u32
    ensures { Tells reason_code value.now
        (λ code _. Done (reason.new ≡ code))
        (reason.new ≡ reason.old)
        at.old at.new result }
{
    match ReasonCodeValue::from_der_located(alloc, value) {
        Ok((_, read)) => {
            *reason = u32::from(read.0.0);
            OK
        }
        Err(refusal) => refused(refusal, at),
    }
}

/// Since when a certificate is held to be invalid, in seconds since 1970 (RFC 5280, section 5.3.2).
#[unsafe(no_mangle)]
pub extern "C" fn rtv_read_invalidity_date(
    alloc: Global,
    value: &[u8],
    date: &mut i64,
    at: &mut usize,
) -> u32
    ensures { Tells invalidity_date value.now
        (λ time _. Done (AreSecondsOf date.new time))
        (date.new ≡ date.old)
        at.old at.new result }
{
    match InvalidityDate::from_der_located(alloc, value) {
        Ok((_, read)) => {
            *date = seconds(&read.0);
            OK
        }
        Err(refusal) => refused(refusal, at),
    }
}
