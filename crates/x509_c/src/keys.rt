//! Keys.

ghost use Rattle.std.specs.Prelude.{◌≡◌};
ghost use Rattle.x509_keys.specs.RsaPublicKey.{rsa_public_key, rsa_key_of};
ghost use Rattle.x509_fields.specs.Algorithm.{algorithm_of};
ghost use Rattle.x509_keys.specs.KeyInfo.{key_info, key_info_of};
ghost use Rattle.x509_keys.specs.PublicKey.{key_in};
ghost use Rattle.x509_c.specs.Keys.{IsKeyInfoRow, IsRsaKeyRow, parameter_contents, parameter_tag, size_in};
ghost use Rattle.x509_c.specs.Tells.{Tells, Done};

use crate::options::is_some;
use crate::status::{OK, refused};
use std::alloc::Global;
use x509_der::FromDer;
use x509_fields::AlgorithmIdentifier;
use x509_keys::{RSAPublicKey, SubjectPublicKeyInfo};

/// The size of the key in bits; 0 where the key bits hold no key of their algorithm, or no size is known.
pub(crate) fn key_size(key: &SubjectPublicKeyInfo<'_>) -> usize
    ensures { result ≡ size_in (key_in (key_info_of key.now)) }
{
    match key.parsed() {
        Ok(key) => key.key_size(),
        Err(_) => 0,
    }
}

/// An RSA key: `rtv_rsa_key` of rushtrivet.h.
#[repr(C)]
#[derive(Clone, Copy)]
pub struct RsaKeyRow<'a> {
    /// The contents of the modulus; an octet 0 stands first where the top bit of the next is set.
    pub modulus: &'a [u8],
    /// The contents of the public exponent, likewise.
    pub exponent: &'a [u8],
}

fn rsa_key_row<'a>(key: &RSAPublicKey<'a>) -> RsaKeyRow<'a>
    ensures { IsRsaKeyRow result (rsa_key_of key.now) }
{
    RsaKeyRow {
        modulus: key.modulus,
        exponent: key.exponent,
    }
}

/// Reads the RSA key at the front of the octets of key bits (RFC 8017, A.1.1).
#[unsafe(no_mangle)]
pub extern "C" fn rtv_read_rsa_key<'a>(
    alloc: Global,
    bits: &'a [u8],
    key: &mut RsaKeyRow<'a>,
    at: &mut usize,
) -> u32
    ensures { Tells rsa_public_key bits.now
        (λ read _. Done (IsRsaKeyRow key.new read))
        (key.new ≡ key.old)
        at.old at.new result }
{
    match RSAPublicKey::from_der_located(alloc, bits) {
        Ok((_, read)) => {
            *key = rsa_key_row(&read);
            OK
        }
        Err(refusal) => refused(refusal, at),
    }
}

/// A key and its algorithm: `rtv_key_info` of rushtrivet.h.
#[repr(C)]
#[derive(Clone, Copy)]
pub struct KeyInfoRow<'a> {
    /// The contents of the identifier of the algorithm.
    pub algorithm: &'a [u8],
    /// The contents of the algorithm's parameters; empty where there are none.
    pub parameters: &'a [u8],
    /// The octets of the key's bits.
    pub bits: &'a [u8],
    /// 1 where the algorithm has parameters, and else 0.
    pub has_parameters: u32,
    /// The number of the tag of the parameters; 0 where there are none.
    pub parameters_tag: u32,
    /// How many of the last octet's low bits are no part of the key's.
    pub unused_bits: u32,
}

/// The contents of the parameters, of which there may be none.
fn parameters<'a>(algorithm: &AlgorithmIdentifier<'a>) -> &'a [u8]
    ensures { result.now ≡ parameter_contents (algorithm_of algorithm.now).parameters }
{
    match &algorithm.parameters {
        Some(parameters) => parameters.as_bytes(),
        None => b"",
    }
}

/// The number of the tag of the parameters.
fn parameters_tag(algorithm: &AlgorithmIdentifier<'_>) -> u32
    ensures { result ≡ parameter_tag (algorithm_of algorithm.now).parameters }
{
    match &algorithm.parameters {
        Some(parameters) => parameters.tag().0,
        None => 0,
    }
}

fn key_info_row<'a>(info: &SubjectPublicKeyInfo<'a>) -> KeyInfoRow<'a>
    ensures { IsKeyInfoRow result (key_info_of info.now) }
{
    KeyInfoRow {
        algorithm: info.algorithm.algorithm.as_bytes(),
        parameters: parameters(&info.algorithm),
        bits: info.subject_public_key.bytes,
        has_parameters: is_some(&info.algorithm.parameters),
        parameters_tag: parameters_tag(&info.algorithm),
        unused_bits: u32::from(info.subject_public_key.unused_bits),
    }
}

/// Reads the SubjectPublicKeyInfo at the front of the buffer (RFC 5280, section 4.1.2.7).
#[unsafe(no_mangle)]
pub extern "C" fn rtv_read_key_info<'a>(
    alloc: Global,
    der: &'a [u8],
    info: &mut KeyInfoRow<'a>,
    at: &mut usize,
) -> u32
    ensures { Tells key_info der.now
        (λ read _. Done (IsKeyInfoRow info.new read))
        (info.new ≡ info.old)
        at.old at.new result }
{
    match SubjectPublicKeyInfo::from_der_located(alloc, der) {
        Ok((_, read)) => {
            *info = key_info_row(&read);
            OK
        }
        Err(refusal) => refused(refusal, at),
    }
}
