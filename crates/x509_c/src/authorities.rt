//! Values of extensions with keys and names of others in them.

ghost use Rattle.std.specs.Prelude.{◌≡◌, [], map};
ghost use Rattle.x509_general_names.specs.AuthorityKeyIdentifier.{authority_key_identifier, authority_key_identifier_of};
ghost use Rattle.x509_general_names.specs.GeneralName.{general_name_of};
ghost use Rattle.x509_general_names.specs.InformationAccess.{Access, access_of, information_access};
ghost use Rattle.x509_general_names.specs.KeyIdentifier.{key_identifier};
ghost use Rattle.x509_c.specs.Authorities.{IsAccessRow, IsAuthorityKeyRow, ShowsAccesses, ShowsAuthorityKey};
ghost use Rattle.x509_c.specs.Options.{there_or};
ghost use Rattle.x509_c.specs.Tells.{Tells, Done};
ghost use Rattle.x509_c.specs.Values.{AreOctets};

use crate::general_names::GeneralNameRow;
use crate::octets::OctetsRow;
use crate::options::is_some;
use crate::row_writer::{HasRow, put_rows};
use crate::status::{OK, refused};
use std::alloc::Global;
use x509_der::FromDer;
use x509_general_names::{
    AccessDescription, AuthorityInfoAccess, AuthorityKeyIdentifier, GeneralName, KeyIdentifier,
};

/// The identifier of a key (RFC 5280, section 4.2.1.2).
#[unsafe(no_mangle)]
pub extern "C" fn rtv_read_key_identifier<'a>(
    alloc: Global,
    value: &'a [u8],
    id: &mut OctetsRow<'a>,
    at: &mut usize,
) -> u32
    ensures { Tells key_identifier value.now
        (λ octets _. Done (AreOctets id.new octets))
        (id.new ≡ id.old)
        at.old at.new result }
{
    match KeyIdentifier::from_der_located(alloc, value) {
        Ok((_, read)) => {
            *id = OctetsRow { octets: read.0 };
            OK
        }
        Err(refusal) => refused(refusal, at),
    }
}

/// Which key of an issuer signed: `rtv_authority_key` of rushtrivet.h.
#[repr(C)]
#[derive(Clone, Copy)]
pub struct AuthorityKeyRow<'a> {
    /// The identifier of the key; empty where none is named.
    pub key_identifier: &'a [u8],
    /// The contents of the serial of the key's certificate; empty where none is named.
    pub serial: &'a [u8],
    /// How many names the issuer of the key's certificate has.
    pub issuer_count: usize,
    /// 1 where the identifier is named, and else 0.
    pub has_key_identifier: u32,
    /// 1 where the issuer is named, and else 0.
    pub has_issuer: u32,
    /// 1 where the serial is named, and else 0.
    pub has_serial: u32,
}

fn key_octets<'a>(key: &AuthorityKeyIdentifier<'a>) -> &'a [u8]
    ensures { result.now ≡ there_or [] (authority_key_identifier_of key.now).key_identifier }
{
    match key.key_identifier {
        Some(id) => id.0,
        None => b"",
    }
}

fn serial_octets<'a>(key: &AuthorityKeyIdentifier<'a>) -> &'a [u8]
    ensures { result.now ≡ there_or [] (authority_key_identifier_of key.now).serial }
{
    match key.authority_cert_serial {
        Some(serial) => serial,
        None => b"",
    }
}

fn issuer_names<'v, 'a>(key: &'v AuthorityKeyIdentifier<'a>) -> &'v [GeneralName<'a>]
    ensures { map general_name_of result.now ≡ there_or [] (authority_key_identifier_of key.now).issuer }
{
    match &key.authority_cert_issuer {
        Some(names) => names.as_slice(),
        None => &[],
    }
}

fn authority_key_row<'a>(key: &AuthorityKeyIdentifier<'a>) -> AuthorityKeyRow<'a>
    ensures { IsAuthorityKeyRow result (authority_key_identifier_of key.now) }
{
    AuthorityKeyRow {
        key_identifier: key_octets(key),
        serial: serial_octets(key),
        issuer_count: issuer_names(key).len(),
        has_key_identifier: is_some(&key.key_identifier),
        has_issuer: is_some(&key.authority_cert_issuer),
        has_serial: is_some(&key.authority_cert_serial),
    }
}

/// Which key of an issuer signed (RFC 5280, section 4.2.1.1). The names of the issuer are written in order, as many as there are rows.
#[unsafe(no_mangle)]
pub extern "C" fn rtv_read_authority_key<'a>(
    alloc: Global,
    value: &'a [u8],
    key: &mut AuthorityKeyRow<'a>,
    issuer: &mut [GeneralNameRow<'a>],
    at: &mut usize,
) -> u32
    ensures { Tells authority_key_identifier value.now
        (λ read _. Done (ShowsAuthorityKey key.new issuer.new read))
        ((key.new ≡ key.old) × (issuer.new ≡ issuer.old))
        at.old at.new result }
{
    match AuthorityKeyIdentifier::from_der_located(alloc, value) {
        Ok((_, read)) => {
            *key = authority_key_row(&read);
            put_rows(issuer, issuer_names(&read));
            OK
        }
        Err(refusal) => refused(refusal, at),
    }
}

/// How and where something is found: `rtv_access` of rushtrivet.h.
#[repr(C)]
#[derive(Clone, Copy)]
pub struct AccessRow<'a> {
    /// The contents of the identifier of its kind.
    pub method: &'a [u8],
    /// Where it is found.
    pub location: GeneralNameRow<'a>,
}

impl<'a> HasRow for AccessDescription<'a> {
    type Row = AccessRow<'a>;

    ghost Value = { Access };

    ghost view = { access_of };

    ghost Shows = { IsAccessRow };

    fn row(&self) -> AccessRow<'a> {
        AccessRow {
            method: self.access_method.as_bytes(),
            location: self.access_location.row(),
        }
    }
}

/// Where more about an issuer or a subject is found (RFC 5280, sections 4.2.2.1 and 4.2.2.2). The accesses are written in order, as many
/// as there are rows, and all of them are counted.
#[unsafe(no_mangle)]
pub extern "C" fn rtv_read_accesses<'a>(
    alloc: Global,
    value: &'a [u8],
    accesses: &mut [AccessRow<'a>],
    count: &mut usize,
    at: &mut usize,
) -> u32
    ensures { Tells information_access value.now
        (λ read _. Done (ShowsAccesses accesses.new count.new read))
        ((accesses.new ≡ accesses.old) × (count.new ≡ count.old))
        at.old at.new result }
{
    match AuthorityInfoAccess::from_der_located(alloc, value) {
        Ok((_, read)) => {
            let read = read.accessdescs.as_slice();
            put_rows(accesses, read);
            *count = read.len();
            OK
        }
        Err(refusal) => refused(refusal, at),
    }
}
