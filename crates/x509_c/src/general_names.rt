//! General names, one by one.

ghost use Rattle.std.specs.Prelude.{◌≡◌};
ghost use Rattle.x509_general_names.specs.GeneralName.{GeneralNameValue, general_name_of};
ghost use Rattle.x509_general_names.specs.AlternativeNames.{general_names};
ghost use Rattle.x509_c.specs.GeneralNames.{IsGeneralNameRow};
ghost use Rattle.x509_c.specs.Rows.{CountsAndShows};
ghost use Rattle.x509_c.specs.Tells.{Tells, Done};

use crate::row_writer::{HasRow, put_rows};
use crate::status::{OK, refused};
use std::alloc::Global;
use x509_der::FromDer;
use x509_general_names::{GeneralName, SubjectAlternativeName};

/// One general name: `rtv_general_name` of rushtrivet.h.
#[repr(C)]
#[derive(Clone, Copy)]
pub struct GeneralNameRow<'a> {
    /// Of an other name, the contents of its identifier; else empty.
    pub id: &'a [u8],
    /// The octets of the name: a text, an address, a whole name; or its contents where they can't be read.
    pub value: &'a [u8],
    /// The number of its tag (RFC 5280, section 4.2.1.6).
    pub tag: u32,
    /// 1 where its contents can be read, and else 0.
    pub readable: u32,
}

impl<'a> HasRow for GeneralName<'a> {
    type Row = GeneralNameRow<'a>;

    ghost Value = { GeneralNameValue };

    ghost view = { general_name_of };

    ghost Shows = { IsGeneralNameRow };

    fn row(&self) -> GeneralNameRow<'a> {
        let (tag, readable, id, value): (u32, u32, &[u8], &[u8]) = match self {
            GeneralName::OtherName(id, value) => (0, 1, id.as_bytes(), value),
            GeneralName::RFC822Name(text) => (1, 1, b"", text.as_bytes()),
            GeneralName::DNSName(text) => (2, 1, b"", text.as_bytes()),
            GeneralName::X400Address(address) => (3, 1, b"", address.as_bytes()),
            GeneralName::DirectoryName(name) => (4, 1, b"", name.as_raw()),
            GeneralName::EDIPartyName(party) => (5, 1, b"", party.as_bytes()),
            GeneralName::URI(text) => (6, 1, b"", text.as_bytes()),
            GeneralName::IPAddress(address) => (7, 1, b"", address),
            GeneralName::RegisteredID(id) => (8, 1, b"", id.as_bytes()),
            GeneralName::Invalid(tag, contents) => (tag.0, 0, b"", contents),
        };
        GeneralNameRow {
            id,
            value,
            tag,
            readable,
        }
    }
}

/// Reads the value of a subject's or an issuer's alternative names. They are written in order, as many as there are rows, and all of
/// them are counted.
#[unsafe(no_mangle)]
pub extern "C" fn rtv_read_general_names<'a>(
    alloc: Global,
    value: &'a [u8],
    names: &mut [GeneralNameRow<'a>],
    count: &mut usize,
    at: &mut usize,
) -> u32
    ensures { Tells general_names value.now
        (λ read _. Done (CountsAndShows IsGeneralNameRow names.new count.new read))
        ((names.new ≡ names.old) × (count.new ≡ count.old))
        at.old at.new result }
{
    match SubjectAlternativeName::from_der_located(alloc, value) {
        Ok((_, read)) => {
            let read = read.general_names.as_slice();
            put_rows(names, read);
            *count = read.len();
            OK
        }
        Err(refusal) => refused(refusal, at),
    }
}
