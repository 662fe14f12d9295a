//! One extension.

ghost use Rattle.std.specs.Prelude.{◌≡◌, true};
ghost use Rattle.x509_der.specs.Grammar.{allocates, in_sequence};
ghost use Rattle.x509_extensions.specs.Extension.{Extension, extension_of, extension_heads, extension, extension_laws};

use crate::parsed::ParsedExtension;
use crate::parser::X509ExtensionParser;
use std::alloc::Global;
use std::slice;
use x509_der::{FromDer, Oid, Outside, Place, Reader, Refused, Tries};
use x509_fields::{TryClone, X509Error};

/// An extension of a certificate, of a list or of an entry of one (RFC 5280, section 4.2).
///
/// ```text
/// Extension  ::=  SEQUENCE  {
///     extnID      OBJECT IDENTIFIER,
///     critical    BOOLEAN DEFAULT FALSE,
///     extnValue   OCTET STRING  }
/// ```
///
/// A value that can't be read hides nothing else: it is a [`ParsedExtension::ParseError`].
#[derive(Debug, Drop, PartialEq)]
pub struct X509Extension<'a> {
    /// Which extension it is.
    pub oid: Oid<'a>,
    /// Whether who doesn't know the extension must refuse the certificate or list.
    pub critical: bool,
    /// The contents of the OCTET STRING.
    pub value: &'a [u8],
    pub(crate) parsed_extension: ParsedExtension<'a>,
}

/// Extensions, in order.
pub type ExtensionIter<'v, 'a> = slice::Iter<'v, X509Extension<'a>>;

impl<'a> X509Extension<'a> {
    /// The extension of these parts.
    pub fn new(
        oid: Oid<'a>,
        critical: bool,
        value: &'a [u8],
        parsed_extension: ParsedExtension<'a>,
    ) -> X509Extension<'a>
        ensures oid { result.oid ≡ oid.entry }
        ensures critical { result.critical ≡ critical }
        ensures value { result.value.now ≡ value.now }
        ensures parsed { result.parsed_extension ≡ parsed_extension.entry }
    {
        X509Extension {
            oid,
            critical,
            value,
            parsed_extension,
        }
    }

    /// What the value says.
    pub fn parsed_extension(&self) -> &ParsedExtension<'a>
        ensures { result.now ≡ self.now.parsed_extension }
    {
        &self.parsed_extension
    }
}

/// The extension with what its value says. Every refusal is `InvalidExtensions`.
impl<'a> FromDer<'a, X509Error> for X509Extension<'a> {
    ghost Value = { Extension };

    ghost view = { extension_of };

    ghost grammar = { in_sequence (extension true) (extension_laws true) extension_heads allocates };

    fn read_at<L: Outside>(
        alloc: Global,
        tries: &mut Tries,
        place: &Place<'a, L>,
    ) -> Result<(Self, bool), Refused<X509Error, L>> {
        X509ExtensionParser::new().read_at(alloc, tries, place)
    }

    ghost never_memory = { (extension_laws true).laws.never_memory };
}

impl TryClone for X509Extension<'_> {
    fn try_clone(&self) -> Result<Self, X509Error> {
        let parsed_extension = self.parsed_extension.try_clone()?;
        Ok(X509Extension {
            oid: self.oid,
            critical: self.critical,
            value: self.value,
            parsed_extension,
        })
    }
}
