//! A SEQUENCE of extensions as a field: of an entry of a list, or of a request.

ghost use Rattle.std.specs.Prelude.{List, true};
ghost use Rattle.x509_der.specs.Grammar.{allocates, in_sequence};
ghost use Rattle.x509_extensions.specs.Extension.{Extension};
ghost use Rattle.x509_extensions.specs.ExtensionList.{extensions_of, extensions, extensions_heads, extensions_laws};

use crate::extension::X509Extension;
use crate::parser::X509ExtensionParser;
use std::alloc::Global;
use x509_der::{FromDer, Outside, Place, Refused, Sequence, Tries};
use x509_fields::X509Error;

/// Extensions, with what their values say (RFC 5280, section 4.1.2.9).
///
/// ```text
/// Extensions  ::=  SEQUENCE SIZE (1..MAX) OF Extension
/// ```
///
/// The SEQUENCE may be empty. It is read to its end: where what stands in it is no extension, `NomError(Eof)`.
#[derive(Debug, Drop)]
pub struct ExtensionSequence<'a> {
    /// The extensions, in order; two may have one identifier.
    pub list: Sequence<X509Extension<'a>>,
}

impl<'a> FromDer<'a, X509Error> for ExtensionSequence<'a> {
    ghost Value = { List Extension };

    ghost view = { extensions_of };

    ghost grammar = { in_sequence (extensions true) (extensions_laws true) extensions_heads allocates };

    fn read_at<L: Outside>(
        alloc: Global,
        tries: &mut Tries,
        place: &Place<'a, L>,
    ) -> Result<(Self, bool), Refused<X509Error, L>> {
        let (list, plain) = X509ExtensionParser::new().list_at(alloc, tries, place)?;
        Ok((ExtensionSequence { list }, plain))
    }

    ghost never_memory = { (extensions_laws true).laws.never_memory };
}
