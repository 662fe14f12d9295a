//! Extensions that a request asks for.

ghost use Rattle.std.specs.Prelude.{List, true};
ghost use Rattle.x509_der.specs.Grammar.{allocates, in_sequence};
ghost use Rattle.x509_extensions.specs.Extension.{Extension};
ghost use Rattle.x509_extensions.specs.ExtensionList.{extensions, extensions_heads, extensions_laws};
ghost use Rattle.x509_requests.specs.ExtensionRequest.{request_of};

use std::alloc::Global;
use x509_der::{FromDer, Outside, Place, Refused, Sequence, Tries};
use x509_extensions::{ExtensionSequence, X509Extension};
use x509_fields::{TryClone, X509Error};

/// Extensions that the certificate is to have (RFC 2985, section 5.4.2), with what their values say.
///
/// ```text
/// extensionRequest  ::=  Extensions
/// ```
#[derive(Debug, Drop, PartialEq)]
pub struct ExtensionRequest<'a> {
    /// The extensions, in order; two may have one identifier.
    pub extensions: Sequence<X509Extension<'a>>,
}

impl<'a> FromDer<'a, X509Error> for ExtensionRequest<'a> {
    ghost Value = { List Extension };

    ghost view = { request_of };

    ghost grammar = { in_sequence (extensions true) (extensions_laws true) extensions_heads allocates };

    fn read_at<L: Outside>(
        alloc: Global,
        tries: &mut Tries,
        place: &Place<'a, L>,
    ) -> Result<(Self, bool), Refused<X509Error, L>> {
        match ExtensionSequence::read_at(alloc, tries, place) {
            Ok((ExtensionSequence { list }, plain)) => {
                Ok((ExtensionRequest { extensions: list }, plain))
            }
            Err(e) => Err(e),
        }
    }

    ghost never_memory = { (extensions_laws true).laws.never_memory };
}

impl TryClone for ExtensionRequest<'_> {
    fn try_clone(&self) -> Result<Self, X509Error> {
        let extensions = self.extensions.try_clone()?;
        Ok(ExtensionRequest { extensions })
    }
}
