//! Why lists are refused in the values of extensions.

ghost use Rattle.std.specs.Prelude.{◌≡◌};
ghost use Rattle.x509_der.specs.declared.error.Err.TheVariants.{Error};
ghost use Rattle.x509_fields.specs.Lists.{list_error};

use crate::error::X509Error;
use x509_der::{BerError, Err, ErrorKind};

/// The refusal of a list in the value of an extension: for this reason, and others may try.
pub const fn list_error(kind: ErrorKind) -> Err<X509Error>
    ensures { result ≡ Error (list_error kind) }
{
    Err::Error(X509Error::Der(BerError::NomError(kind)))
}
