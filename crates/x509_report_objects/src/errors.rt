//! What errors are called.

ghost use Rattle.std.specs.Prelude.{◌≡◌};
ghost use Rattle.x509_report_objects.specs.Errors.{element_error_name, error_name, list_error_name, refusal_name};

use x509_der::{BerError, Err, ErrorKind};
use x509_fields::X509Error;

fn list_error_name(kind: ErrorKind) -> &'static str
    ensures { result.now ≡ list_error_name kind }
{
    match kind {
        ErrorKind::Complete => "Complete",
        ErrorKind::Eof => "Eof",
        ErrorKind::Many1 => "Many1",
        ErrorKind::MapRes => "MapRes",
    }
}

fn element_error_name(kind: BerError) -> &'static str
    ensures { result.now ≡ element_error_name kind }
{
    match kind {
        BerError::Incomplete => "Incomplete",
        BerError::InvalidTag => "InvalidTag",
        BerError::InvalidLength => "InvalidLength",
        BerError::BerTypeError => "BerTypeError",
        BerError::BerValueError => "BerValueError",
        BerError::DerConstraintFailed => "DerConstraintFailed",
        BerError::NomError(kind) => list_error_name(kind),
        BerError::OutOfMemory => "OutOfMemory",
    }
}

fn error_name(kind: X509Error) -> &'static str
    ensures { result.now ≡ error_name kind }
{
    match kind {
        X509Error::Generic => "Generic",
        X509Error::InvalidVersion => "InvalidVersion",
        X509Error::InvalidSerial => "InvalidSerial",
        X509Error::InvalidAlgorithmIdentifier => "InvalidAlgorithmIdentifier",
        X509Error::InvalidX509Name => "InvalidX509Name",
        X509Error::InvalidDate => "InvalidDate",
        X509Error::InvalidSPKI => "InvalidSPKI",
        X509Error::InvalidSubjectUID => "InvalidSubjectUID",
        X509Error::InvalidIssuerUID => "InvalidIssuerUID",
        X509Error::InvalidExtensions => "InvalidExtensions",
        X509Error::InvalidAttributes => "InvalidAttributes",
        X509Error::DuplicateExtensions => "DuplicateExtensions",
        X509Error::DuplicateAttributes => "DuplicateAttributes",
        X509Error::InvalidSignatureValue => "InvalidSignatureValue",
        X509Error::InvalidTbsCertificate => "InvalidTbsCertificate",
        X509Error::InvalidUserCertificate => "InvalidUserCertificate",
        X509Error::InvalidCertificate => "InvalidCertificate",
        X509Error::SignatureVerificationError => "SignatureVerificationError",
        X509Error::SignatureUnsupportedAlgorithm => "SignatureUnsupportedAlgorithm",
        X509Error::InvalidNumber => "InvalidNumber",
        X509Error::Der(kind) => element_error_name(kind),
        X509Error::NomError(kind) => list_error_name(kind),
        X509Error::OutOfMemory => "OutOfMemory",
    }
}

/// The name of the error that a refusal holds, in its innermost: `InvalidLength` of an element of any structure.
pub(crate) fn refusal_name(refusal: &Err<X509Error>) -> &'static str
    ensures { result.now ≡ refusal_name refusal.now }
{
    match refusal {
        Err::Incomplete => "Incomplete",
        Err::Error(kind) => error_name(*kind),
        Err::Failure(kind) => error_name(*kind),
    }
}
