//! Certificates that look for their own faults.

ghost use Rattle.std.specs.Prelude.{◌≡◌, IfOk, map};
ghost use Rattle.std.specs.String.{string_bytes};
ghost use Rattle.x509_validators.specs.CallbackLogger.{calls};
ghost use Rattle.x509_validators.specs.Message.{Logs, warnings_of, errors_of};

use crate::one_call::{validate_by, validate_to_vec};
use crate::structure::{TbsCertificateStructureValidator, X509StructureValidator};
use std::alloc::{AllocError, Global};
use x509_certs::{TbsCertificate, X509Certificate};
use x509_fields::X509Error;

/// Looks for faults of the value itself.
pub trait Validate {
    ghost use Rattle.std.specs.Prelude.{Bool, List};
    ghost use Rattle.x509_validators.specs.Message.{Message};
    ghost use Rattle.x509_validators.specs.declared.callback_logger.CallbackLogger.{CallbackLogger};

    // what is logged, in order, and what is answered
    ghost messages: { Self → List Message };

    ghost answer: { Self → Bool };

    /// Calls `warn` for each warning and `err` for each error, and answers whether the value is sound.
    ///
    /// # Errors
    ///
    /// `OutOfMemory` where there is none for a text, and what a closure refuses with.
    fn validate<W, E>(&self, alloc: Global, warn: W, err: E) -> Result<bool, X509Error>
    where
        W: FnMut(&str) -> Result<(), X509Error>,
        E: FnMut(&str) -> Result<(), X509Error>,
        requires can_warn { W.IsAlwaysCallable warn }
        requires can_err { E.IsAlwaysCallable err }
        ensures { (last : CallbackLogger W E) × Logs
            (λ s m r t. calls W.step E.step s.warn s.err m r t.warn t.err)
            (record { warn = warn; err = err }) (messages self.now) (answer self.now) result last };

    /// Whether the value is sound, the texts of the warnings, and those of the errors.
    ///
    /// # Errors
    ///
    /// Want of memory alone.
    fn validate_to_vec(&self, alloc: Global) -> Result<(bool, Vec<String>, Vec<String>), AllocError>
        ensures answer { IfOk result (λ r. r.0 ≡ answer self.now) }
        ensures warnings { IfOk result
            (λ r. map string_bytes r.1.items ≡ warnings_of (messages self.now)) }
        ensures errors { IfOk result
            (λ r. map string_bytes r.2.items ≡ errors_of (messages self.now)) };
}

/// By [`X509StructureValidator`].
impl Validate for X509Certificate<'_> {
    ghost use Rattle.x509_certs.specs.Certificate.{certificate_of};
    ghost use Rattle.x509_validators.specs.SignedPart.{signed_part_messages, is_signed_part_sound};

    ghost messages = { λ certificate. signed_part_messages (certificate_of certificate).tbs };

    ghost answer = { λ certificate. is_signed_part_sound (certificate_of certificate).tbs };

    fn validate<W, E>(&self, alloc: Global, warn: W, err: E) -> Result<bool, X509Error>
    where
        W: FnMut(&str) -> Result<(), X509Error>,
        E: FnMut(&str) -> Result<(), X509Error>,
    {
        validate_by(alloc, &X509StructureValidator, self, warn, err)
    }

    fn validate_to_vec(
        &self,
        alloc: Global,
    ) -> Result<(bool, Vec<String>, Vec<String>), AllocError> {
        validate_to_vec(alloc, &X509StructureValidator, self)
    }
}

/// By [`TbsCertificateStructureValidator`].
impl Validate for TbsCertificate<'_> {
    ghost use Rattle.x509_certs.specs.TbsCertificate.{tbs_of};
    ghost use Rattle.x509_validators.specs.SignedPart.{signed_part_messages, is_signed_part_sound};

    ghost messages = { λ tbs. signed_part_messages (tbs_of tbs) };

    ghost answer = { λ tbs. is_signed_part_sound (tbs_of tbs) };

    fn validate<W, E>(&self, alloc: Global, warn: W, err: E) -> Result<bool, X509Error>
    where
        W: FnMut(&str) -> Result<(), X509Error>,
        E: FnMut(&str) -> Result<(), X509Error>,
    {
        validate_by(alloc, &TbsCertificateStructureValidator, self, warn, err)
    }

    fn validate_to_vec(
        &self,
        alloc: Global,
    ) -> Result<(bool, Vec<String>, Vec<String>), AllocError> {
        validate_to_vec(alloc, &TbsCertificateStructureValidator, self)
    }
}
