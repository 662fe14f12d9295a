//! A validator and one of the loggers, in one call.

ghost use Rattle.std.specs.Prelude.{◌≡◌, IfOk, map};
ghost use Rattle.std.specs.String.{string_bytes};
ghost use Rattle.x509_validators.specs.Message.{Logs, warnings_of, errors_of};
ghost use Rattle.x509_validators.specs.CallbackLogger.{calls};
ghost use Rattle.x509_validators.specs.declared.callback_logger.CallbackLogger.{CallbackLogger};

use crate::callback_logger::CallbackLogger;
use crate::validator::Validator;
use crate::vec_logger::VecLogger;
use std::alloc::{AllocError, Global};
use x509_fields::X509Error;

/// What a validator says of an item, by a closure for each level.
///
/// # Errors
///
/// `OutOfMemory` where there is none for a text, and what a closure refuses with.
pub fn validate_by<'a, V, W, E>(
    alloc: Global,
    validator: &V,
    item: &V::Item,
    warn: W,
    err: E,
) -> Result<bool, X509Error>
where
    V: Validator<'a>,
    W: FnMut(&str) -> Result<(), X509Error>,
    E: FnMut(&str) -> Result<(), X509Error>,
    requires can_warn { W.IsAlwaysCallable warn }
    requires can_err { E.IsAlwaysCallable err }
    ensures { (last : CallbackLogger W E) × Logs
        (λ s m r t. calls W.step E.step s.warn s.err m r t.warn t.err)
        (record { warn = warn; err = err }) (V.messages validator.now item.now) (V.answer validator.now item.now) result last }
{
    let mut logger = CallbackLogger::new(warn, err);
    validator.validate(alloc, item, &mut logger)
}

/// What a validator says of an item, with the texts of the warnings and of the errors.
///
/// # Errors
///
/// Want of memory alone.
#[tactic(auto, using(crate::proofs::Kept::kept))]
pub fn validate_to_vec<'a, V: Validator<'a>>(
    alloc: Global,
    validator: &V,
    item: &V::Item,
) -> Result<(bool, Vec<String>, Vec<String>), AllocError>
    ensures answer { IfOk result (λ r. r.0 ≡ V.answer validator.now item.now) }
    ensures warnings { IfOk result
        (λ r. map string_bytes r.1.items ≡ warnings_of (V.messages validator.now item.now)) }
    ensures errors { IfOk result
        (λ r. map string_bytes r.2.items ≡ errors_of (V.messages validator.now item.now)) }
{
    let mut logger = VecLogger::new(alloc);
    let answer = match validator.validate(alloc, item, &mut logger) {
        Ok(answer) => answer,
        Err(X509Error::OutOfMemory) => return Err(AllocError),
        Err(_) => unreachable!(),
    };
    let (warnings, errors) = logger.into_parts();
    Ok((answer, warnings, errors))
}
