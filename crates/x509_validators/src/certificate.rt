//! Certificates by their extensions.

use crate::extensions::check_extensions;
use crate::logger::Logger;
use crate::validator::Validator;
use std::alloc::Global;
use x509_certs::X509Certificate;
use x509_fields::X509Error;

/// Tells of a certificate's extensions what [`X509ExtensionsValidator`](crate::X509ExtensionsValidator) does.
#[derive(Debug, Drop)]
pub struct X509CertificateValidator;

impl<'a> Validator<'a> for X509CertificateValidator {
    ghost use Rattle.x509_certs.specs.Certificate.{certificate_of};
    ghost use Rattle.x509_validators.specs.Extensions.{extensions_messages, are_sound};

    type Item = X509Certificate<'a>;

    ghost messages = { λ _ certificate. extensions_messages (certificate_of certificate).tbs.extensions };

    ghost answer = { λ _ certificate. are_sound (certificate_of certificate).tbs.extensions };

    fn validate<L: Logger>(
        &self,
        alloc: Global,
        item: &X509Certificate<'a>,
        logger: &mut L,
    ) -> Result<bool, X509Error> {
        check_extensions(alloc, item.extensions(), logger)
    }
}
