//! A validator and a visitor of a user's own.

use std::alloc::Global;
use x509_parser::certificate::X509Certificate;
use x509_parser::error::X509Error;
use x509_parser::extensions::X509Extension;
use x509_parser::validate::{Logger, Validator, log_warning_if};
use x509_parser::visitor::X509CertificateVisitor;

/// Warns of serials of more than 20 octets (RFC 5280, section 4.1.2.2).
#[derive(Debug, Drop)]
pub struct SerialLength;

impl<'a> Validator<'a> for SerialLength {
    ghost use Rattle.std.specs.Prelude.{true};
    ghost use Rattle.x509_certs.specs.Certificate.{certificate_of};
    ghost use Rattle.x509_uses.specs.Linting.{serial_warnings};

    type Item = X509Certificate<'a>;

    ghost messages = { λ _ c. serial_warnings (certificate_of c).tbs.raw_serial };

    ghost answer = { λ _ _. true };

    #[tactic(auto, unfolding(crate::specs::Linting::serial_warnings))]
    fn validate<L: Logger>(
        &self,
        alloc: Global,
        item: &X509Certificate<'a>,
        logger: &mut L,
    ) -> Result<bool, X509Error> {
        let long = item.raw_serial().len() > 20;
        log_warning_if(alloc, logger, long, "Serial of more than 20 octets")?;
        Ok(true)
    }
}

/// Counts critical extensions.
#[derive(Debug, Drop)]
pub struct CriticalExtensions {
    /// Those that were visited, up to the greatest number of 32 bits.
    pub count: u32,
}

impl X509CertificateVisitor for CriticalExtensions {
    ghost use Rattle.x509_uses.specs.Linting.{counts};

    ghost step = { λ s x r t. counts s.count x r t.count };

    fn visit_extension(&mut self, extension: &X509Extension<'_>) -> Result<(), X509Error> {
        if extension.critical {
            self.count = self.count.saturating_add(1);
        }
        Ok(())
    }
}

#[cfg(test)]
mod tests;
