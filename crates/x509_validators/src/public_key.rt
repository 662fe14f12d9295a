//! Keys of subjects.

ghost use Rattle.std.specs.Prelude.{◌≡◌, map};
ghost use Rattle.x509_keys.specs.PublicKey.{public_key_of};
ghost use Rattle.x509_keys.specs.RsaPublicKey.{rsa_key_of};
ghost use Rattle.x509_validators.specs.Message.{Validates};
ghost use Rattle.x509_validators.specs.PublicKey.{is_negative, known_rules, rsa_rules};
ghost use Rattle.x509_validators.specs.Rules.{row_of, told};

use crate::logger::Logger;
use crate::rule::{Rule, error_where, log_broken, warning_where};
use crate::validator::Validator;
use std::alloc::Global;
use x509_fields::X509Error;
use x509_keys::{PublicKey, RSAPublicKey, SubjectPublicKeyInfo};

/// Warns of numbers of an RSA key that are negative and of keys of an unknown algorithm. A key info is sound where its
/// key bits hold a key ([`SubjectPublicKeyInfo::parsed`]).
#[derive(Debug, Default, Drop)]
pub struct X509PublicKeyValidator;

impl<'a> Validator<'a> for X509PublicKeyValidator {
    ghost use Rattle.x509_keys.specs.KeyInfo.{key_info_of};
    ghost use Rattle.x509_keys.specs.PublicKey.{key_in};
    ghost use Rattle.x509_validators.specs.PublicKey.{key_messages, is_key};

    type Item = SubjectPublicKeyInfo<'a>;

    ghost messages = { λ _ info. key_messages (key_in (key_info_of info)) };

    ghost answer = { λ _ info. is_key (key_in (key_info_of info)) };

    #[tactic(auto, using(crate::proofs::Logs::logging), unfolding(crate::specs::PublicKey::key_rules, crate::specs::PublicKey::is_key))]
    fn validate<L: Logger>(
        &self,
        alloc: Global,
        item: &SubjectPublicKeyInfo<'a>,
        logger: &mut L,
    ) -> Result<bool, X509Error> {
        match item.parsed() {
            Ok(key) => {
                check_key(alloc, &key, logger)?;
                Ok(true)
            }
            Err(_) => {
                let rules = [error_where(true, "Invalid public key")];
                log_broken(alloc, &rules, logger)?;
                Ok(false)
            }
        }
    }
}

#[tactic(auto, using(crate::proofs::Logs::logging), unfolding(crate::specs::PublicKey::known_rules))]
fn check_key<L: Logger>(alloc: Global, key: &PublicKey<'_>, logger: &mut L) -> Result<(), X509Error>
    requires { L.can_log logger.old }
    ensures { Validates L.can_log L.step logger.old (told (known_rules (public_key_of key.now))) tt result logger.new }
{
    match key {
        PublicKey::RSA(key) => log_broken(alloc, &rsa_rules(key), logger),
        PublicKey::Unknown(_) => {
            let rules = [warning_where(true, "Unknown public key type")];
            log_broken(alloc, &rules, logger)
        }
        _ => Ok(()),
    }
}

// Of the numbers of an RSA key.
fn rsa_rules(key: &RSAPublicKey<'_>) -> [Rule<'static>; 2]
    ensures { map row_of result ≡ rsa_rules (rsa_key_of key.now) }
{
    [
        warning_where(
            is_negative(key.modulus),
            "Public key: (RSA) modulus is negative",
        ),
        warning_where(
            is_negative(key.exponent),
            "Public key: (RSA) exponent is negative",
        ),
    ]
}

/// Whether the octets of an INTEGER are those of a negative number (X.690, section 8.3.3).
#[tactic(auto, unfolding(crate::specs::PublicKey::is_negative))]
pub(crate) fn is_negative(octets: &[u8]) -> bool
    ensures { result ≡ is_negative octets.now }
{
    matches!(octets, [0x80..=0xff, ..])
}
