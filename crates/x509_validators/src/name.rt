//! Names.

ghost use Rattle.std.specs.Prelude.{◌≡◌};
ghost use Rattle.x509_der.specs.Reading.{element_of};
ghost use Rattle.x509_names.specs.Names.{attribute_of};
ghost use Rattle.x509_validators.specs.Message.{Validates};
ghost use Rattle.x509_validators.specs.Names.{attribute_warnings, is_out_of_charset};

use crate::charset::are_ascii;
use crate::logger::{Logger, log_warning_if};
use crate::validator::Validator;
use std::alloc::Global;
use x509_der::{Any, Tag};
use x509_fields::X509Error;
use x509_names::{AttributeTypeAndValue, X509Name};

/// Warns of each attribute of a name that is a PrintableString or an IA5String, by the number of its tag, with an octet
/// that isn't of ASCII. Every name is sound.
#[derive(Debug, Drop)]
pub struct X509NameStructureValidator;

impl<'a> Validator<'a> for X509NameStructureValidator {
    ghost use Rattle.std.specs.Prelude.{true};
    ghost use Rattle.x509_names.specs.Names.{name_of};
    ghost use Rattle.x509_validators.specs.Names.{name_warnings};

    type Item = X509Name<'a>;

    ghost messages = { λ _ name. name_warnings (name_of name) };

    ghost answer = { λ _ _. true };

    #[tactic(auto, using(crate::proofs::Logs::logging))]
    fn validate<L: Logger>(
        &self,
        alloc: Global,
        item: &X509Name<'a>,
        logger: &mut L,
    ) -> Result<bool, X509Error> {
        for attribute in item.iter_attributes() {
            check_attribute(alloc, attribute, logger)?;
        }
        Ok(true)
    }
}

#[tactic(auto, unfolding(crate::specs::Names::attribute_warnings))]
fn check_attribute<L: Logger>(
    alloc: Global,
    attribute: &AttributeTypeAndValue<'_>,
    logger: &mut L,
) -> Result<(), X509Error>
    requires { L.can_log logger.old }
    ensures { Validates L.can_log L.step logger.old (attribute_warnings (attribute_of attribute.now)) tt result logger.new }
{
    let oid = attribute.attr_type();
    let found = is_out_of_charset(attribute.attr_value());
    log_warning_if(
        alloc,
        logger,
        found,
        format_args!("Invalid charset in X.509 Name, component {oid}"),
    )
}

// Whether the value is a string of ASCII by its tag, and not by its contents.
fn is_out_of_charset(value: &Any<'_>) -> bool
    ensures { result ≡ is_out_of_charset (element_of value.now) }
{
    match value.tag() {
        Tag::PrintableString | Tag::Ia5String => !are_ascii(value.as_bytes()),
        _ => false,
    }
}
