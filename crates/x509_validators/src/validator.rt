//! What validators share.

ghost use Rattle.std.specs.Prelude.{Bool, List};
ghost use Rattle.x509_validators.specs.Message.{Message, Logs};

use crate::logger::Logger;
use std::alloc::Global;
use x509_fields::X509Error;

/// Looks for faults of an item.
pub trait Validator<'a> {
    /// What is looked at.
    type Item;

    // what is logged, in order, and what is answered
    ghost messages: { Self → Self.Item → List Message };

    ghost answer: { Self → Self.Item → Bool };

    /// Logs what is wrong with the item, and answers whether it is sound.
    ///
    /// # Errors
    ///
    /// `OutOfMemory` where there is none for a text, and the logger's own errors.
    fn validate<L: Logger>(
        &self,
        alloc: Global,
        item: &Self::Item,
        logger: &mut L,
    ) -> Result<bool, X509Error>
        requires { L.can_log logger.old }
        ensures can { L.can_log logger.new }
        ensures logs { Logs L.step logger.old (messages self.now item.now) (answer self.now item.now) result logger.new };
}
