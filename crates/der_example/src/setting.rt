//! A truth and a number that may be absent, and nothing behind them.

ghost use Rattle.x509_der.specs.Grammar.{borrows, in_sequence};
ghost use Rattle.x509_der.specs.Leaves.{sequence};
ghost use Rattle.x509_der.specs.Promises.{OneTryEach};
ghost use Rattle.der_example.specs.Setting.{SettingValue, setting_of, setting, setting_heads, setting_laws};

use std::alloc::Global;
use x509_der::{BerError, Err, Fields, FromDer, Outside, Place, Refused, Tries};

/// Whether something is on, and how much.
#[derive(Clone, Copy, Debug, PartialEq, Eq)]
pub struct Setting {
    pub on: Option<bool>,
    pub level: Option<u32>,
}

impl<'a> FromDer<'a, BerError> for Setting {
    ghost Value = { SettingValue };

    ghost view = { setting_of };

    ghost grammar = { in_sequence setting setting_laws setting_heads borrows };

    ghost tight = { OneTryEach sequence };

    #[tactic(auto, unfolding(crate::specs::Setting::setting, crate::specs::Setting::setting_fields), using(x509_der::proofs::Marking::marks_of_readers))]
    fn read_at<L: Outside>(
        _alloc: Global,
        tries: &mut Tries,
        place: &Place<'a, L>,
    ) -> Result<(Self, bool), Refused<BerError, L>> {
        let contents = place.sequence()?;
        let fields = Fields::of(tries, &contents);
        let (fields, on) = fields.soft_bool(tries);
        let (fields, level) = fields.soft_u32(tries);
        if !fields.are_over() {
            return Err(fields.place.refuse(Err::Error(BerError::BerValueError)));
        }
        Ok((Setting { on, level }, true))
    }

    ghost never_memory = { setting_laws.laws.never_memory };
}
