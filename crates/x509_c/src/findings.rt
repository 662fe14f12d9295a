//! The lenient rules that an object uses, and the values of its extensions that can't be read.

ghost use Rattle.std.specs.Prelude.{◌≡◌, ℕ, length};
ghost use Rattle.x509_elements.specs.Words.{leniency_word};
ghost use Rattle.x509_elements.specs.declared.leniency.Leniency.{Leniency as Rule};
ghost use Rattle.x509_c.specs.FieldPaths.{object_by};
ghost use Rattle.x509_c.specs.Findings.{IsRefusedValueRow, IsUseRow, Refusal, ToldOfKind, refusal_of, refusals_in, rule_number, rule_word};
ghost use Rattle.x509_c.specs.Findings.{use_of, uses_in};
ghost use Rattle.x509_c.specs.Text.{HoldsText};

use crate::field_path::object_by;
use crate::row_writer::{HasRow, put_rows};
use crate::status::{NOT_FOUND, OK, OUT_OF_MEMORY, status_of};
use crate::text::put_text;
use std::alloc::Global;
use x509_elements::{Leniency, LenientUse, RefusedValue, leniencies, refused_values};

/// A lenient rule that an object uses: `rtv_lenient_use` of rushtrivet.h.
#[repr(C)]
#[derive(Clone, Copy)]
pub struct LenientUseRow {
    /// How many octets of the object stand before the one at which it is used.
    pub at: usize,
    /// The number of the rule, from 1.
    pub rule: u32,
}

/// A value of an extension that can't be read: `rtv_refused_value` of rushtrivet.h.
#[repr(C)]
#[derive(Clone, Copy)]
pub struct RefusedValueRow {
    /// How many octets of the object stand before the one at which it is refused.
    pub at: usize,
    /// How many octets of the object stand before the value: the contents of its extension's `extnValue`.
    pub value_at: usize,
    /// How many octets the value has.
    pub value_length: usize,
    /// The number of the refusal.
    pub status: u32,
}

/// The number of a rule.
fn rule_number(rule: Leniency) -> u32
    ensures { result ≡ rule_number rule }
{
    match rule {
        Leniency::BytesBehind => 1,
        Leniency::WrapperByNumber => 2,
        Leniency::AnySerial => 3,
        Leniency::BasicTruth => 4,
        Leniency::UnreadableField => 5,
        Leniency::AttributeByNumbers => 6,
        Leniency::ChoiceByNumber => 7,
        Leniency::UnreadableName => 8,
        Leniency::TimestampsBehind => 9,
        Leniency::Inside => 10,
    }
}

impl HasRow for LenientUse {
    type Row = LenientUseRow;

    ghost Value = { ℕ × ℕ };

    ghost view = { use_of };

    ghost Shows = { IsUseRow };

    fn row(&self) -> LenientUseRow {
        LenientUseRow {
            at: self.at,
            rule: rule_number(self.rule),
        }
    }
}

impl HasRow for RefusedValue {
    type Row = RefusedValueRow;

    ghost Value = { Refusal };

    ghost view = { refusal_of };

    ghost Shows = { IsRefusedValueRow };

    fn row(&self) -> RefusedValueRow {
        RefusedValueRow {
            at: self.at,
            value_at: self.value_at,
            value_length: self.value_size,
            status: status_of(self.why),
        }
    }
}

/// The lenient rules that the object at the front of the buffer uses, in order, by the kind's number: 1 a certificate, 2 a list, 3 a
/// request; 50 where it is none of these. They are written as far as there are rows, and all of them are counted.
#[unsafe(no_mangle)]
pub extern "C" fn rtv_leniencies(
    alloc: Global,
    der: &[u8],
    kind: u32,
    rows: &mut [LenientUseRow],
    count: &mut usize,
) -> u32
    ensures { ToldOfKind IsUseRow (uses_in der.now) (object_by kind) rows.old count.old rows.new count.new result }
{
    let Some(object) = object_by(kind) else {
        return NOT_FOUND;
    };
    match leniencies(alloc, object, der) {
        Ok(uses) => {
            put_rows(rows, uses.as_slice());
            *count = uses.len();
            OK
        }
        Err(_) => OUT_OF_MEMORY,
    }
}

/// The values of extensions that can't be read, of the object at the front of the buffer, in order, by the kind's number as above. They are
/// written as far as there are rows, and all of them are counted.
#[unsafe(no_mangle)]
pub extern "C" fn rtv_refused_values(
    alloc: Global,
    der: &[u8],
    kind: u32,
    rows: &mut [RefusedValueRow],
    count: &mut usize,
) -> u32
    ensures { ToldOfKind IsRefusedValueRow (refusals_in der.now) (object_by kind) rows.old count.old rows.new count.new result }
{
    let Some(object) = object_by(kind) else {
        return NOT_FOUND;
    };
    match refused_values(alloc, object, der) {
        Ok(values) => {
            put_rows(rows, values.as_slice());
            *count = values.len();
            OK
        }
        Err(_) => OUT_OF_MEMORY,
    }
}

/// The name of a rule, by its number; `unknown` where none has it.
#[tactic(auto, using(crate::proofs::Rules::rule_words))]
fn word_of_rule(rule: u32) -> &'static str
    ensures is { result.now ≡ rule_word rule }
    ensures same { (r : Rule) → rule_number r ≡ rule → result.now ≡ leniency_word r }
{
    match rule {
        1 => "bytes_behind",
        2 => "wrapper_by_number",
        3 => "any_serial",
        4 => "basic_truth",
        5 => "unreadable_field",
        6 => "attribute_by_numbers",
        7 => "choice_by_number",
        8 => "unreadable_name",
        9 => "timestamps_behind",
        10 => "inside",
        _ => "unknown",
    }
}

/// The name of a lenient rule, as a text of C in memory of the caller: as much as has room. Gives the length of the whole.
#[unsafe(no_mangle)]
pub extern "C" fn rtv_rule_word(rule: u32, text: &mut [u8]) -> usize
    ensures length { result ≡ length (rule_word rule) }
    ensures text { HoldsText text.new (rule_word rule) }
    ensures same { (r : Rule) → rule_number r ≡ rule → HoldsText text.new (leniency_word r) }
{
    put_text(word_of_rule(rule).as_bytes(), text)
}
