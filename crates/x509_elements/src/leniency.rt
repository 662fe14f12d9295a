//! Lenient rules.

ghost use Rattle.std.specs.Prelude.{◌≡◌};
ghost use Rattle.x509_elements.specs.Words.{leniency_word};

/// A rule by which an object is taken that a strict reader refuses, by its name in docs/GRAMMAR.md ("Lenient rules").
#[derive(Clone, Copy, Debug, PartialEq, Eq)]
pub enum Leniency {
    /// Bytes behind the fields: what stands behind the last field of a structure, or behind the value in an extension or an attribute.
    BytesBehind,
    /// A wrapper by its number: that of extensions or of a request's attributes isn't a constructed element of context class that ends
    /// where its structure does (RFC 5280, sections 4.1.2.9 and 5.1.2.7; RFC 2986, section 4.1).
    WrapperByNumber,
    /// Any serial: it is no INTEGER in the fewest octets (RFC 5280, section 4.1.2.2; X.690, sections 8.3.2 and 10.1).
    AnySerial,
    /// A truth by the basic rules: `critical` is neither FF nor 00, or its length stands in more octets than it needs (X.690, sections 8.2,
    /// 10.1 and 11.1).
    BasicTruth,
    /// An unreadable field that may be absent: so it is passed over, and what stands behind it in its structure.
    UnreadableField,
    /// An attribute by its numbers: its length stands in more octets than it needs, or its values are no SET (X.690, section 10.1; RFC 2986,
    /// section 4.1).
    AttributeByNumbers,
    /// A choice by its number: the name of a distribution point isn't a constructed element of context class, or doesn't hold what follows
    /// (RFC 5280, section 4.2.1.13).
    ChoiceByNumber,
    /// An unreadable general name, which is told as `Invalid` (RFC 5280, section 4.2.1.6).
    UnreadableName,
    /// Timestamps behind a bad one, and other octets behind the run of timestamps or in one (RFC 6962, section 3.3).
    TimestampsBehind,
    /// One of these that the reader of this element uses inside it, at a place that isn't told.
    Inside,
}

impl Leniency {
    /// Its name in reports: `bytes_behind`, `wrapper_by_number`, `any_serial`, `basic_truth`, `unreadable_field`, `attribute_by_numbers`,
    /// `choice_by_number`, `unreadable_name`, `timestamps_behind`, `inside`.
    pub fn word(self) -> &'static str
        ensures { result.now ≡ leniency_word self }
    {
        match self {
            Leniency::BytesBehind => "bytes_behind",
            Leniency::WrapperByNumber => "wrapper_by_number",
            Leniency::AnySerial => "any_serial",
            Leniency::BasicTruth => "basic_truth",
            Leniency::UnreadableField => "unreadable_field",
            Leniency::AttributeByNumbers => "attribute_by_numbers",
            Leniency::ChoiceByNumber => "choice_by_number",
            Leniency::UnreadableName => "unreadable_name",
            Leniency::TimestampsBehind => "timestamps_behind",
            Leniency::Inside => "inside",
        }
    }
}

/// A rule that is used, and where.
#[derive(Clone, Copy, Debug, PartialEq, Eq)]
pub struct LenientUse {
    /// The octet, from 0, of the object.
    pub at: usize,
    /// The rule.
    pub rule: Leniency,
}
