//! The fields of a structure.

ghost use Rattle.std.specs.Prelude.{◌≡◌, drop, map, option_map};
ghost use Rattle.x509_elements.specs.Fields.{chosen, field, fits, is_each};

use crate::part::Part;
use x509_der::{Class, Header};

/// Which elements may stand as a field.
#[derive(Clone, Copy, Debug, PartialEq, Eq)]
pub enum Stands {
    /// Each: the field is never absent.
    Always,
    /// Each, and any number of them one behind another; they have numbers in place of names.
    Each,
    /// One of this number of X.680's own types.
    Universal(u32),
    /// One of context class with this number.
    Context(u32),
    /// One with this number, whatever its class.
    Number(u32),
    /// A UTCTime or a GeneralizedTime.
    Time,
}

/// A field: its name, empty where it has none, as what stands in an explicit tag; which elements stand as it; and what it is.
pub(crate) type Field = (&'static str, Stands, Part);

/// Whether any number of such a field stand one behind another.
pub(crate) fn is_each(stands: Stands) -> bool
    ensures { result ≡ is_each stands }
{
    matches!(stands, Stands::Each)
}

/// Whether an element with this header may stand as such a field.
pub(crate) fn fits(stands: Stands, header: &Header) -> bool
    ensures { result ≡ fits stands header.now }
{
    let number = header.tag.0;
    match stands {
        Stands::Always | Stands::Each => true,
        Stands::Universal(wanted) => matches!(header.class, Class::Universal) && number == wanted,
        Stands::Context(wanted) => {
            matches!(header.class, Class::ContextSpecific) && number == wanted
        }
        Stands::Number(wanted) => number == wanted,
        Stands::Time => matches!(header.class, Class::Universal) && (number == 23 || number == 24),
    }
}

/// Of the fields from a number on, the first that an element with this header may stand as, and the number of the first that may stand
/// behind it.
pub(crate) fn choose(
    fields: &'static [Field],
    from: usize,
    header: &Header,
) -> Option<(Field, usize)>
    ensures { option_map (λ c. (field c.0.0.now c.0.1 c.0.2, map (λ f. field f.0.now f.1 f.2) (drop c.1 fields.now))) result
        ≡ chosen (map (λ f. field f.0.now f.1 f.2) (drop from fields.now)) header.now }
{
    for k in from..fields.len() {
        let field = fields[k];
        if fits(field.1, header) {
            if is_each(field.1) {
                return Some((field, k));
            }
            return Some((field, k + 1));
        }
    }
    None
}
