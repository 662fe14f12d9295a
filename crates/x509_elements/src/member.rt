//! The member of a structure in which an octet lies.

ghost use Rattle.std.specs.Prelude.{◌≡◌, option_map};
ghost use Rattle.x509_elements.specs.Cursors.{first_of};
ghost use Rattle.x509_elements.specs.Paths.{find_in, is_field, lead, member_at, member_of};

use crate::cursor::{Called, Cursor};
use crate::part::Part;
use crate::seen::see;
use crate::slices::behind;

/// A member of a structure.
#[derive(Clone, Copy)]
pub(crate) struct Member<'a> {
    /// What it is called, and what it is.
    pub(crate) called: Called,
    /// The octets from its header on.
    pub(crate) window: &'a [u8],
    /// How many of them stand before the octet that is looked for.
    pub(crate) at: usize,
}

/// Whether an element is a field.
fn is_field(part: Part) -> bool
    ensures { result ≡ is_field part }
{
    !matches!(part, Part::Unknown)
}

/// The member of a part with these members in which the octet lies; none where it lies behind them, or in none that is a field.
fn find(part: Part, members: &[u8], octet: usize) -> Option<Member<'_>>
    ensures { option_map member_of result ≡ find_in (first_of part) members.now octet }
{
    let mut cursor = Cursor::of(part);
    let mut window = members;
    let mut at = octet;
    for _ in 0..members.len() {
        let Some(seen) = see(window) else {
            return None;
        };
        let (called, next) = cursor.step(&seen.header, seen.contents);
        if !is_field(called.part) {
            return None;
        }
        let size = window.len() - seen.behind.len();
        if at < size {
            return Some(Member { called, window, at });
        }
        cursor = next;
        window = seen.behind;
        at -= size;
    }
    None
}

/// How many octets of the contents stand before the first member: of bits the one that says how many are unused.
fn lead(part: Part) -> usize
    ensures { result ≡ lead part }
{
    match part {
        Part::RsaKeyBits => 1,
        _ => 0,
    }
}

/// The member of the element at the front of a window in which the octet lies; none where it lies before the members, or in no field.
pub(crate) fn member_at(part: Part, window: &[u8], at: usize) -> Option<Member<'_>>
    ensures { option_map member_of result ≡ member_at part window.now at }
{
    let Some(seen) = see(window) else {
        return None;
    };
    let lead = lead(part);
    if at < seen.size || at - seen.size < lead {
        return None;
    }
    find(part, behind(seen.contents, lead), at - seen.size - lead)
}
