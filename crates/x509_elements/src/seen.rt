//! The element at the front of a window, and what stands in it.

ghost use Rattle.std.specs.Prelude.{◌≡◌, ◌+◌, IfSome, length, option_map};
ghost use Rattle.x509_elements.specs.Seen.{begins_element, begins_sequence, front_contents, holds_sequence, is_one, seen, seen_of};

use x509_der::{Header, Tries, read_header_loose};

/// The element at the front of a window.
#[derive(Clone, Copy, Debug)]
pub(crate) struct Seen<'a> {
    /// Its header, the length in any octets.
    pub(crate) header: Header,
    /// How many octets its header has.
    pub(crate) size: usize,
    /// Its contents, as far as they are there.
    pub(crate) contents: &'a [u8],
    /// What stands behind it.
    pub(crate) behind: &'a [u8],
}

/// The element at the front of a window; none where no header stands there.
#[tactic(auto, unfolding(crate::specs::Seen::seen))]
pub(crate) fn see(window: &[u8]) -> Option<Seen<'_>>
    ensures found { option_map seen_of result ≡ seen window.now }
    ensures sizes { IfSome result (λ s. s.size + length s.contents.now + length s.behind.now ≡ length window.now) }
{
    let Ok((rest, header)) = read_header_loose(&mut Tries::new(), window) else {
        return None;
    };
    let there = rest.len().min(header.length as usize);
    Some(Seen {
        header,
        size: window.len() - rest.len(),
        contents: &rest[..there],
        behind: &rest[there..],
    })
}

/// The contents of the element at the front, as far as they are there; none where no header stands there.
pub(crate) fn front_contents(octets: &[u8]) -> &[u8]
    ensures { result.now ≡ front_contents octets.now }
{
    match see(octets) {
        Some(seen) => seen.contents,
        None => &[],
    }
}

/// Whether these octets are one element.
pub(crate) fn is_one(octets: &[u8]) -> bool
    ensures { result ≡ is_one octets.now }
{
    match read_header_loose(&mut Tries::new(), octets) {
        Ok((contents, header)) => contents.len() == header.length as usize,
        Err(_) => false,
    }
}

/// Whether an element stands at the front of these octets, whole.
pub(crate) fn begins_element(octets: &[u8]) -> bool
    ensures { result ≡ begins_element octets.now }
{
    match read_header_loose(&mut Tries::new(), octets) {
        Ok((contents, header)) => header.length as usize <= contents.len(),
        Err(_) => false,
    }
}

/// Whether the octets begin with that of a SEQUENCE.
fn begins_sequence(octets: &[u8]) -> bool
    ensures { result ≡ begins_sequence octets.now }
{
    match octets {
        [first, ..] => *first == 0x30,
        [] => false,
    }
}

/// Whether these contents of a BIT STRING are whole octets that are a SEQUENCE.
pub(crate) fn holds_sequence(contents: &[u8]) -> bool
    ensures { result ≡ holds_sequence contents.now }
{
    match contents {
        [unused, octets @ ..] => *unused == 0 && begins_sequence(octets) && is_one(octets),
        [] => false,
    }
}
