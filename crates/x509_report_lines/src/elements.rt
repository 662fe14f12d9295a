//! The elements of a file that stand one behind another.

ghost use Rattle.std.specs.Prelude.{◌≡◌, ◌<◌, ◌≤◌, ◌++◌, IfOk, IfSome, flat_map, length, map};
ghost use Rattle.x509_report_lines.specs.Elements.{IsSplit, size_of};

use std::alloc::{AllocError, Global};
use x509_der::{Tries, read_any};

/// How many octets the element at the front has, where one stands there.
#[tactic(auto, unfolding(crate::specs::Elements::size_of))]
fn element_size(bytes: &[u8]) -> Option<usize>
    ensures size { result ≡ size_of bytes.now }
    ensures within { IfSome result (λ size. (0 < size) × (size ≤ length bytes.now)) }
{
    match read_any(&mut Tries::new(), bytes) {
        Ok((behind, _)) => Some(bytes.len() - behind.len()),
        Err(_) => None,
    }
}

/// The elements at the front, one behind another, and what is left behind the last that is whole. Nothing is lost.
pub fn split_elements<'a>(
    alloc: Global,
    bytes: &'a [u8],
) -> Result<(Vec<&'a [u8]>, &'a [u8]), AllocError>
    ensures split { IfOk result (λ r. IsSplit bytes.now (map (λ w. w.now) r.0.items) r.1.now) }
    ensures whole { IfOk result (λ r. flat_map (λ w. w.now) r.0.items ++ r.1.now ≡ bytes.now) }
{
    let mut found = Vec::new(alloc);
    let mut rest = bytes;
    'elements: while let Some(size) = element_size(rest) {
        found.push(&rest[..size])?;
        rest = &rest[size..];
    }
    Ok((found, rest))
}
