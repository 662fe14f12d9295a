//! Addresses of hosts as text.

ghost use Rattle.std.specs.Prelude.{◌≡◌, IfOk, option_map, string_bytes};
ghost use Rattle.x509_report_objects.specs.Addresses.{address_text, host_text, with_mask};

use std::alloc::{AllocError, Global};
use x509_general_names::ip_address;

/// The address with four or sixteen octets.
fn host_text(alloc: Global, octets: &[u8]) -> Result<Option<String>, AllocError>
    ensures { IfOk result (λ t. option_map string_bytes t ≡ host_text octets.now) }
{
    match ip_address(octets) {
        Some(ip) => Ok(Some(format!(in alloc; "{ip}")?)),
        None => Ok(None),
    }
}

/// An address and its mask.
fn with_mask(
    alloc: Global,
    address: Option<String>,
    mask: Option<String>,
) -> Result<Option<String>, AllocError>
    ensures { IfOk result (λ t. option_map string_bytes t ≡ with_mask (option_map string_bytes address) (option_map string_bytes mask)) }
{
    match (address, mask) {
        (Some(address), Some(mask)) => Ok(Some(format!(in alloc; "{address}/{mask}")?)),
        _ => Ok(None),
    }
}

/// The text of an address: `192.0.2.1` of four octets, `2001:db8::1` of sixteen, `192.0.2.0/255.255.255.0` of eight, which are an
/// address and its mask, and the same of thirty-two. None of any other number of octets. The only error is want of memory.
#[tactic(auto, unfolding(crate::specs::Addresses::address_text))]
pub fn address_text(alloc: Global, octets: &[u8]) -> Result<Option<String>, AllocError>
    ensures { IfOk result (λ t. option_map string_bytes t ≡ address_text octets.now) }
{
    let half = match octets.len() {
        8 => 4,
        32 => 16,
        _ => return host_text(alloc, octets),
    };
    let address = host_text(alloc, &octets[..half])?;
    let mask = host_text(alloc, &octets[half..])?;
    with_mask(alloc, address, mask)
}
