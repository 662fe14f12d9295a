//! What identifiers are called.

ghost use Rattle.std.specs.Prelude.{◌≡◌, Some};
ghost use Rattle.x509_names.specs.Full.{known_in_full};
ghost use Rattle.x509_c.specs.OidWords.{TellsEntry};

use crate::status::{NOT_FOUND, OK, OUT_OF_MEMORY};
use crate::text::put_text;
use std::alloc::Global;
use x509_der::Oid;
use x509_names::registry_full;

/// Writes what the registry calls the identifier with these contents: its short name, as `commonName`, and its description; 50 where it
/// has no entry.
#[unsafe(no_mangle)]
pub extern "C" fn rtv_oid_word(
    alloc: Global,
    oid: &[u8],
    name: &mut [u8],
    name_length: &mut usize,
    description: &mut [u8],
    description_length: &mut usize,
) -> u32
    ensures { TellsEntry (known_in_full oid.now) name.new name_length.new description.new description_length.new
        ((name.new ≡ name.old) × (name_length.new ≡ name_length.old) × (description.new ≡ description.old) ×
        (description_length.new ≡ description_length.old)) result }
{
    match registry_full(alloc) {
        Ok(registry) => match registry.get(&Oid::new(oid)) {
            Some(entry) => {
                *name_length = put_text(entry.sn().as_bytes(), name);
                *description_length = put_text(entry.description().as_bytes(), description);
                OK
            }
            None => NOT_FOUND,
        },
        Err(_) => OUT_OF_MEMORY,
    }
}
