//! Look-ups of serials on a list of revoked certificates (RFC 5280, section 5), in a few comparisons. It may use
//! x509_lists.
#![tactic(auto)]

mod beginnings;
mod entries_index;
mod entry;
mod headed_entry;
mod headed_serial;
mod index;
mod index_error;
mod index_file;
mod ordered;
mod search;
mod serial_order;

pub use entries_index::EntriesIndex;
pub use index::RevocationIndex;
pub use index_error::IndexError;
