//! Values in one plain text, as the answers of x509_probe show them: bytes and texts in hex, every public field and window.
//!
//! What a value says is told by its fields and accessors alone, so an answer shows what a user sees.

mod answer;
mod base;
mod certs;
mod extensions;
mod keys;
mod lists;
mod names;
mod requests;
mod usages;

pub use answer::Answer;
pub use base::{Octets, Show, Tells, Text, both, look_at, look_in, put_all, put_result, read_both};
pub use usages::Hasher;
