//! What reports say of certificates, of lists of revoked certificates and their entries, of requests, and of the values in them.
#![tactic(auto)]

mod certificates;
mod errors;
mod extensions;
mod kind;
mod lenient;
mod lists;
mod objects;
mod refused_values;
mod requests;
mod summary;
mod values;

pub use certificates::certificate_members;
pub use kind::Kind;
pub use lists::{entry_line, first_parsed, list_members};
pub use objects::{Found, Wishes, failed_line, object_line, skipped_line};
pub use requests::request_members;
