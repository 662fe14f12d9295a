//! The elements of an object, of whatever reads it: what the standards' ASN.1 calls each, as a path of fields, and a line each; the values of
//! extensions that can't be read; the lenient rules that are used, each with its octet, and strict readers that tell the first. It may use
//! the readers of all structures.
#![tactic(auto)]

mod cursor;
mod field;
mod front;
mod judged;
mod leniency;
mod line;
mod lines;
mod member;
mod open;
mod part;
mod path;
mod refused;
mod seen;
mod slices;
mod strict;
mod told;
mod uses;
mod value;
mod walk;

pub use cursor::Called;
pub use leniency::{Leniency, LenientUse};
pub use line::{DumpLine, What};
pub use lines::DumpLines;
pub use part::Part;
pub use path::path_to;
pub use refused::{RefusedValue, refused_values};
pub use slices::{behind, first_of};
pub use strict::{
    StrictRefusal, parse_x509_certificate_strict_located, parse_x509_crl_entries_strict_located,
    parse_x509_crl_strict_located, parse_x509_csr_strict_located,
};
pub use uses::leniencies;
pub use value::ExtensionValue;
pub use walk::dump;
