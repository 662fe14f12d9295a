//! Elements of the distinguished encoding rules: headers, contents, and a count of the headers that were tried. It stands
//! on nothing but std, and knows no structure of X.509.
#![tactic(auto)]

mod any;
mod bit_string;
mod child;
mod children;
mod decimal;
mod error;
mod fields;
mod from_der;
mod front;
mod header;
mod hex;
mod integer;
mod laws;
mod list;
mod look;
mod oid;
mod outside;
mod place;
mod primitive;
mod reader;
mod run;
mod set_of;
mod tries;
mod unsigned;
mod window;

pub use any::Any;
pub use bit_string::BitString;
pub use child::{Child, Stop};
pub use children::{Children, Elements};
pub use error::{BerError, Err, ErrorKind, Located, ReadError, Refused};
pub use fields::Fields;
pub use from_der::FromDer;
pub use front::{
    read_any, read_any_loose, read_bits, read_bool, read_bool_loose, read_enumerated,
    read_explicit, read_header, read_header_loose, read_ia5, read_implicit, read_implicit_bits,
    read_integer, read_octets, read_oid, read_sequence, read_set, read_u32, read_unsigned,
    read_utf8,
};
pub use header::{Class, Header, Tag};
pub use hex::HexPairs;
pub use integer::Integer;
pub use laws::{cut_laws, leaf_laws, oid_laws};
pub use list::Sequence;
pub use oid::Oid;
pub use outside::{Nowhere, Outside};
pub use place::Place;
pub use reader::{OfType, Reader};
pub use run::{read_run, read_run1, read_to_end};
pub use set_of::{SetOf, read_set_of};
pub use tries::Tries;
pub use unsigned::UnsignedBytes;
pub use window::Window;
