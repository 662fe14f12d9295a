//! Lines of reports: a line of JSON, written a token at a time; the same for people; a line for each element of an object; all of these as
//! parts of a web page; and where the objects of a file stand, in PEM and DER. It may use x509_elements and the names of identifiers, names no
//! structure, and knows no file.
#![tactic(auto)]

mod blocks;
mod element_line;
mod elements;
mod escape;
mod flags;
pub mod html;
mod line;
mod page;
mod text;

pub use blocks::{Block, find_blocks};
pub use element_line::{push_called, push_cut, push_line, push_octets, push_tag, push_value};
pub use elements::split_elements;
pub use escape::push_escaped;
pub use flags::set_words_under;
pub use line::Line;
pub use page::lines_of_json;
pub use text::Text;
