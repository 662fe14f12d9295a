//! Reports and dumps as parts of a web page, of which every text is escaped: the members of a report and the elements of an object, which
//! fold, its octets in hex, and what stands around all of them. It knows no structure and no file.

mod element;
mod escape;
mod octets;
mod report;
mod sheet;

pub use element::{push_closings, push_element, push_mark};
pub use escape::push_html;
pub use octets::push_octets;
pub use report::report_of_json;
pub use sheet::{FOOT, HEAD};
