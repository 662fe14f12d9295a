//! What reports say of the values in certificates, lists and requests.

mod addresses;
mod algorithms;
mod authorities;
mod bit_names;
mod general_names;
mod identifiers;
mod keys;
mod names;
mod said;
mod times;
mod timestamps;
mod under;
mod usages;

pub use addresses::address_text;
pub use identifiers::oid_members;
pub use keys::say_key;
pub use said::{Said, list_under, optional_list_under, optional_under, say_list, value_under};
pub use under::{
    count_under, fingerprint_under, hex_under, null_under, optional_count_under,
    optional_hex_under, optional_size_under, optional_text_under, say_hex, shown_under, text_under,
    truth_under,
};
