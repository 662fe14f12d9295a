//! The readers of X.509 for C (include/rushtrivet.h): certificates, lists of revoked certificates, requests, and the values in them.
//!
//! Each export reads one buffer and answers a status: 0, or the number of a refusal, whose octet it tells. What it found goes into
//! structs and rows of the caller's, whose windows lie in that buffer; with any other status than 0 they are as they were. Nothing is
//! kept between two calls, and all memory that a call takes is given back before it returns.
#![tactic(auto)]

mod authorities;
mod certificate;
mod distribution_points;
mod entries;
mod entry_extensions;
mod extensions;
mod field_path;
mod findings;
mod general_names;
mod index;
mod issuing_point;
mod keys;
mod list_values;
mod lists;
mod name_constraints;
mod names;
mod netscape;
mod octets;
mod oid_words;
mod options;
mod policy_rules;
mod report;
mod requests;
mod row_writer;
mod signature_kind;
mod status;
mod text;
mod times;
mod timestamps;
mod validation;
mod values;
mod version;
