//! General names, and the values of extensions that hold them: alternative names, constraints, key identifiers of authorities, accesses
//! and distribution points (RFC 5280, sections 4.2 and 5.2). It may use x509_names and x509_fields.
#![tactic(auto)]

mod addresses;
mod alternative_names;
mod authority_key_identifier;
mod distribution_point_name;
mod distribution_points;
mod general_name;
mod implicit_bool;
mod implicit_names;
mod information_access;
mod issuing_distribution_point;
mod key_identifier;
mod laws;
mod name_constraints;
mod reason_flags;

pub use addresses::ip_address;
pub use alternative_names::{IssuerAlternativeName, SubjectAlternativeName};
pub use authority_key_identifier::AuthorityKeyIdentifier;
pub use distribution_point_name::DistributionPointName;
pub use distribution_points::{CRLDistributionPoint, CRLDistributionPoints};
pub use general_name::GeneralName;
pub use information_access::{
    AccessDescription, AccessIter, AuthorityInfoAccess, SubjectInfoAccess,
};
pub use issuing_distribution_point::IssuingDistributionPoint;
pub use key_identifier::KeyIdentifier;
pub use laws::grammar_laws;
pub use name_constraints::{GeneralSubtree, NameConstraints};
pub use reason_flags::ReasonFlags;
