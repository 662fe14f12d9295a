//! Validators of certificates and of their parts, which tell a logger what is wrong with them beyond their grammar; loggers, and chains
//! of validators. It may use the certificates and what they are made of.
#![tactic(auto)]

mod alternative_names;
mod callback_logger;
mod certificate;
mod chained;
mod charset;
mod duplicates;
mod extensions;
mod logger;
mod name;
mod one_call;
mod public_key;
mod readings;
mod rule;
mod serial;
mod stderr_logger;
mod structure;
mod times;
mod validate;
mod validator;
mod vec_logger;
mod versions;

pub use callback_logger::CallbackLogger;
pub use certificate::X509CertificateValidator;
pub use chained::{ChainValidator, chain};
pub use extensions::X509ExtensionsValidator;
pub use logger::{Logger, log_error_if, log_warning_if};
pub use name::X509NameStructureValidator;
pub use one_call::{validate_by, validate_to_vec};
pub use public_key::X509PublicKeyValidator;
pub use stderr_logger::StderrLogger;
pub use structure::{TbsCertificateStructureValidator, X509StructureValidator};
pub use validate::Validate;
pub use validator::Validator;
pub use vec_logger::VecLogger;
