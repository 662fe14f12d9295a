//! Validators, which tell a logger what is wrong with an item, and loggers.

pub use x509_validators::{
    CallbackLogger, ChainValidator, Logger, StderrLogger, TbsCertificateStructureValidator,
    Validate, Validator, VecLogger, X509CertificateValidator, X509ExtensionsValidator,
    X509NameStructureValidator, X509PublicKeyValidator, X509StructureValidator, chain,
    log_error_if, log_warning_if,
};
