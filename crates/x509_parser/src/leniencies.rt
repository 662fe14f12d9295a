//! The lenient rules that an object uses, which a strict reader refuses.

pub use x509_elements::{Leniency, LenientUse, StrictRefusal, leniencies};
