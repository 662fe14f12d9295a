//! The values of an object's extensions that can't be read, and where in the object. It knows no signed structure but by the names of its
//! fields.

mod finding;
mod reading;
mod refused_value;
mod value;

pub use finding::refused_values;
pub use refused_value::RefusedValue;
