//! Civil date-times with an offset from UTC, as UTCTime and GeneralizedTime spell them (X.680, sections 47 and 46; RFC 5280,
//! section 4.1.2.5): what their octets say, their instants and their text. It stands on the core of jiff alone.
#![tactic(auto)]

mod laws;
mod offset_date_time;
mod spelling;
mod text;

pub use laws::spelling_laws;
pub use offset_date_time::OffsetDateTime;
pub use spelling::{generalized_time, utc_time};
pub use text::{Rfc2822, Rfc3339};
