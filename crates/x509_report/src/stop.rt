//! Why a report ends in the middle.

/// Why a report ends in the middle.
#[derive(Clone, Copy, Debug, PartialEq, Eq)]
pub enum Stop {
    /// A write failed, or took no octet.
    Write,
    /// Memory was refused.
    Memory,
}

impl Stop {
    /// Why, in the words that standard error is told.
    pub fn why(self) -> &'static str {
        match self {
            Stop::Write => "standard output can't be written",
            Stop::Memory => "out of memory",
        }
    }
}
