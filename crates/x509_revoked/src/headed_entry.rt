//! Entries by where they begin, with the heads of their serials.

/// Where an entry begins in the octets of its list, and the head of its serial.
#[derive(Clone, Copy, Debug)]
pub(crate) struct HeadedEntry {
    pub(crate) head: u64,
    pub(crate) offset: u32,
}
