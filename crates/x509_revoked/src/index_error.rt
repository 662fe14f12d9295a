//! Why there is no index over the octets of a list.

use thiserror::Error;

/// Why an index over the octets of a list wasn't built, written or read back.
#[derive(Clone, Copy, Debug, Drop, Eq, Error, PartialEq)]
pub enum IndexError {
    /// Memory is wanting.
    #[error("out of memory")]
    OutOfMemory,
    /// The entries take 4 GiB or more, so their offsets don't fit four octets.
    #[error("the list is too long for an index")]
    TooLong,
    /// The octets end before the index does.
    #[error("cut short")]
    CutShort,
    /// The octets don't begin as an index.
    #[error("not an index")]
    NotAnIndex,
    /// The octets are an index in another version of the form.
    #[error("another version")]
    OtherVersion,
    /// The index is of a list of another length, or of another count of entries.
    #[error("of another list")]
    OtherList,
    /// Octets stand behind the index.
    #[error("octets behind the index")]
    TrailingOctets,
    /// The offsets aren't those at which the entries of the list begin.
    #[error("not where the entries begin")]
    NotTheEntries,
    /// The offsets aren't in the order of the serials.
    #[error("not in order")]
    NotInOrder,
}
