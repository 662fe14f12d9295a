//! A line of a dump.

use crate::cursor::Called;
use x509_der::{BerError, Err, Header};

/// What a line tells.
#[derive(Clone, Copy, Debug)]
pub enum What {
    /// An element (X.690, section 8.1).
    Element {
        /// What it is, and how many octets its contents should have.
        header: Header,
        /// How many octets its header has.
        size: usize,
        /// How many octets of its contents are there: fewer than there should be where its container or the input ends before.
        there: usize,
    },
    /// Octets to the end of their container, at whose front no header can be read, and why.
    Refused(Err<BerError>),
}

/// A line of a dump.
#[derive(Clone, Copy, Debug)]
pub struct DumpLine<'a> {
    /// How many octets stand before it.
    pub offset: usize,
    /// In how many elements it stands.
    pub depth: usize,
    /// What it is called.
    pub called: Called,
    /// What it tells.
    pub what: What,
    /// The octets that no other line holds: of an element its header, and its contents where these are no elements with lines of their
    /// own. The lines that follow hold those of elements in it.
    pub octets: &'a [u8],
}
