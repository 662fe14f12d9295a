//! Octets of a buffer.

/// A window of a buffer: `rtv_bytes` of rushtrivet.h.
#[repr(C)]
#[derive(Clone, Copy)]
pub struct OctetsRow<'a> {
    /// The octets.
    pub octets: &'a [u8],
}
