//! Elements that are open.

use crate::cursor::Cursor;

/// An element that is open: where it ends, and where reading stands among its members.
#[derive(Clone, Copy, Debug)]
pub(crate) struct Open {
    pub(crate) end: usize,
    pub(crate) cursor: Cursor,
}
