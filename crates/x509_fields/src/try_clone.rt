//! Copies of values that hold lists.

ghost use Rattle.std.specs.Prelude.{◌≡◌, MatchResult};
ghost use Rattle.x509_fields.specs.declared.error.X509Error.TheVariants.{OutOfMemory};

use crate::error::X509Error;
use x509_der::Sequence;

/// What can be copied, where memory may be wanting.
pub trait TryClone: Drop {
    /// The same value, with lists in memory of their own: one request for memory for each list that has members.
    ///
    /// # Errors
    ///
    /// `OutOfMemory` where one of these requests is refused.
    fn try_clone(&self) -> Result<Self, X509Error>
        ensures copies { MatchResult result (λ copy. copy ≡ self.now) (λ e. e ≡ OutOfMemory) };
}

impl<T: TryClone> TryClone for Option<T> {
    fn try_clone(&self) -> Result<Self, X509Error> {
        match self {
            Some(value) => Ok(Some(value.try_clone()?)),
            None => Ok(None),
        }
    }
}

impl<T: TryClone> TryClone for Sequence<T> {
    fn try_clone(&self) -> Result<Self, X509Error> {
        let members = self.as_slice();
        let mut copies = Vec::with_capacity(self.allocator(), members.len())?;
        for member in members {
            let copy = member.try_clone()?;
            if copies.push(copy).is_err() {
                return Err(X509Error::OutOfMemory);
            }
        }
        Ok(Sequence::from_vec(copies))
    }
}
