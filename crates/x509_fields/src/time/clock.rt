//! Clocks.

ghost use Rattle.std.specs.Prelude.{ℤ, ⊤};

/// What tells the time. It is handed in where the time of day is asked for.
pub trait Clock {
    /// A clock in the first state may say that many seconds and be left in the second; what a clock that keeps no such relation
    /// says is open.
    ghost says: { Self → ℤ → Self → Type 0 } = { λ _ _ _. ⊤ };

    /// The whole seconds since 1970-01-01T00:00:00Z; below zero before it.
    fn seconds(&mut self) -> i64
        ensures { says self.old result self.new };
}
