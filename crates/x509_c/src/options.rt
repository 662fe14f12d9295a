//! What may be absent, as numbers.

ghost use Rattle.std.specs.Prelude.{◌≡◌};
ghost use Rattle.x509_c.specs.Options.{is_there, there_or};

/// 1 where a value is there, and else 0.
pub(crate) fn is_some<T>(value: &Option<T>) -> u32
    ensures { result ≡ is_there value.now }
{
    match value {
        Some(_) => 1,
        None => 0,
    }
}

/// A number, or 0 where none is there.
pub(crate) fn or_zero(number: Option<u32>) -> u32
    ensures { result ≡ there_or 0 number }
{
    match number {
        Some(number) => number,
        None => 0,
    }
}
