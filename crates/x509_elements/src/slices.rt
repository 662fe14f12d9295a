//! Parts of slices.

ghost use Rattle.std.specs.Prelude.{◌≡◌, drop, take};

/// The first values, so many where there are more.
pub fn first_of<T>(values: &[T], count: usize) -> &[T]
    ensures { result.now ≡ take count values.now }
{
    &values[..count.min(values.len())]
}

/// The values behind the first ones; none where there are no more than so many.
pub fn behind<T>(values: &[T], count: usize) -> &[T]
    ensures { result.now ≡ drop count values.now }
{
    values.get(count..).unwrap_or(&[])
}
