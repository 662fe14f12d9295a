//! Tables of identifiers.

ghost use Rattle.std.specs.Prelude.{◌≡◌, map};
ghost use Rattle.x509_keys.specs.Rows.{value_in};

/// The contents of an identifier, and what belongs to it.
pub(crate) type Row<T> = (&'static [u8], T);

/// What belongs to the identifier with these contents.
pub(crate) fn find_value<T: Copy>(rows: &[(&'static [u8], T)], octets: &[u8]) -> Option<T>
    ensures { result ≡ value_in (map (λ r. (r.0.now, r.1)) rows.now) octets.now }
{
    for (row_octets, value) in rows {
        if *row_octets == octets {
            return Some(*value);
        }
    }
    None
}
