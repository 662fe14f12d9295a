//! Identifiers of keys.

ghost use Rattle.std.specs.Prelude.{List, ℕ, Some, codes};
ghost use Rattle.std.specs.Fmt.{DisplaysOnOk};
ghost use Rattle.x509_der.specs.Grammar.{in_primitive};
ghost use Rattle.x509_der.specs.Hex.{hex_text};
ghost use Rattle.x509_general_names.specs.KeyIdentifier.{key_identifier_of, key_identifier, key_identifier_laws};

use std::alloc::Global;
use std::fmt;
use x509_der::{FromDer, HexPairs, Outside, Place, Refused, Tries, converted};
use x509_fields::X509Error;

/// The identifier of a key (RFC 5280, section 4.2.1.2).
///
/// ```text
/// KeyIdentifier  ::=  OCTET STRING
/// ```
///
/// `LowerHex` shows its octets as pairs of hex digits with colons between them, as `01:02:ff`.
#[derive(Clone, Copy, Debug, PartialEq, Eq)]
pub struct KeyIdentifier<'a>(
    /// The octets, of which there may be none.
    pub &'a [u8],
);

/// An element that is no OCTET STRING is refused.
impl<'a> FromDer<'a, X509Error> for KeyIdentifier<'a> {
    ghost Value = { List ℕ };

    ghost view = { key_identifier_of };

    ghost grammar = { in_primitive 4 key_identifier key_identifier_laws };

    #[tactic(auto, unfolding(crate::specs::KeyIdentifier::key_identifier, x509_der::specs::Leaves::octets, x509_der::specs::Primitives::contents_at), using(x509_der::proofs::Marking::marks_of_readers))]
    fn read_at<L: Outside>(
        _alloc: Global,
        _tries: &mut Tries,
        place: &Place<'a, L>,
    ) -> Result<(Self, bool), Refused<X509Error, L>> {
        let octets = converted!(place.octets());
        Ok((KeyIdentifier(octets), true))
    }

    ghost never_memory = { key_identifier_laws.laws.never_memory };
}

impl fmt::LowerHex for KeyIdentifier<'_> {
    fn fmt<W: fmt::Write>(&self, f: &mut fmt::Formatter<W>) -> fmt::Result
        ensures { DisplaysOnOk W.write_str_gives f.old result (Some (hex_text (codes ":") (key_identifier_of self.now))) f.new }
    {
        let pairs = HexPairs {
            bytes: self.0,
            separator: ":",
        };
        write!(f, "{pairs}")
    }
}
