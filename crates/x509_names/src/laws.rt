//! What dotted texts say.

ghost use Rattle.std.specs.Prelude.{◌≡◌, ◌↔◌, ℕ, List, None};
ghost use Rattle.x509_names.specs.Arcs.{IsDottedText};
ghost use Rattle.x509_names.specs.DottedParsing.{IsShownAs};
ghost use Rattle.x509_names.specs.DottedRefusals.{refusal};

/// The laws of dotted text: a text names an identifier exactly where it is not refused, and never two; and it names the one that an
/// `Oid` in dotted form is shown as. The body is empty: the contract is what is proved.
pub const fn dotted_laws()
    ensures named { (text : List ℕ) → (refusal text ≡ None) ↔ ((octets : List ℕ) × IsDottedText text octets) }
    ensures one { (text octets others : List ℕ) → IsDottedText text octets → IsDottedText text others → octets ≡ others }
    ensures shown { (text octets : List ℕ) → IsDottedText text octets ↔ IsShownAs octets text }
{}
