//! What the octets of times spell, and what is read from them, are one thing.

ghost use Rattle.std.specs.Prelude.{◌≡◌, ◌↔◌, ℕ, List, Some};
ghost use Rattle.x509_times.specs.Moments.{Moment};
ghost use Rattle.x509_times.specs.Octets.{utc_moment, generalized_moment};
ghost use Rattle.x509_times.specs.Spelling.{SpellsUtc, SpellsGeneralized, utc_octets, generalized_octets, IsWhole, IsUtcYear, IsGeneralizedYear};

/// The laws of the octets of times: reading them from left to right gives exactly the moment that they spell, so they
/// spell at most one; and the usual spelling of a moment spells it. The body is empty: the contract is what is proved.
#[tactic(auto, using(crate::proofs::Spellings::spelling))]
pub const fn spelling_laws()
    ensures utc { (octets : List ℕ) (m : Moment) → (utc_moment octets ≡ Some m) ↔ SpellsUtc octets m }
    ensures generalized { (octets : List ℕ) (m : Moment) → (generalized_moment octets ≡ Some m) ↔ SpellsGeneralized octets m }
    ensures one_utc { (octets : List ℕ) (m n : Moment) → SpellsUtc octets m → SpellsUtc octets n → m ≡ n }
    ensures one_generalized { (octets : List ℕ) (m n : Moment) → SpellsGeneralized octets m → SpellsGeneralized octets n → m ≡ n }
    ensures usual_utc { (m : Moment) → IsWhole m → IsUtcYear m.year → SpellsUtc (utc_octets m) m }
    ensures usual_generalized { (m : Moment) → IsWhole m → IsGeneralizedYear m.year → SpellsGeneralized (generalized_octets m) m }
{}
