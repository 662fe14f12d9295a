//! The names of the bits that are set.

ghost use Rattle.std.specs.Prelude.{◌≡◌, map};
ghost use Rattle.std.specs.Iterator.{YieldsFirstBy, item_count};
ghost use Rattle.x509_fields.specs.BitNames.{names_left};
ghost use Rattle.x509_fields.specs.Texts.{set_names};

/// The names of the bits that are set, in rising order.
#[derive(Clone, Copy, Debug, Drop)]
pub struct BitNames {
    names: &'static [&'static str],
    flags: u16,
}

impl BitNames {
    /// Of these names, the first of which is that of bit 0, those of the bits that are set. Bit k counts 2 to the power of k, and a bit
    /// behind the last name has none.
    pub fn new(names: &'static [&'static str], flags: u16) -> BitNames
        ensures { names_left result ≡ set_names (map (λ name. name.now) names.now) flags }
    {
        BitNames { names, flags }
    }
}

impl Iterator for BitNames {
    type Item = &'static str;

    ghost next_gives = { YieldsFirstBy (λ name. name.now) names_left };

    ghost remaining = { item_count names_left };

    #[tactic(auto, unfolding(crate::specs::Texts::set_names))]
    fn next(&mut self) -> Option<&'static str> {
        while let [name, names @ ..] = self.names {
            let is_set = self.flags % 2 == 1;
            self.names = names;
            self.flags /= 2;
            if is_set {
                return Some(name);
            }
        }
        None
    }
}
