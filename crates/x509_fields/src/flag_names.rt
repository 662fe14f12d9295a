//! The text of named bits.

ghost use Rattle.std.specs.Prelude.{Some, map};
ghost use Rattle.std.specs.Fmt.{DisplaysOnOk};
ghost use Rattle.x509_fields.specs.Texts.{flags_text};

use std::fmt;

/// Bits that are shown as the names of those that are set, in rising order with `, ` between them.
#[derive(Clone, Copy, Debug)]
pub struct FlagNames<'a> {
    /// The name of each bit, from bit 0 on. A bit behind the last name is not shown.
    pub names: &'a [&'a str],
    /// The bits, of which bit k counts 2 to the power of k.
    pub flags: u16,
}

impl fmt::Display for FlagNames<'_> {
    ghost output = { λ shown. Some (flags_text (map (λ name. name.now) shown.names.now) shown.flags) };

    fn fmt<W: fmt::Write>(&self, f: &mut fmt::Formatter<W>) -> fmt::Result {
        write_names(self.names, self.flags, f)
    }
}

fn write_names<W: fmt::Write>(names: &[&str], flags: u16, f: &mut fmt::Formatter<W>) -> fmt::Result
    ensures { DisplaysOnOk W.write_str_gives f.old result (Some (flags_text (map (λ name. name.now) names.now) flags)) f.new }
{
    let mut rest = flags;
    let mut separator = "";
    for name in names {
        if rest % 2 == 1 {
            f.write_str(separator)?;
            f.write_str(name)?;
            separator = ", ";
        }
        rest /= 2;
    }
    Ok(())
}
