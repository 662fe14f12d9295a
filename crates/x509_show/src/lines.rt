//! Lines of reports.

ghost use Rattle.std.specs.Prelude.{◌≡◌, ◌++◌, IfSome, OnOk, flat_map, map, string_bytes};
ghost use Rattle.x509_extensions.specs.Extension.{extension_of};
ghost use Rattle.x509_show.specs.Lines.{critical_word, line, extension_line};

use std::alloc::AllocError;
use std::fmt;
use x509_extensions::X509Extension;

/// Adds a line: a label, a colon and a space, what the value shows, and a newline.
#[tactic(auto, unfolding(crate::specs::Lines::line))]
pub fn push_line<T: fmt::Display>(
    text: &mut String,
    label: &str,
    value: &T,
) -> Result<(), AllocError>
    ensures { OnOk result (IfSome (T.output value.now) (λ shown. string_bytes text.new ≡ string_bytes text.old ++ line label.now shown)) }
{
    writeln!(text, "{label}: {value}")
}

/// Whether an extension is critical, in a word.
fn critical_word(critical: bool) -> &'static str
    ensures { result.now ≡ critical_word critical }
{
    if critical { "critical" } else { "normal" }
}

/// Adds the line of an extension.
fn push_extension(text: &mut String, extension: &X509Extension<'_>) -> Result<(), AllocError>
    ensures { OnOk result (string_bytes text.new ≡ string_bytes text.old ++ extension_line (extension_of extension.now)) }
{
    let (oid, critical) = (&extension.oid, critical_word(extension.critical));
    let length = extension.value.len();
    push_line(
        text,
        "extension",
        &format_args!("{oid} {critical} {length}"),
    )
}

/// Adds the line of each extension.
pub fn push_extensions(
    text: &mut String,
    extensions: &[X509Extension<'_>],
) -> Result<(), AllocError>
    ensures { OnOk result (string_bytes text.new ≡ string_bytes text.old ++ flat_map extension_line (map extension_of extensions.now)) }
{
    for extension in extensions {
        push_extension(text, extension)?;
    }
    Ok(())
}
