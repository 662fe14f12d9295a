//! The path of names to an octet.

ghost use Rattle.std.specs.Prelude.{◌≡◌, [], MatchResult, OnOk, string_bytes, ⊤};
ghost use Rattle.x509_elements.specs.Cursors.{called_of};
ghost use Rattle.x509_elements.specs.Paths.{deepest, dotted, named, numbered, path};

use crate::cursor::Called;
use crate::member::member_at;
use crate::part::Part;
use std::alloc::{AllocError, Global};

/// How many members a path has at most.
const DEEPEST: usize = 16;

/// Adds a name behind a point; nothing where there is no name.
fn put_name(text: &mut String, name: &str) -> Result<(), AllocError>
    ensures { OnOk result (string_bytes text.new ≡ dotted (string_bytes text.old) name.now) }
{
    if name.is_empty() {
        return Ok(());
    }
    if !text.is_empty() {
        text.push_str(".")?;
    }
    text.push_str(name)
}

/// Adds the number of a member of a list.
fn put_number(text: &mut String, number: Option<usize>) -> Result<(), AllocError>
    ensures { OnOk result (string_bytes text.new ≡ numbered (string_bytes text.old) number) }
{
    match number {
        Some(number) => write!(text, "[{number}]"),
        None => Ok(()),
    }
}

/// Adds what a member is called.
fn put_called(text: &mut String, called: &Called) -> Result<(), AllocError>
    ensures { OnOk result (string_bytes text.new ≡ named (string_bytes text.old) (called_of called.now)) }
{
    put_name(text, called.name)?;
    put_number(text, called.number)?;
    put_name(text, called.alternative)
}

/// The names that lead to an octet, from 0, of the object of this kind at the front of the octets, as
/// `tbsCertificate.extensions[3].extnValue.basicConstraints.cA`: those of the innermost member that has the octet in its header or in its
/// contents, and of all around it. Members of a list have numbers from 0, alternatives of a choice their own name behind that. What an
/// extension's value is its identifier tells, and so of keys, of requested extensions and of notices. Empty where the octet lies in no
/// member of the object.
///
/// # Errors
///
/// `AllocError`.
pub fn path_to(
    alloc: Global,
    object: Part,
    octets: &[u8],
    octet: usize,
) -> Result<String, AllocError>
    ensures { MatchResult result (λ text. string_bytes text ≡ path deepest object octets.now octet []) (λ _. ⊤) }
{
    let mut text = String::new(alloc);
    let mut part = object;
    let mut window = octets;
    let mut at = octet;
    for _ in 0..DEEPEST {
        let Some(found) = member_at(part, window, at) else {
            break;
        };
        put_called(&mut text, &found.called)?;
        part = found.called.part;
        window = found.window;
        at = found.at;
    }
    Ok(text)
}
