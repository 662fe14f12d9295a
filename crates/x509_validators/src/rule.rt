//! Rules as rows of a table: how much one matters, whether an item breaks it, and what is told then.

ghost use Rattle.std.specs.Prelude.{◌≡◌, ◌++◌, map};
ghost use Rattle.x509_validators.specs.Message.{Validates};
ghost use Rattle.x509_validators.specs.Rules.{error_where, row_message, row_of, text_of, told, warning_where};

use crate::logger::{Logger, log_error_if, log_warning_if};
use std::alloc::Global;
use std::fmt;
use x509_fields::X509Error;

/// How much a rule matters.
#[derive(Clone, Copy, Debug)]
pub(crate) enum Level {
    /// The item is usable nonetheless.
    Warning,
    /// It isn't.
    Error,
}

/// What is told of a rule that is broken.
#[derive(Clone, Copy, Debug)]
pub(crate) enum Text<'a> {
    /// This text.
    Plain(&'a str),
    /// A name between two texts.
    Naming(&'a str, &'a str, &'a str),
}

impl fmt::Display for Text<'_> {
    ghost use Rattle.std.specs.Prelude.{Some};

    ghost output = { λ text. Some (text_of text) };

    fn fmt<W: fmt::Write>(&self, f: &mut fmt::Formatter<W>) -> fmt::Result {
        match self {
            Text::Plain(text) => f.write_str(text),
            Text::Naming(before, name, behind) => write!(f, "{before}{name}{behind}"),
        }
    }
}

/// A rule, and whether an item breaks it.
#[derive(Clone, Copy, Debug)]
pub(crate) struct Rule<'a> {
    level: Level,
    broken: bool,
    text: Text<'a>,
}

/// A rule that is an error where it is broken.
pub(crate) fn error_where<'a>(broken: bool, text: &'a str) -> Rule<'a>
    ensures { row_of result ≡ error_where broken text.now }
{
    Rule {
        level: Level::Error,
        broken,
        text: Text::Plain(text),
    }
}

/// A rule that is a warning where it is broken.
pub(crate) fn warning_where<'a>(broken: bool, text: &'a str) -> Rule<'a>
    ensures { row_of result ≡ warning_where broken text.now }
{
    Rule {
        level: Level::Warning,
        broken,
        text: Text::Plain(text),
    }
}

/// The same of a field, whose name stands between two texts.
pub(crate) fn field_warning_where<'a>(
    broken: bool,
    before: &'a str,
    name: &'a str,
    behind: &'a str,
) -> Rule<'a>
    ensures { row_of result ≡ warning_where broken (before.now ++ name.now ++ behind.now) }
{
    Rule {
        level: Level::Warning,
        broken,
        text: Text::Naming(before, name, behind),
    }
}

/// Logs each rule that is broken, in order; its text is made only then.
///
/// # Errors
///
/// `OutOfMemory` where there is none for a text, and the logger's own errors.
#[tactic(auto, using(crate::proofs::Viewed::viewed))]
pub(crate) fn log_broken<L: Logger>(
    alloc: Global,
    rules: &[Rule<'_>],
    logger: &mut L,
) -> Result<(), X509Error>
    requires { L.can_log logger.old }
    ensures { Validates L.can_log L.step logger.old (told (map row_of rules.now)) tt result logger.new }
{
    for rule in rules {
        log_rule(alloc, rule, logger)?;
    }
    Ok(())
}

fn log_rule<L: Logger>(alloc: Global, rule: &Rule<'_>, logger: &mut L) -> Result<(), X509Error>
    requires { L.can_log logger.old }
    ensures { Validates L.can_log L.step logger.old (row_message (row_of rule.now)) tt result logger.new }
{
    match rule.level {
        Level::Warning => log_warning_if(alloc, logger, rule.broken, rule.text),
        Level::Error => log_error_if(alloc, logger, rule.broken, rule.text),
    }
}
