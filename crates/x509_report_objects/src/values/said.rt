//! What a report says of a value, and of a list of values.

ghost use Rattle.std.specs.Prelude.{map, option_map};
ghost use Rattle.json.specs.Json as json;
ghost use Rattle.x509_der.specs.Promises.{option_view};
ghost use Rattle.x509_report_lines.specs.Says.{Says, SaysEach, SaysUnder, list_of, optional};

use crate::values::under::null_under;
use x509_der::Sequence;
use x509_report_lines::Line;

/// What a report says of a value.
pub trait Said {
    /// What a value is, without where it lies in memory.
    ghost Value: { Type 0 };

    ghost view: { Self → Value };

    /// The report of a value.
    ghost report: { Value → json.Json };

    /// Writes the report of the value.
    fn say(&self, out: &mut Line)
        ensures { Says out.old out.new (report (view self.now)) };
}

/// The values of a list, one after another.
fn say_each<T: Said>(out: &mut Line, values: &[T])
    ensures { SaysEach out.old out.new T.report (map T.view values.now) }
{
    for value in values {
        value.say(out);
    }
}

/// A list.
#[tactic(auto, using(x509_report_lines::proofs::Written::list_written))]
pub fn say_list<T: Said>(out: &mut Line, values: &[T])
    ensures { Says out.old out.new (list_of T.report (map T.view values.now)) }
{
    out.begin_array();
    say_each(out, values);
    out.end_array();
}

/// A value under a key.
pub fn value_under<T: Said>(out: &mut Line, key: &str, value: &T)
    ensures { SaysUnder out.old out.new key.now (T.report (T.view value.now)) }
{
    out.key(key);
    value.say(out);
}

/// A list under a key.
pub fn list_under<T: Said>(out: &mut Line, key: &str, values: &[T])
    ensures { SaysUnder out.old out.new key.now (list_of T.report (map T.view values.now)) }
{
    out.key(key);
    say_list(out, values);
}

/// A list that may be absent, under a key.
pub fn optional_list_under<T: Said>(out: &mut Line, key: &str, values: &Option<Sequence<T>>)
    ensures { SaysUnder out.old out.new key.now (optional (list_of T.report) (option_view (map T.view) values.now)) }
{
    match values {
        Some(values) => list_under(out, key, values.as_slice()),
        None => null_under(out, key),
    }
}

/// A value that may be absent, under a key.
pub fn optional_under<T: Said>(out: &mut Line, key: &str, value: &Option<T>)
    ensures { SaysUnder out.old out.new key.now (optional T.report (option_map T.view value.now)) }
{
    out.key(key);
    match value {
        Some(value) => value.say(out),
        None => out.null(),
    }
}
