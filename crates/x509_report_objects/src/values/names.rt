//! What reports say of names.

ghost use Rattle.std.specs.Prelude.{List};
ghost use Rattle.json.specs.Json as json;
ghost use Rattle.x509_names.specs.NameTexts.{lossy_name_text};
ghost use Rattle.x509_names.specs.Objects.{registered_name};
ghost use Rattle.x509_names.specs.Names.{Attribute, Name, attribute_of, relative_name_of, name_of, string_in};
ghost use Rattle.x509_report_lines.specs.Says.{Says, SaysEach, SaysMembers, SaysUnder, list_of};
ghost use Rattle.x509_report_objects.specs.Names.{attribute_report, relative_name_report, name_report, value_members};

use crate::values::identifiers::oid_members;
use crate::values::said::Said;
use crate::values::under::{count_under, hex_under, null_under, text_under};
use x509_names::{AttributeTypeAndValue, RelativeDistinguishedName, X509Name};
use x509_report_lines::Line;

/// The value of an attribute: its text, or its octets where it isn't one.
fn say_value(out: &mut Line, attribute: &AttributeTypeAndValue<'_>)
    ensures { SaysMembers out.old out.new
        (value_members (string_in (attribute_of attribute.now).attr_value) (attribute_of attribute.now).attr_value.contents) }
{
    match attribute.as_str() {
        Ok(text) => {
            text_under(out, "value", text);
            null_under(out, "hex");
        }
        Err(_) => {
            null_under(out, "value");
            hex_under(out, "hex", attribute.as_slice());
        }
    }
}

impl Said for AttributeTypeAndValue<'_> {
    ghost Value = { Attribute };

    ghost view = { attribute_of };

    ghost report = { attribute_report };

    #[tactic(auto, unfolding(crate::specs::Names::attribute_report))]
    fn say(&self, out: &mut Line) {
        out.begin_object();
        oid_members(out, self.attr_type());
        count_under(out, "tag", u64::from(self.attr_value().tag().0));
        say_value(out, self);
        out.end_object();
    }
}

/// The attributes of a relative name, one after another.
fn say_attributes(out: &mut Line, name: &RelativeDistinguishedName<'_>)
    ensures { SaysEach out.old out.new attribute_report (relative_name_of name.now) }
{
    for attribute in name.iter() {
        attribute.say(out);
    }
}

impl Said for RelativeDistinguishedName<'_> {
    ghost Value = { List Attribute };

    ghost view = { relative_name_of };

    ghost report = { relative_name_report };

    #[tactic(auto, using(x509_report_lines::proofs::Written::list_written), unfolding(crate::specs::Names::relative_name_report))]
    fn say(&self, out: &mut Line) {
        out.begin_array();
        say_attributes(out, self);
        out.end_array();
    }
}

/// The relative names of a name, one after another.
fn say_relative_names(out: &mut Line, name: &X509Name<'_>)
    ensures { SaysEach out.old out.new relative_name_report (name_of name.now).relative }
{
    for relative in name.iter_rdn() {
        relative.say(out);
    }
}

/// The relative names of a name.
#[tactic(auto, using(x509_report_lines::proofs::Written::list_written))]
fn say_list_of_relative_names(out: &mut Line, name: &X509Name<'_>)
    ensures { Says out.old out.new (list_of relative_name_report (name_of name.now).relative) }
{
    out.begin_array();
    say_relative_names(out, name);
    out.end_array();
}

/// The text of a name under a key; what of it is no text, in hex.
pub fn lossy_text_under(out: &mut Line, key: &str, name: &X509Name<'_>)
    ensures { SaysUnder out.old out.new key.now (json.string (lossy_name_text registered_name (name_of name.now))) }
{
    match name.to_text_lossy(out.alloc()) {
        Ok(text) => text_under(out, key, &text),
        Err(_) => out.stop(),
    }
}

impl Said for X509Name<'_> {
    ghost Value = { Name };

    ghost view = { name_of };

    ghost report = { name_report };

    #[tactic(auto, unfolding(crate::specs::Names::name_report))]
    fn say(&self, out: &mut Line) {
        out.begin_object();
        lossy_text_under(out, "text", self);
        out.key("rdns");
        say_list_of_relative_names(out, self);
        hex_under(out, "der", self.as_raw());
        out.end_object();
    }
}
