//! What reports say of general names.

ghost use Rattle.std.specs.Prelude.{◌++◌, ◌∷◌, [], option_map, string_bytes};
ghost use Rattle.x509_general_names.specs.GeneralName.{GeneralNameValue, general_name_of};
ghost use Rattle.x509_general_names.specs.NameConstraints.{Constraints, constraints_of, subtree_of};
ghost use Rattle.x509_report_lines.specs.Says.{SaysMembers};
ghost use Rattle.x509_report_objects.specs.Addresses.{address_text};
ghost use Rattle.x509_report_objects.specs.GeneralNames.{octets as hex_member, address_members, general_name_members, general_name_report};
ghost use Rattle.x509_report_objects.specs.GeneralNames.{name_constraints_report};

use crate::values::addresses::address_text;
use crate::values::names::lossy_text_under;
use crate::values::said::{Said, optional_list_under, value_under};
use crate::values::under::{count_under, hex_under, shown_under, text_under};
use x509_general_names::{GeneralName, GeneralSubtree, NameConstraints};
use x509_report_lines::Line;

/// The text of an address, where its octets have one.
fn address_members(out: &mut Line, text: &Option<String>)
    ensures { SaysMembers out.old out.new (address_members (option_map string_bytes text.now)) }
{
    match text {
        Some(text) => text_under(out, "value", text),
        None => {}
    }
}

/// An address as text, and its octets.
fn say_address(out: &mut Line, octets: &[u8])
    ensures { SaysMembers out.old out.new (address_members (address_text octets.now) ++ hex_member octets.now ∷ []) }
{
    match address_text(out.alloc(), octets) {
        Ok(text) => address_members(out, &text),
        Err(_) => out.stop(),
    }
    hex_under(out, "hex", octets);
}

/// Its type and what stands in it.
fn say_members(out: &mut Line, name: &GeneralName<'_>)
    ensures { SaysMembers out.old out.new (general_name_members (general_name_of name.now)) }
{
    match name {
        GeneralName::OtherName(id, value) => {
            text_under(out, "type", "other_name");
            shown_under(out, "oid", id);
            hex_under(out, "hex", value);
        }
        GeneralName::RFC822Name(text) => {
            text_under(out, "type", "rfc822_name");
            text_under(out, "value", text);
        }
        GeneralName::DNSName(text) => {
            text_under(out, "type", "dns_name");
            text_under(out, "value", text);
        }
        GeneralName::X400Address(any) => {
            text_under(out, "type", "x400_address");
            hex_under(out, "hex", any.as_bytes());
        }
        GeneralName::DirectoryName(name) => {
            text_under(out, "type", "directory_name");
            lossy_text_under(out, "value", name);
            value_under(out, "name", name);
        }
        GeneralName::EDIPartyName(any) => {
            text_under(out, "type", "edi_party_name");
            hex_under(out, "hex", any.as_bytes());
        }
        GeneralName::URI(text) => {
            text_under(out, "type", "uri");
            text_under(out, "value", text);
        }
        GeneralName::IPAddress(octets) => {
            text_under(out, "type", "ip_address");
            say_address(out, octets);
        }
        GeneralName::RegisteredID(id) => {
            text_under(out, "type", "registered_id");
            shown_under(out, "value", id);
        }
        GeneralName::Invalid(tag, octets) => {
            text_under(out, "type", "invalid");
            count_under(out, "tag", u64::from(tag.0));
            hex_under(out, "hex", octets);
        }
    }
}

impl Said for GeneralName<'_> {
    ghost Value = { GeneralNameValue };

    ghost view = { general_name_of };

    ghost report = { general_name_report };

    #[tactic(auto, unfolding(crate::specs::GeneralNames::general_name_report))]
    fn say(&self, out: &mut Line) {
        out.begin_object();
        say_members(out, self);
        out.end_object();
    }
}

impl Said for GeneralSubtree<'_> {
    ghost Value = { GeneralNameValue };

    ghost view = { subtree_of };

    ghost report = { general_name_report };

    fn say(&self, out: &mut Line) {
        self.base.say(out);
    }
}

impl Said for NameConstraints<'_> {
    ghost Value = { Constraints };

    ghost view = { constraints_of };

    ghost report = { name_constraints_report };

    #[tactic(auto, unfolding(crate::specs::GeneralNames::name_constraints_report))]
    fn say(&self, out: &mut Line) {
        out.begin_object();
        optional_list_under(out, "permitted", &self.permitted_subtrees);
        optional_list_under(out, "excluded", &self.excluded_subtrees);
        out.end_object();
    }
}
