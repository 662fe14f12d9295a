//! The walk over extensions, of a certificate or of a list.

ghost use Rattle.std.specs.Prelude.{◌≡◌, [], ◌∷◌, map};
ghost use Rattle.std.specs.List.{flat_map};
ghost use Rattle.x509_extensions.specs.Extension.{extension_of};
ghost use Rattle.x509_fields.specs.Visits.{Walks};
ghost use Rattle.x509_visitors.specs.ExtensionEvents.{value_event, or_unknown, extension_events, extensions_events};
ghost use Rattle.x509_visitors.specs.ExtensionVisits.{event_of};

use crate::extension_visit::ExtensionVisit;
use x509_extensions::X509Extension;
use x509_fields::X509Error;

/// Takes the visits of extensions that stand in a structure `S`.
pub(crate) trait ExtensionVisits<S> {
    ghost use Rattle.std.specs.Prelude.{◌≡◌, Bool};
    ghost use Rattle.x509_fields.specs.Visits.{Visited};
    ghost use Rattle.x509_visitors.specs.ExtensionEvents.{Event};
    ghost use Rattle.x509_visitors.specs.ExtensionVisits.{event_of};

    // which visits there are in the structure
    ghost has_visit: { Event → Bool };

    // a visit with this value may take the first state to the second, with this answer
    ghost extension_step: { Self → Event → Visited → Self → Type 0 };

    /// Whether there is such a visit in the structure.
    fn has_visit(visit: &ExtensionVisit<'_, '_>) -> bool
        ensures { result ≡ has_visit (event_of visit.now) };

    /// Takes one visit.
    fn visit_extensions(&mut self, visit: ExtensionVisit<'_, '_>) -> Result<(), X509Error>
        ensures { extension_step self.old (event_of visit.entry) result self.new };
}

/// The extensions together, each of them, and all of them once more.
#[tactic(auto, using(x509_fields::proofs::Walking::walking), unfolding(crate::specs::ExtensionEvents::extensions_events, crate::specs::ExtensionVisits::event_of))]
pub(crate) fn walk_extensions<S, V: ExtensionVisits<S>>(
    extensions: &[X509Extension<'_>],
    visitor: &mut V,
) -> Result<(), X509Error>
    ensures { Walks V.extension_step visitor.old (extensions_events V.has_visit (map extension_of extensions.now)) result visitor.new }
{
    visit_one(ExtensionVisit::PreExtensions(extensions), visitor)?;
    walk_each(extensions, visitor)?;
    visit_one(ExtensionVisit::PostExtensions(extensions), visitor)
}

// Makes one visit.
#[tactic(auto, using(x509_fields::proofs::Walking::walking))]
fn visit_one<S, V: ExtensionVisits<S>>(
    visit: ExtensionVisit<'_, '_>,
    visitor: &mut V,
) -> Result<(), X509Error>
    ensures { Walks V.extension_step visitor.old (event_of visit.entry ∷ []) result visitor.new }
{
    visitor.visit_extensions(visit)
}

// Each extension, in order.
#[tactic(auto, using(x509_fields::proofs::Walking::walking))]
fn walk_each<S, V: ExtensionVisits<S>>(
    extensions: &[X509Extension<'_>],
    visitor: &mut V,
) -> Result<(), X509Error>
    ensures { Walks V.extension_step visitor.old (flat_map (extension_events V.has_visit) (map extension_of extensions.now)) result visitor.new }
{
    for extension in extensions {
        walk_extension(extension, visitor)?;
    }
    Ok(())
}

// An extension, and then what its value says.
#[tactic(auto, using(x509_fields::proofs::Walking::walking), unfolding(crate::specs::ExtensionEvents::extension_events, crate::specs::ExtensionVisits::event_of))]
fn walk_extension<S, V: ExtensionVisits<S>>(
    extension: &X509Extension<'_>,
    visitor: &mut V,
) -> Result<(), X509Error>
    ensures { Walks V.extension_step visitor.old (extension_events V.has_visit (extension_of extension.now)) result visitor.new }
{
    visit_one(ExtensionVisit::Extension(extension), visitor)?;
    visit_one(value_visit::<S, V>(extension), visitor)
}

// The visit of what the extension's value says; as an unknown extension, where there is no other in the structure.
#[tactic(auto, unfolding(crate::specs::ExtensionVisits::event_of))]
fn value_visit<'v, 'a, S, V: ExtensionVisits<S>>(
    extension: &'v X509Extension<'a>,
) -> ExtensionVisit<'v, 'a>
    ensures { event_of result ≡ or_unknown V.has_visit (extension_of extension.now)
        (value_event (extension_of extension.now) (extension_of extension.now).parsed) }
{
    let visit = ExtensionVisit::of_value(extension);
    if V::has_visit(&visit) {
        visit
    } else {
        ExtensionVisit::Unknown(extension)
    }
}
