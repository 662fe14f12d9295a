//! The walk down the parts of an object that don't stand plainly.

ghost use Rattle.std.specs.Prelude.{◌≡◌, ◌+◌, ◌++◌, ◌<◌, ◌≤◌, ◌^◌, MatchResult, OnOk, ⊤, length};
ghost use Rattle.x509_elements.specs.Cursors.{called_of};
ghost use Rattle.x509_elements.specs.Seen.{seen_of};
ghost use Rattle.x509_elements.specs.Judgements.{part_judged};
ghost use Rattle.x509_elements.specs.declared.judged.Judged.TheVariants.{Lenient, Plain};
ghost use Rattle.x509_elements.specs.Uses.{among, behind_of, closes, contents_of, inside, is_wrapper, leniencies};
ghost use Rattle.x509_elements.specs.Uses.{one_use, own_rule, uses_by, part_rule, rule_of, told, unless, unread_rule};

use crate::cursor::{Called, Cursor};
use crate::judged::{Judged, is_absent, is_leaf, is_name, judge, judge_part};
use crate::leniency::{Leniency, LenientUse};
use crate::part::Part;
use crate::seen::{Seen, see};
use crate::value::ExtensionValue;
use std::alloc::{AllocError, Global};
use x509_der::{Class, Header, Tries, read_header};

/// How many parts of an object stand in one another at most.
const DEEPEST: usize = 32;

/// Whether a part is a wrapper, or an alternative of a point's name, whose reader takes all octets that are left of its structure, whatever
/// its length says.
fn is_wrapper(part: Part) -> bool
    ensures { result ≡ is_wrapper part }
{
    matches!(
        part,
        Part::TaggedExtensions | Part::Attributes | Part::FullName | Part::RelativeToIssuer
    )
}

/// Whether this is the header of a constructed element of context class that ends with these octets.
fn closes(header: &Header, left: usize) -> bool
    ensures { result ≡ closes header.now left }
{
    matches!(header.class, Class::ContextSpecific)
        && header.constructed
        && left == header.length as usize
}

/// This rule, unless the element stands plainly.
fn unless(plain: bool, rule: Leniency) -> Option<Leniency>
    ensures { result ≡ unless plain rule }
{
    if plain { None } else { Some(rule) }
}

/// The octets in which the members of a part stand.
fn contents_of<'a>(part: Part, place: &'a [u8], seen: &Seen<'a>) -> &'a [u8]
    requires { seen.now.size ≤ length place.now }
    ensures { result.now ≡ contents_of part place.now (seen_of seen.now) }
{
    if is_wrapper(part) {
        &place[seen.size..]
    } else if is_leaf(part) {
        &[]
    } else {
        seen.contents
    }
}

/// What stands behind a part.
fn behind_of<'a>(part: Part, seen: &Seen<'a>) -> &'a [u8]
    ensures { result.now ≡ behind_of part (seen_of seen.now) }
{
    if is_wrapper(part) { &[] } else { seen.behind }
}

/// The lenient rule by which the element itself is taken as this part, whatever stands in it.
fn own_rule(part: Part, place: &[u8], seen: &Seen<'_>) -> Option<Leniency>
    requires { seen.now.size ≤ length place.now }
    ensures { result ≡ own_rule part place.now (seen_of seen.now) }
{
    let header = &seen.header;
    match part {
        Part::TaggedExtensions | Part::Attributes => unless(
            closes(header, place.len() - seen.size),
            Leniency::WrapperByNumber,
        ),
        Part::FullName | Part::RelativeToIssuer => unless(
            closes(header, place.len() - seen.size),
            Leniency::ChoiceByNumber,
        ),
        Part::Attribute => unless(
            read_header(&mut Tries::new(), place).is_ok(),
            Leniency::AttributeByNumbers,
        ),
        Part::Values | Part::Passwords | Part::RequestedExtensions => {
            let is_set = matches!(header.class, Class::Universal)
                && header.constructed
                && header.tag.0 == 17;
            unless(is_set, Leniency::AttributeByNumbers)
        }
        _ => None,
    }
}

/// The rule of a part that its reader takes by one, where no rule is told of what stands in it.
fn part_rule(part: Part) -> Leniency
    ensures { result ≡ part_rule part }
{
    match part {
        Part::Serial => Leniency::AnySerial,
        Part::Critical => Leniency::BasicTruth,
        Part::DistributionPointName => Leniency::ChoiceByNumber,
        Part::Value(ExtensionValue::TimestampList) => Leniency::TimestampsBehind,
        Part::Attribute => Leniency::BytesBehind,
        _ => Leniency::Inside,
    }
}

/// The rule by which a member is passed over that can't be read; none for a Name, as the general name around it is told.
fn unread_rule(called: &Called) -> Option<Leniency>
    ensures { result ≡ unread_rule (called_of called.now) }
{
    match (called.number, called.part) {
        (Some(_), _) | (None, Part::Unknown | Part::Unread) => Some(Leniency::BytesBehind),
        (None, Part::Name) => None,
        (None, _) => Some(Leniency::UnreadableField),
    }
}

/// The rule of a member of such a part that is called so and is taken by one, where no rule is told of what stands in it.
fn rule_of(around: Part, called: &Called) -> Leniency
    ensures { result ≡ rule_of around (called_of called.now) }
{
    if is_name(around, called.name) {
        Leniency::UnreadableName
    } else {
        part_rule(called.part)
    }
}

/// Puts a rule behind those found so far, at this octet.
fn add(uses: &mut Vec<LenientUse>, rule: Leniency, at: usize) -> Result<(), AllocError>
    ensures { OnOk result (uses.new.items ≡ uses.old.items ++ one_use rule at) }
{
    uses.push(LenientUse { at, rule })?;
    Ok(())
}

/// Puts this rule there, if it is one.
fn add_by(uses: &mut Vec<LenientUse>, rule: Option<Leniency>, at: usize) -> Result<(), AllocError>
    ensures { OnOk result (uses.new.items ≡ uses.old.items ++ uses_by rule at) }
{
    match rule {
        Some(rule) => add(uses, rule, at),
        None => Ok(()),
    }
}

/// Puts the rule there by which the element itself is taken as this part, if there is one.
fn add_own(
    part: Part,
    place: &[u8],
    seen: &Seen<'_>,
    uses: &mut Vec<LenientUse>,
    at: usize,
) -> Result<(), AllocError>
    requires { seen.now.size ≤ length place.now }
    ensures { OnOk result (uses.new.items ≡ uses.old.items ++ uses_by (own_rule part place.now (seen_of seen.now)) at) }
{
    add_by(uses, own_rule(part, place, seen), at)
}

/// Puts the rules behind those found so far that are used inside the element at the front of a place, which is this part and stands behind
/// so many octets of the object: as deep as so many parts that stand in one another.
#[cycle(walking)]
fn look_inside(
    alloc: Global,
    depth: usize,
    part: Part,
    at: usize,
    place: &[u8],
    uses: &mut Vec<LenientUse>,
) -> Result<(), AllocError>
    requires { at + length place.now < 2 ^ 64 }
    ensures { OnOk result (uses.new.items ≡ uses.old.items ++ inside depth part at place.now) }
{
    if depth == 0 {
        return Ok(());
    }
    let Some(element) = see(place) else {
        return Ok(());
    };
    add_own(part, place, &element, uses, at)?;
    let members = contents_of(part, place, &element);
    look_at_members(
        alloc,
        depth - 1,
        part,
        place,
        at + element.size,
        members,
        uses,
    )
}

/// Puts the rules there that are used among the members of such an element, which stand behind so many octets of the object.
#[cycle(walking)]
fn look_at_members(
    alloc: Global,
    depth: usize,
    part: Part,
    place: &[u8],
    at: usize,
    members: &[u8],
    uses: &mut Vec<LenientUse>,
) -> Result<(), AllocError>
    requires { at + length members.now < 2 ^ 64 }
    ensures { OnOk result (uses.new.items ≡ uses.old.items ++ among depth part place.now at members.now) }
{
    let mut cursor = Cursor::of(part);
    let mut left = members;
    let mut next = at;
    for _ in 0..members.len() {
        if left.is_empty() {
            break;
        }
        let Some(member) = see(left) else {
            return add(uses, Leniency::BytesBehind, next);
        };
        let (called, behind) = cursor.step(&member.header, member.contents);
        let judged = judge(alloc, &called, part, place, left)?;
        if is_absent(judged) {
            return add_by(uses, unread_rule(&called), next);
        }
        let rule = rule_of(part, &called);
        tell(alloc, depth, called.part, rule, judged, next, left, uses)?;
        cursor = behind;
        next += member.size + member.contents.len();
        left = behind_of(called.part, &member);
    }
    Ok(())
}

/// Puts the rules there that a part uses which stands so, its own where no rule is told of what stands in it.
#[cycle(walking)]
fn tell(
    alloc: Global,
    depth: usize,
    part: Part,
    rule: Leniency,
    judged: Judged,
    at: usize,
    place: &[u8],
    uses: &mut Vec<LenientUse>,
) -> Result<(), AllocError>
    requires { at + length place.now < 2 ^ 64 }
    ensures { OnOk result (uses.new.items ≡ uses.old.items ++ told rule judged at (inside depth part at place.now)) }
{
    match judged {
        Judged::Absent | Judged::Plain => Ok(()),
        Judged::Unjudged => look_inside(alloc, depth, part, at, place, uses),
        Judged::Lenient => {
            let before = uses.len();
            look_inside(alloc, depth, part, at, place, uses)?;
            if uses.len() > before {
                return Ok(());
            }
            add(uses, rule, at)?;
            Ok(())
        }
    }
}

/// The lenient rules that the object of this kind at the front of the octets uses, in the order of its octets, each with its octet; none
/// exactly where its reader takes it plainly, as a strict reader does, and where it takes none.
///
/// # Errors
///
/// `AllocError`.
pub fn leniencies(alloc: Global, object: Part, octets: &[u8]) -> Result<Vec<LenientUse>, AllocError>
    ensures exact { MatchResult result (λ uses. uses.items ≡ leniencies object octets.now) (λ _. ⊤) }
    // One at least where the reader takes the object and a strict one refuses it, and none where both take it.
    ensures some { MatchResult result (λ uses. part_judged object octets.now octets.now ≡ Lenient → 0 < length uses.items) (λ _. ⊤) }
    ensures none { MatchResult result (λ uses. part_judged object octets.now octets.now ≡ Plain → length uses.items ≡ 0) (λ _. ⊤) }
{
    let mut uses = Vec::new(alloc);
    let judged = judge_part(alloc, object, octets, octets)?;
    let rule = part_rule(object);
    tell(alloc, DEEPEST, object, rule, judged, 0, octets, &mut uses)?;
    Ok(uses)
}
