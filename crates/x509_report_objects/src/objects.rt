//! The line of an object, whatever it is.

ghost use Rattle.std.specs.Prelude.{◌≡◌, ◌∷◌, [], length, None, IfOk, OnOk, option_map};
ghost use Rattle.json.specs.Json.{array, string};
ghost use Rattle.x509_report_lines.specs.Says.{Says, SaysEach, SaysMembers, SaysUnder, SaysWhole, count, items_of, list_of as array_of, optional};
ghost use Rattle.x509_report_objects.specs.Objects.{all_tried, attempt_members, attempt_report, failed_report, found_members, is_strict};
ghost use Rattle.x509_report_objects.specs.Objects.{is_wanted, object_report, object_told, octet_of, refusal_report, skipped_report, standing_members};
ghost use Rattle.x509_report_objects.specs.Objects.{told, told_of, tried_by, tried_report};
ghost use Rattle.x509_report_objects.specs.Places.{octets_members, place_members};
ghost use Rattle.x509_report_objects.specs.Leniencies.{first_uses};
ghost use Rattle.x509_report_objects.specs.Attempts.{Attempts, found_of, refused_of, tried_of, wishes_of};

use crate::errors::refusal_name;
use crate::kind::{Kind, Reported};
use crate::lenient::{leniencies_under, uses_under, uses_unless};
use crate::refused_values::{refused_under, some_text};
use crate::values::{
    count_under, fingerprint_under, null_under, optional_text_under, text_under, truth_under,
};
use std::alloc::AllocError;
use x509_certs::X509Certificate;
use x509_der::{Err, Located};
use x509_elements::{LenientUse, Part, path_to};
use x509_fields::X509Error;
use x509_lists::CertificateRevocationList;
use x509_report_lines::Line;
use x509_requests::X509CertificationRequest;

/// Where an object was found.
#[derive(Clone, Copy, Debug)]
pub struct Found<'a> {
    /// The file; `-` is standard input.
    pub file: &'a str,
    /// Which object of the file it is, from 0.
    pub index: u64,
    /// Its first octet in the file; of PEM, that of its BEGIN line.
    pub offset: u64,
    /// The label of its PEM block.
    pub label: Option<&'a str>,
}

/// What is wanted of a report.
#[derive(Clone, Copy, Debug)]
pub struct Wishes {
    /// Whether an object may be a certificate.
    pub certificates: bool,
    /// Whether it may be a list of revoked certificates.
    pub lists: bool,
    /// Whether it may be a request.
    pub requests: bool,
    /// Whether only objects are taken that need no lenient rule.
    pub strict: bool,
    /// Whether SHA-256 fingerprints are told.
    pub fingerprints: bool,
}

impl Wishes {
    /// Whether an object may be of this kind.
    fn wants(&self, kind: Kind) -> bool
        ensures { result ≡ is_wanted (wishes_of self.now) kind }
    {
        match kind {
            Kind::Certificate => self.certificates,
            Kind::List => self.lists,
            Kind::Request => self.requests,
        }
    }
}

/// The octets that were tried, those behind the object, whether it stands plainly, and whether a value of its extensions is refused.
#[derive(Clone, Copy)]
struct Seen<'a> {
    octets: &'a [u8],
    rest: &'a [u8],
    plain: bool,
    refused: bool,
}

/// What a reader says of whom only plain objects are wanted, where one isn't.
const NOT_PLAIN: Located<X509Error> = Located {
    why: Err::Error(X509Error::Generic),
    at: 0,
};

/// What came of a reader: it took the object, or it didn't, with its refusal where it was tried.
#[derive(Clone, Copy)]
enum Attempt {
    Taken,
    Left(Option<Located<X509Error>>),
}

/// Of each kind, why its reader refuses where it was tried.
#[derive(Clone, Copy)]
struct Tried {
    certificate: Option<Located<X509Error>>,
    list: Option<Located<X509Error>>,
    request: Option<Located<X509Error>>,
}

/// How many octets there are, under a key.
pub(crate) fn size_under(out: &mut Line, key: &str, octets: &[u8])
    ensures { SaysUnder out.old out.new key.now (count (length octets.now)) }
{
    count_under(out, key, octets.len() as u64);
}

/// What kind of line it is, and where the object was found.
pub(crate) fn say_place(out: &mut Line, kind: &str, place: &Found<'_>)
    ensures { SaysMembers out.old out.new (place_members kind.now (found_of place.now)) }
{
    count_under(out, "report", 1);
    text_under(out, "kind", kind);
    text_under(out, "file", place.file);
    count_under(out, "index", place.index);
    count_under(out, "offset", place.offset);
}

/// The label of its PEM block, under a key.
fn label_under(out: &mut Line, key: &str, place: &Found<'_>)
    ensures { SaysUnder out.old out.new key.now (optional string (found_of place.now).label) }
{
    optional_text_under(out, key, place.label);
}

/// The octets that were tried.
fn say_octets(out: &mut Line, fingerprints: bool, place: &Found<'_>, octets: &[u8])
    ensures { SaysMembers out.old out.new (octets_members fingerprints (found_of place.now) octets.now) }
{
    label_under(out, "label", place);
    size_under(out, "length", octets);
    fingerprint_under(out, "sha256", fingerprints, octets);
}

/// Whether the object stands plainly, and how many octets stand behind it.
fn say_standing(out: &mut Line, plain: bool, rest: &[u8])
    ensures { SaysMembers out.old out.new (standing_members plain rest.now) }
{
    truth_under(out, "strict", plain);
    size_under(out, "behind", rest);
}

/// The values of its extensions that can't be read, and the lenient rules that it uses.
fn say_found(out: &mut Line, part: Part, seen: &Seen<'_>)
    ensures { SaysMembers out.old out.new (found_members seen.now.plain seen.now.refused part seen.now.octets.now) }
{
    refused_under(out, "refused_values", seen.refused, part, seen.octets);
    leniencies_under(out, "leniencies", seen.plain, part, seen.octets);
}

/// The report of an object.
#[tactic(auto, unfolding(crate::specs::Objects::object_report), using(crate::proofs::Members::members_end))]
fn say_object<'a, T: Reported<'a>>(
    out: &mut Line,
    wishes: &Wishes,
    place: &Found<'_>,
    seen: &Seen<'_>,
    object: &T,
)
    ensures { Says out.old out.new (object_report T.telling.kind (wishes_of wishes.now) (found_of place.now) seen.now.octets.now
        seen.now.plain seen.now.refused seen.now.rest.now (T.telling.members wishes.now.fingerprints (T.view object.now))) }
{
    let kind = T::kind();
    out.begin_object();
    say_place(out, kind.word(), place);
    say_octets(out, wishes.fingerprints, place, seen.octets);
    say_standing(out, seen.plain, seen.rest);
    object.say_members(out, wishes.fingerprints);
    say_found(out, kind.part(), seen);
    out.end_object();
}

/// The object of this kind, where it may be one and is.
fn try_as<'a, T: Reported<'a>>(
    out: &mut Line,
    wishes: &Wishes,
    place: &Found<'_>,
    octets: &'a [u8],
) -> Result<Attempt, AllocError>
    ensures { IfOk result (λ a. Attempts (is_wanted (wishes_of wishes.now) T.telling.kind)
        (told T.telling (wishes_of wishes.now) (found_of place.now) octets.now (T.telling.field.read octets.now)) out.old out.new a) }
{
    if !wishes.wants(T::kind()) {
        return Ok(Attempt::Left(None));
    }
    match T::read(out.alloc(), octets) {
        Ok((rest, object, plain)) => {
            if wishes.strict && !plain {
                return Ok(Attempt::Left(Some(NOT_PLAIN)));
            }
            let seen = Seen {
                octets,
                rest,
                plain,
                refused: object.refuses(),
            };
            say_object(out, wishes, place, &seen, &object);
            Ok(Attempt::Taken)
        }
        Err(refusal) => if refusal.why.is_out_of_memory() {
            Err(AllocError)
        } else {
            Ok(Attempt::Left(Some(refusal)))
        },
    }
}

/// The octet at which a reader refuses, under a key; null where no reader was asked.
fn octet_under(out: &mut Line, key: &str, at: Option<usize>)
    ensures { SaysUnder out.old out.new key.now (optional count at) }
{
    match at {
        Some(at) => count_under(out, key, at as u64),
        None => null_under(out, key),
    }
}

/// What was tried, why it failed, at which octet, and the path that leads there.
fn say_attempt(
    out: &mut Line,
    kind: &str,
    error: Option<&str>,
    word: &str,
    at: Option<usize>,
    path: Option<&str>,
)
    ensures { SaysMembers out.old out.new
        (attempt_members kind.now (option_map (λ s. s.now) error.entry) word.now at (option_map (λ s. s.now) path.entry)) }
{
    text_under(out, "kind", kind);
    optional_text_under(out, "error", error);
    text_under(out, "word", word);
    octet_under(out, "at", at);
    optional_text_under(out, "path", path);
}

/// Whether this is a refusal of what a strict reader alone doesn't take.
fn is_strict(why: &Err<X509Error>) -> bool
    ensures { result ≡ is_strict why.now }
{
    matches!(why, Err::Error(X509Error::Generic))
}

/// The octet of the first rule that was needed, or else that of the refusal.
fn octet_of(at: usize, uses: &[LenientUse]) -> usize
    ensures { result ≡ octet_of at uses.now }
{
    match uses {
        [first, ..] => first.at,
        [] => at,
    }
}

/// A reader that was tried, why it refuses, at which octet, and the rules that were needed.
fn say_reasons(
    out: &mut Line,
    octets: &[u8],
    kind: Kind,
    why: &Err<X509Error>,
    at: usize,
    uses: &[LenientUse],
)
    ensures { Says out.old out.new (told_of octets.now kind why.now uses.now at) }
{
    let part = kind.part();
    match path_to(out.alloc(), part, octets, at) {
        Ok(path) => {
            let error = Some(refusal_name(why));
            let path = some_text(path.as_str());
            out.begin_object();
            say_attempt(out, kind.word(), error, why.word(), Some(at), path);
            uses_under(out, "leniencies", part, octets, uses);
            out.end_object();
        }
        Err(_) => out.stop(),
    }
}

/// A reader that was tried, where it was, and why it refuses.
fn say_refused(out: &mut Line, octets: &[u8], kind: Kind, refusal: Option<Located<X509Error>>)
    ensures { SaysEach out.old out.new (tried_report octets.now) (tried_by kind (option_map refused_of refusal)) }
{
    if let Some(Located { why, at }) = refusal {
        match uses_unless(out.alloc(), !is_strict(&why), kind.part(), octets) {
            Ok(uses) => {
                let at = octet_of(at, uses.as_slice());
                say_reasons(out, octets, kind, &why, at, uses.as_slice());
            }
            Err(_) => out.stop(),
        }
    }
}

/// The readers that were tried, one after another.
#[tactic(auto, using(crate::proofs::Attempted::each_of_three))]
fn say_tried(out: &mut Line, octets: &[u8], tried: &Tried)
    ensures { SaysEach out.old out.new (tried_report octets.now) (all_tried (tried_of tried.now)) }
{
    say_refused(out, octets, Kind::Certificate, tried.certificate);
    say_refused(out, octets, Kind::List, tried.list);
    say_refused(out, octets, Kind::Request, tried.request);
}

/// What was tried in vain, under a key.
#[tactic(auto, using(x509_report_lines::proofs::Written::list_written))]
fn tried_under(out: &mut Line, key: &str, octets: &[u8], tried: &Tried)
    ensures { SaysUnder out.old out.new key.now (array_of (tried_report octets.now) (all_tried (tried_of tried.now))) }
{
    out.key(key);
    out.begin_array();
    say_tried(out, octets, tried);
    out.end_array();
}

/// That no reader takes the object.
#[tactic(auto, unfolding(crate::specs::Objects::refusal_report))]
fn say_refusal(out: &mut Line, wishes: &Wishes, place: &Found<'_>, octets: &[u8], tried: &Tried)
    ensures { Says out.old out.new (refusal_report (wishes_of wishes.now) (found_of place.now) octets.now (tried_of tried.now)) }
{
    out.begin_object();
    say_place(out, "refusal", place);
    say_octets(out, wishes.fingerprints, place, octets);
    tried_under(out, "tried", octets, tried);
    out.end_object();
}

/// What was tried by other means than a reader of objects, under a key.
fn attempt_under(out: &mut Line, key: &str, kind: &str, word: &str)
    ensures { SaysUnder out.old out.new key.now
        (array (items_of (attempt_report kind.now None word.now None None (first_uses Part.Unknown [] []) ∷ []))) }
{
    out.key(key);
    out.begin_array();
    out.begin_object();
    say_attempt(out, kind, None, word, None, None);
    uses_under(out, "leniencies", Part::Unknown, &[], &[]);
    out.end_object();
    out.end_array();
}

/// That something before any reader of objects failed.
#[tactic(auto, unfolding(crate::specs::Objects::failed_report))]
fn say_failed(
    out: &mut Line,
    wishes: &Wishes,
    place: &Found<'_>,
    octets: &[u8],
    kind: &str,
    word: &str,
)
    ensures { Says out.old out.new (failed_report (wishes_of wishes.now) (found_of place.now) octets.now kind.now word.now) }
{
    out.begin_object();
    say_place(out, "refusal", place);
    say_octets(out, wishes.fingerprints, place, octets);
    attempt_under(out, "tried", kind, word);
    out.end_object();
}

/// Writes the line of octets that no reader of objects was given, as something before them failed: what that was, and why.
///
/// # Errors
///
/// `AllocError`.
#[tactic(auto, using(x509_report_lines::proofs::Written::said_whole))]
pub fn failed_line(
    out: &mut Line,
    wishes: &Wishes,
    place: &Found<'_>,
    octets: &[u8],
    kind: &str,
    word: &str,
) -> Result<(), AllocError>
    ensures { SaysWhole result out.old out.new (failed_report (wishes_of wishes.now) (found_of place.now) octets.now kind.now word.now) }
{
    say_failed(out, wishes, place, octets, kind, word);
    out.finish()
}

/// That a block holds none of the objects that are wanted.
#[tactic(auto, unfolding(crate::specs::Objects::skipped_report))]
fn say_skipped(out: &mut Line, wishes: &Wishes, place: &Found<'_>, octets: &[u8])
    ensures { Says out.old out.new (skipped_report (wishes_of wishes.now) (found_of place.now) octets.now) }
{
    out.begin_object();
    say_place(out, "skipped", place);
    say_octets(out, wishes.fingerprints, place, octets);
    out.end_object();
}

/// Writes the line of a block that holds none of the objects that are wanted, by its label.
///
/// # Errors
///
/// `AllocError`.
#[tactic(auto, using(x509_report_lines::proofs::Written::said_whole))]
pub fn skipped_line(
    out: &mut Line,
    wishes: &Wishes,
    place: &Found<'_>,
    octets: &[u8],
) -> Result<(), AllocError>
    ensures { SaysWhole result out.old out.new (skipped_report (wishes_of wishes.now) (found_of place.now) octets.now) }
{
    say_skipped(out, wishes, place, octets);
    out.finish()
}

/// The object as the first of the kinds that are wanted whose reader takes it, and else the refusals of all that were tried. Tells which
/// kind it is.
#[tactic(auto, unfolding(crate::specs::Objects::object_told))]
fn say_first(
    out: &mut Line,
    wishes: &Wishes,
    place: &Found<'_>,
    octets: &[u8],
) -> Result<Option<Kind>, AllocError>
    ensures kind { IfOk result (λ kind. kind ≡ (object_told (wishes_of wishes.now) (found_of place.now) octets.now).0) }
    ensures line { OnOk result (Says out.old out.new (object_told (wishes_of wishes.now) (found_of place.now) octets.now).1) }
{
    let certificate = match try_as::<X509Certificate>(out, wishes, place, octets)? {
        Attempt::Taken => return Ok(Some(Kind::Certificate)),
        Attempt::Left(refusal) => refusal,
    };
    let list = match try_as::<CertificateRevocationList>(out, wishes, place, octets)? {
        Attempt::Taken => return Ok(Some(Kind::List)),
        Attempt::Left(refusal) => refusal,
    };
    let request = match try_as::<X509CertificationRequest>(out, wishes, place, octets)? {
        Attempt::Taken => return Ok(Some(Kind::Request)),
        Attempt::Left(refusal) => refusal,
    };
    let tried = Tried {
        certificate,
        list,
        request,
    };
    say_refusal(out, wishes, place, octets, &tried);
    Ok(None)
}

/// Writes the line of the object at the front of the octets: as the first of the kinds that are wanted whose reader takes it, and else
/// the refusals of all that were tried. Tells which kind it is; None where it was refused.
///
/// # Errors
///
/// `AllocError`.
#[tactic(auto, using(x509_report_lines::proofs::Written::said_whole))]
pub fn object_line(
    out: &mut Line,
    wishes: &Wishes,
    place: &Found<'_>,
    octets: &[u8],
) -> Result<Option<Kind>, AllocError>
    ensures kind { IfOk result (λ kind. kind ≡ (object_told (wishes_of wishes.now) (found_of place.now) octets.now).0) }
    ensures line { SaysWhole result out.old out.new (object_told (wishes_of wishes.now) (found_of place.now) octets.now).1 }
{
    let kind = say_first(out, wishes, place, octets)?;
    out.finish()?;
    Ok(kind)
}
