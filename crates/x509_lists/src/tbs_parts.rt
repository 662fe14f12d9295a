//! Reading the part of a list that is signed, whatever becomes of its certificates.

ghost use Rattle.std.specs.Prelude.{◌≡◌, List, [], true, unwrap_or, ⊤};
ghost use Rattle.x509_der.specs.Fields.{next_of, outer_of, plain_in, ReadsSoft};
ghost use Rattle.x509_der.specs.Place.{at, outside_of};
ghost use Rattle.x509_der.specs.Primitives.{is_constructed};
ghost use Rattle.x509_der.specs.Promises.{ReadsAt, option_view};
ghost use Rattle.x509_der.specs.Reading.{strict};
ghost use Rattle.x509_fields.specs.Errors.{is_x509_memory};
ghost use Rattle.x509_lists.specs.RevokedCertificate.{Revoked};
ghost use Rattle.x509_lists.specs.RevokedList.{revoked_list, revoked_list_heads};
ghost use Rattle.x509_lists.specs.TbsCertList.{tbs_list, tbs_list_heads, tbs_list_with};

use crate::issue::read_issue;
use crate::list_version::read_version;
use crate::tbs_cert_list::TbsCertListOf;
use std::alloc::Global;
use x509_der::{Fields, Outside, Place, Refused, Tries, ok};
use x509_extensions::X509ExtensionParser;
use x509_fields::{X509Error, sequence_at};

/// What the certificates of a list are read into: a list in memory, or the octets that they stand in.
pub trait Entries<'a>: Sized + Drop {
    /// The certificates, in order.
    ghost entries: { Self → List Revoked };

    /// No certificates.
    fn none(alloc: Global) -> Self
        ensures { entries result ≡ [] };

    /// The certificates that stand next, absent where one of them can't be read.
    ///
    /// # Errors
    ///
    /// `Failure(OutOfMemory)`.
    fn read_next<L: Outside>(
        alloc: Global,
        tries: &mut Tries,
        fields: &Fields<'a, L>,
    ) -> Result<(Fields<'a, L>, Option<Self>), Refused<X509Error, L>>
        ensures { ReadsSoft is_x509_memory strict (is_constructed 16) revoked_list_heads (λ x. (next_of x.0, option_view entries x.1)) (λ x. outer_of x.0)
            (λ x. plain_in x.0) revoked_list (λ _ _ _. ⊤) (plain_in fields.now) L.adds (next_of fields.now) (outer_of fields.now) tries.old tries.new result };
}

/// These certificates, or none where they are absent.
fn or_none<'a, R: Entries<'a>>(alloc: Global, entries: Option<R>) -> R
    ensures { R.entries result ≡ unwrap_or (option_view R.entries entries) [] }
{
    match entries {
        Some(entries) => entries,
        None => R::none(alloc),
    }
}

/// Reads the signed part of a list at a place that was looked at, and tells whether it stands plainly.
#[tactic(auto, unfolding(crate::specs::TbsCertList::tbs_list), using(x509_der::proofs::Marking::marks_of_readers))]
pub(crate) fn read_parts<'a, R: Entries<'a>, L: Outside>(
    alloc: Global,
    tries: &mut Tries,
    place: &Place<'a, L>,
) -> Result<(TbsCertListOf<'a, R>, bool), Refused<X509Error, L>>
    ensures { ReadsAt is_x509_memory true strict (is_constructed 16) tbs_list_heads (tbs_list_with R.entries) tbs_list L.adds (at place.now)
        (outside_of place.now) tries.old tries.new result }
{
    let contents = sequence_at(place)?;
    let fields = Fields::of(tries, &contents);
    let (fields, version) = read_version(tries, &fields);
    let (fields, issue) = ok!(read_issue(alloc, tries, &fields));
    let (fields, revoked) = ok!(R::read_next(alloc, tries, &fields));
    let closing = X509ExtensionParser::new().read_wrapped_at(alloc, tries, 0, &fields.place);
    let (extensions, extensions_plain) = ok!(closing);
    let bytes = place.bytes();
    let tbs = TbsCertListOf {
        version,
        signature: issue.signature,
        issuer: issue.issuer,
        this_update: issue.this_update,
        next_update: issue.next_update,
        revoked_certificates: or_none(alloc, revoked),
        extensions,
        raw: &bytes[..bytes.len() - place.rest().len()],
    };
    Ok((tbs, fields.plain_so_far() & extensions_plain))
}
