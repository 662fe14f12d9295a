//! Who issued a list, when, and when the next one comes.

ghost use Rattle.std.specs.Prelude.{true};
ghost use Rattle.x509_der.specs.Fields.{next_of, plain_in, outer_of, ReadsSeveral};
ghost use Rattle.x509_fields.specs.Errors.{is_x509_memory};
ghost use Rattle.x509_lists.specs.Issue.{issue_of, issue_heads, issue};

use crate::next_update::read_next_update;
use std::alloc::Global;
use x509_der::{Fields, Outside, Refused, Tries, ok};
use x509_fields::{ASN1Time, AlgorithmIdentifier, X509Error};
use x509_names::X509Name;

/// The fields between the version of a list and its certificates.
#[derive(Drop)]
pub(crate) struct Issue<'a> {
    pub(crate) signature: AlgorithmIdentifier<'a>,
    pub(crate) issuer: X509Name<'a>,
    pub(crate) this_update: ASN1Time,
    pub(crate) next_update: Option<ASN1Time>,
}

/// Reads these fields, in order.
#[tactic(auto, unfolding(crate::specs::Issue::issue), using(x509_der::proofs::Marking::marks_of_readers))]
pub(crate) fn read_issue<'a, L: Outside>(
    alloc: Global,
    tries: &mut Tries,
    fields: &Fields<'a, L>,
) -> Result<(Fields<'a, L>, Issue<'a>), Refused<X509Error, L>>
    ensures { ReadsSeveral is_x509_memory true issue_heads (λ x. (next_of x.0, issue_of x.1)) (λ x. outer_of x.0) (λ x. plain_in x.0) issue 3 1
        (plain_in fields.now) L.adds (next_of fields.now) (outer_of fields.now) tries.old tries.new result }
{
    let (fields, signature) = fields.field(alloc, tries)?;
    let (fields, issuer) = fields.field(alloc, tries)?;
    let (fields, this_update) = ok!(fields.field(alloc, tries));
    let (fields, next_update) = ok!(read_next_update(alloc, tries, &fields));
    let issue = Issue {
        signature,
        issuer,
        this_update,
        next_update,
    };
    Ok((fields, issue))
}
