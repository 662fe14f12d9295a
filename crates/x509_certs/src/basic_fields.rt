//! The fields that every certificate has, whatever its version.

ghost use Rattle.std.specs.Prelude.{◌≡◌, ◌≤◌, ◌+◌, ◌*◌, IfOk, IfErr, min, length, true};
ghost use Rattle.x509_der.specs.Fields.{next_of, plain_in, outer_of};
ghost use Rattle.x509_der.specs.Reading.{AddsAtLeast};
ghost use Rattle.x509_fields.specs.Errors.{is_x509_memory};
ghost use Rattle.x509_certs.specs.BasicFields.{basic_fields_of, basic_fields_heads, basic_fields};
ghost use Rattle.x509_der.specs.Place.{bytes_in, outside_in};
ghost use Rattle.x509_der.specs.Promises.{AnswersAt};

use crate::explicit_version::read_version;
use crate::validity::{Validity, validity_at};
use std::alloc::Global;
use x509_der::{Fields, Outside, Refused, Tries, Window, ok};
use x509_fields::{AlgorithmIdentifier, X509Error, X509Version, read_serial, sequence_at};
use x509_keys::{SubjectPublicKeyInfo, key_info_at};
use x509_names::X509Name;

/// The fields before those that the second and third versions add.
#[derive(Drop)]
pub(crate) struct BasicFields<'a> {
    pub(crate) version: Option<X509Version>,
    pub(crate) raw_serial: &'a [u8],
    pub(crate) signature: AlgorithmIdentifier<'a>,
    pub(crate) issuer: X509Name<'a>,
    pub(crate) validity: Validity,
    pub(crate) subject: X509Name<'a>,
    pub(crate) subject_pki: SubjectPublicKeyInfo<'a>,
}

/// Reads these fields, in order, at the front of the contents, and gives the cursor behind them. The validity and the key info are
/// read in place: their own readers are too large to be inlined, and the two calls take a twelfth of the time.
#[tactic(auto, unfolding(crate::specs::BasicFields::basic_fields, crate::specs::Validity::validity, x509_keys::specs::KeyInfo::key_info), using(x509_der::proofs::Marking::marks_of_readers))]
pub(crate) fn read_basic_fields<'a, L: Outside>(
    alloc: Global,
    tries: &mut Tries,
    contents: &Window<'a, L>,
) -> Result<(Fields<'a, L>, BasicFields<'a>), Refused<X509Error, L>>
    ensures reads { AnswersAt is_x509_memory true (λ x. (next_of x.0, basic_fields_of x.1)) basic_fields L.adds (bytes_in contents.now)
        (outside_in contents.now) result }
    ensures outer { IfOk result (λ x. outer_of x.0 ≡ outside_in contents.now) }
    ensures marks { IfOk result (λ x. plain_in x.0 ≡ basic_fields.marks (bytes_in contents.now)) }
    ensures grows { tries.old ≤ tries.new }
    ensures count { IfErr result (λ _. tries.new ≤ tries.old + 8 * length (bytes_in contents.now)) }
    ensures sizes { IfOk result (λ x. tries.new + 40 + 8 * length (next_of x.0) ≤ tries.old + 8 * length (bytes_in contents.now)) }
    ensures least { IfOk result (λ x. AddsAtLeast (basic_fields_heads (basic_fields_of x.1) + min 1 (length (next_of x.0))) tries.old tries.new) }
{
    let fields = Fields::of(tries, &contents);
    let (fields, version) = read_version(tries, &fields)?;
    let (fields, raw_serial) = read_serial(tries, &fields)?;
    let (fields, signature) = fields.field(alloc, tries)?;
    let (fields, issuer) = fields.field(alloc, tries)?;
    let (validity, plain) = validity_at!(alloc, tries, &fields.place);
    let fields = fields.behind(tries, plain);
    let (fields, subject) = fields.field(alloc, tries)?;
    let (subject_pki, plain) = key_info_at!(alloc, tries, &fields.place);
    let fields = fields.behind(tries, plain);
    let basic = BasicFields {
        version,
        raw_serial,
        signature,
        issuer,
        validity,
        subject,
        subject_pki,
    };
    Ok((fields, basic))
}
