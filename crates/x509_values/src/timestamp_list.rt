//! The timestamps in an extension's value.

ghost use Rattle.std.specs.Prelude.{◌≡◌, true, List, map, IfOk};
ghost use Rattle.x509_der.specs.declared.error.BerError.TheVariants as ber;
ghost use Rattle.x509_der.specs.Grammar.{allocates, in_element};
ghost use Rattle.x509_der.specs.Plan.{run, run1, marks_of_members};
ghost use Rattle.x509_der.specs.Primitives.{is_primitive};
ghost use Rattle.x509_der.specs.Promises.{is_ber_memory, Answers, ReadsExactly, empty_run, AnswersAt};
ghost use Rattle.x509_der.specs.Reading.{strict};
ghost use Rattle.x509_values.specs.Timestamp.{timestamp_of, TimestampValue, timestamp};
ghost use Rattle.x509_values.specs.TimestampList.{timestamps_of, timestamps, sct_list, timestamps_laws};
ghost use Rattle.x509_der.specs.Place.{bytes_in, outside_in};

use crate::octets::read_sized_in;
use crate::timestamp::{SignedCertificateTimestamp, read_timestamp};
use std::alloc::Global;
use x509_der::{
    BerError, Err, ErrorKind, FromDer, Outside, Place, Refused, Sequence, Tries, Window,
};

/// The timestamps of an extension (RFC 6962, section 3.3), at least one.
///
/// ```text
/// opaque SerializedSCT<1..2^16-1>;
///
/// struct { SerializedSCT sct_list <1..2^16-1>; } SignedCertificateTimestampList;
///
/// SignedCertificateTimestampList ::= OCTET STRING
/// ```
#[derive(Debug, PartialEq, Drop)]
pub struct TimestampList<'a> {
    pub timestamps: Sequence<SignedCertificateTimestamp<'a>>,
}

/// The longest run of timestamps at the front, and whether all of them stand plainly.
fn read_entries<'a>(
    alloc: Global,
    i: &'a [u8],
) -> Result<(&'a [u8], Sequence<SignedCertificateTimestamp<'a>>, bool), Err<BerError>>
    ensures reads { Answers is_ber_memory true (λ x. (x.0.now, map timestamp_of x.1)) result ((run timestamp).read i.now) }
    ensures marks { IfOk result (λ x. x.2 ≡ marks_of_members timestamp i.now) }
{
    let mut entries = Sequence::new(alloc);
    let mut rest = i;
    let mut plain = true;
    while let Ok((after, entry, marked)) = read_timestamp(rest) {
        if entries.push(entry).is_err() {
            return Err(Err::out_of_memory());
        }
        plain &= marked;
        rest = after;
    }
    Ok((rest, entries, plain))
}

/// The same, where there is at least one.
#[tactic(auto, using(x509_der::proofs::RunLoop::ending, x509_der::proofs::MarkLoop::marks_of_some))]
fn read_some_entries<'a, L: Outside>(
    alloc: Global,
    i: &Window<'a, L>,
) -> Result<(&'a [u8], Sequence<SignedCertificateTimestamp<'a>>, bool), Refused<BerError, L>>
    ensures reads { AnswersAt is_ber_memory true (λ x. (x.0.now, map timestamp_of x.1)) (run1 (empty_run ber.NomError) timestamp) L.adds (bytes_in i.now)
        (outside_in i.now) result }
    ensures marks { IfOk result (λ x. x.2 ≡ (run1 (empty_run ber.NomError) timestamp).marks (bytes_in i.now)) }
{
    let (rest, entries, plain) = match read_entries(alloc, i.bytes()) {
        Ok(read) => read,
        Err(why) => return Err(i.refuse_at(i.bytes(), why)),
    };
    if entries.is_empty() {
        let why = Err::Error(BerError::NomError(ErrorKind::Many1));
        return Err(i.refuse_at(rest, why));
    }
    Ok((rest, entries, plain))
}

/// The list at the front, and whether nothing was dropped in it.
#[tactic(auto, unfolding(crate::specs::TimestampList::sct_list), using(crate::proofs::Plain::plain_words))]
fn read_list<'a, L: Outside>(
    alloc: Global,
    i: &Window<'a, L>,
) -> Result<(&'a [u8], Sequence<SignedCertificateTimestamp<'a>>, bool), Refused<BerError, L>>
    ensures reads { AnswersAt is_ber_memory true (λ x. (x.0.now, map timestamp_of x.1)) sct_list L.adds (bytes_in i.now) (outside_in i.now) result }
    ensures marks { IfOk result (λ x. x.2 ≡ sct_list.marks (bytes_in i.now)) }
{
    let (rest, contents) = read_sized_in(i)?;
    let (tail, entries, plain) = read_some_entries(alloc, &contents)?;
    Ok((rest, entries, plain & tail.is_empty()))
}

impl<'a> FromDer<'a, BerError> for TimestampList<'a> {
    ghost Value = { List TimestampValue };

    ghost view = { timestamps_of };

    ghost grammar = { in_element strict (is_primitive 4) timestamps timestamps_laws (λ _. 1) allocates };

    ghost tight = { λ _ old new. new ≡ old };

    #[tactic(auto, unfolding(crate::specs::TimestampList::timestamps, x509_der::specs::Leaves::octets, x509_der::specs::Primitives::contents_at), using(x509_der::proofs::Marking::marks_of_readers))]
    fn read_at<L: Outside>(
        alloc: Global,
        _tries: &mut Tries,
        place: &Place<'a, L>,
    ) -> Result<(Self, bool), Refused<BerError, L>> {
        let contents = place.octets()?;
        let (tail, timestamps, plain) = read_list(alloc, &place.window(contents))?;
        Ok((TimestampList { timestamps }, plain & tail.is_empty()))
    }

    ghost never_memory = { timestamps_laws.laws.never_memory };
}

/// Reads the value of the extension for timestamps: an OCTET STRING, and in it the list (RFC 6962, section 3.3). What stands
/// behind the OCTET STRING is the first part of the answer.
///
/// The list is a length in two octets and so many bytes, in which the longest run of timestamps is read; what stands behind the
/// run in the list, and behind the list in the OCTET STRING, is dropped.
///
/// `Err::Incomplete` where the bytes end too early, `Err::Error` of `InvalidTag` or `InvalidLength` where no OCTET STRING stands
/// first, of `NomError(Many1)` where the list has no first timestamp, and `Err::Failure(OutOfMemory)` where memory was refused.
pub fn parse_ct_signed_certificate_timestamp_list<'a>(
    alloc: Global,
    i: &'a [u8],
) -> Result<(&'a [u8], Sequence<SignedCertificateTimestamp<'a>>), Err<BerError>>
    ensures { ReadsExactly is_ber_memory true (λ x. (x.0.now, map timestamp_of x.1)) timestamps i.now result }
{
    match TimestampList::from_der(alloc, i) {
        Ok((rest, list)) => Ok((rest, list.timestamps)),
        Err(e) => Err(e),
    }
}
