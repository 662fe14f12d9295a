//! A pass over the certificates of a list that keeps none of them.

ghost use Rattle.std.specs.Prelude.{◌≡◌, [], length, true, IfOk};
ghost use Rattle.x509_der.specs.Place.{bytes_in, outside_in};
ghost use Rattle.x509_der.specs.Plan.{run, to_end};
ghost use Rattle.x509_der.specs.Primitives.{is_constructed};
ghost use Rattle.x509_der.specs.Promises.{Answers, ReadsRun, ReadsList, TriesBounded, ended_early};
ghost use Rattle.x509_der.specs.Reading.{strict};
ghost use Rattle.x509_fields.specs.declared.error.X509Error.TheVariants.{NomError};
ghost use Rattle.x509_fields.specs.Errors.{is_x509_memory};
ghost use Rattle.x509_lists.specs.EntriesIn.{entries_in};
ghost use Rattle.x509_lists.specs.RevokedCertificate.{revoked, revoked_heads, revoked_of};
ghost use Rattle.x509_lists.specs.RevokedEntries.{entries_of};

use crate::revoked_certificate::RevokedCertificate;
use crate::revoked_entries::RevokedEntries;
use std::alloc::Global;
use x509_der::{Err, ErrorKind, FromDer, Outside, Place, Refused, Tries, Window};
use x509_fields::X509Error;

/// Reads the certificate at the front as its type's `read_marked` does. It is told of the octets behind it, and hands nothing on of them:
/// so it is compiled apart from the reader of a list that keeps its certificates, and LLVM inlines each of the two where it is called.
#[inline(always)]
fn read_apart<'a>(
    alloc: Global,
    tries: &mut Tries,
    i: &'a [u8],
) -> Result<(&'a [u8], RevokedCertificate<'a>, bool), Err<X509Error>>
    ensures reads { Answers is_x509_memory true (λ x. (x.0.now, revoked_of x.1)) result (revoked.read i.now) }
    ensures marks { IfOk result (λ x. x.2 ≡ revoked.marks i.now) }
    ensures tries { TriesBounded strict (is_constructed 16) revoked_heads (λ x. (x.0.now, revoked_of x.1)) i.now tries.old tries.new result }
{
    let place = Place::inside(tries, &Window::counted(i));
    match RevokedCertificate::read_at(alloc, tries, &place) {
        Ok((certificate, plain)) => Ok((place.rest(), certificate, plain)),
        Err(e) => Err(e.why),
    }
}

/// Reads the longest run of certificates at the front and lets each go: what stands behind them, how many there are, and whether all of
/// them stand plainly.
fn pass_run<'a>(
    alloc: Global,
    tries: &mut Tries,
    i: &'a [u8],
) -> Result<(&'a [u8], usize, bool), Err<X509Error>>
    ensures reads { ReadsRun is_x509_memory strict (is_constructed 16) revoked_heads (λ x. (x.0.now, entries_in i.now)) (λ x. x.2) (run revoked) i.now
        tries.old tries.new result }
    ensures count { IfOk result (λ x. x.1 ≡ length (entries_in i.now)) }
{
    let mut rest = i;
    let mut count = 0;
    let mut plain = true;
    loop {
        match read_apart(alloc, tries, rest) {
            Ok((after, _certificate, marked)) => {
                count += 1;
                plain &= marked;
                rest = after;
            }
            Err(e) => {
                if e.is_out_of_memory() {
                    return Err(e);
                }
                return Ok((rest, count, plain));
            }
        }
    }
}

/// Certificates up to the end of the window, and their mark.
#[tactic(auto, using(x509_der::proofs::RunLoop::ending, x509_der::proofs::Marked::and_true))]
pub(crate) fn read_entries<'a, L: Outside>(
    alloc: Global,
    tries: &mut Tries,
    i: &Window<'a, L>,
) -> Result<(RevokedEntries<'a>, bool), Refused<X509Error, L>>
    ensures { ReadsList is_x509_memory strict (is_constructed 16) revoked_heads (λ x. ([], entries_of x.0)) (λ x. x.1)
        (to_end (ended_early NomError) (run revoked)) L.adds (bytes_in i.now) (outside_in i.now) tries.old tries.new result }
{
    let bytes = i.bytes();
    let (rest, count, plain) = match pass_run(alloc, tries, bytes) {
        Ok(read) => read,
        Err(why) => return Err(i.refuse_at(bytes, why)),
    };
    if !rest.is_empty() {
        return Err(i.refuse_at(rest, Err::Error(X509Error::NomError(ErrorKind::Eof))));
    }
    Ok((RevokedEntries { bytes, count }, plain))
}
