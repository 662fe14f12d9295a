//! The comment of a certificate.

ghost use Rattle.std.specs.Prelude.{◌≡◌, true};
ghost use Rattle.x509_der.specs.Reading.{Gives, TriesOnce};
ghost use Rattle.x509_values.specs.NsComment.{ns_comment};

use std::str;
use x509_der::{Tries, read_ia5};
use x509_fields::X509Result;

/// Reads the comment at the front of the bytes (Netscape certificate extensions), and gives what stands behind it.
///
/// ```text
/// IA5String
/// ```
///
/// Some issuers wrote the text itself: where no IA5String can be read and all the bytes are UTF-8, they are the comment, and
/// nothing stands behind it. An IA5String may hold any UTF-8.
///
/// # Errors
///
/// Why no IA5String can be read, where the bytes aren't UTF-8 either.
#[tactic(auto, unfolding(crate::specs::NsComment::ns_comment), using(x509_der::proofs::Marking::marks_of_readers))]
pub fn read_ns_comment<'a>(tries: &mut Tries, i: &'a [u8]) -> X509Result<'a, &'a str>
    ensures reads { Gives (λ x. (x.0.now, x.1.now)) result (ns_comment.read i.now) }
    ensures marks { ns_comment.marks i.now ≡ true }
    ensures tries { TriesOnce tries.old tries.new i.now }
{
    match read_ia5(tries, i) {
        Ok(read) => Ok(read),
        Err(why) => match str::from_utf8(i) {
            Ok(text) => Ok((&[], text)),
            Err(_) => Err(why.convert()),
        },
    }
}
