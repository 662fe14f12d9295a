//! Octets, numbers and strings of octets as TLS presents them (RFC 5246, section 4): no headers, big-endian.

ghost use Rattle.std.specs.Prelude.{◌≡◌, IfOk, length};
ghost use Rattle.x509_der.specs.Reading.{Gives};
ghost use Rattle.x509_values.specs.Octets.{fixed, number_of, sized};
ghost use Rattle.x509_der.specs.Place.{bytes_in, outside_in};
ghost use Rattle.x509_der.specs.Promises.{GivesAt};

use x509_der::{BerError, Err, Outside, Refused, Window};

/// So many octets.
#[inline(always)]
#[tactic(auto, unfolding(crate::specs::Octets::fixed))]
pub(crate) fn read_array<const N: usize>(i: &[u8]) -> Result<(&[u8], &[u8; N]), Err<BerError>>
    ensures { Gives (λ x. (x.0.now, x.1.now)) result ((fixed N).read i.now) }
{
    match i.split_first_chunk() {
        Some((octets, rest)) => Ok((rest, octets)),
        None => Err(Err::Incomplete),
    }
}

/// A number of one octet.
#[inline(always)]
#[tactic(auto, using(crate::proofs::BigEndian::number_refused))]
pub(crate) fn read_u8(i: &[u8]) -> Result<(&[u8], u8), Err<BerError>>
    ensures { Gives (λ x. (x.0.now, x.1)) result ((number_of 1).read i.now) }
{
    let (rest, octets) = read_array(i)?;
    Ok((rest, u8::from_be_bytes(*octets)))
}

/// A number of two octets, the more significant one first.
#[inline(always)]
#[tactic(auto, using(crate::proofs::BigEndian::number_refused))]
pub(crate) fn read_u16(i: &[u8]) -> Result<(&[u8], u16), Err<BerError>>
    ensures { Gives (λ x. (x.0.now, x.1)) result ((number_of 2).read i.now) }
{
    let (rest, octets) = read_array(i)?;
    Ok((rest, u16::from_be_bytes(*octets)))
}

/// A number of eight octets, the most significant one first.
#[inline(always)]
#[tactic(auto, using(crate::proofs::BigEndian::number_refused))]
pub(crate) fn read_u64(i: &[u8]) -> Result<(&[u8], u64), Err<BerError>>
    ensures { Gives (λ x. (x.0.now, x.1)) result ((number_of 8).read i.now) }
{
    let (rest, octets) = read_array(i)?;
    Ok((rest, u64::from_be_bytes(*octets)))
}

/// A length in two octets, and so many octets.
#[inline(always)]
#[tactic(auto, unfolding(crate::specs::Octets::sized, crate::specs::Octets::fixed))]
pub(crate) fn read_sized(i: &[u8]) -> Result<(&[u8], &[u8]), Err<BerError>>
    ensures { Gives (λ x. (x.0.now, x.1.now)) result (sized.read i.now) }
{
    let (rest, length) = read_u16(i)?;
    let length = usize::from(length);
    if rest.len() < length {
        return Err(Err::Incomplete);
    }
    let (octets, rest) = rest.split_at(length);
    Ok((rest, octets))
}

/// The same in a window, and the octets as one.
#[inline(always)]
#[tactic(auto, unfolding(crate::specs::Octets::sized, crate::specs::Octets::fixed))]
pub(crate) fn read_sized_in<'a, L: Outside>(
    i: &Window<'a, L>,
) -> Result<(&'a [u8], Window<'a, L>), Refused<BerError, L>>
    ensures reads { GivesAt (λ x. (x.0.now, bytes_in x.1)) sized L.adds (bytes_in i.now) (outside_in i.now) result }
    ensures outer { IfOk result (λ x. outside_in x.1 ≡ L.adds (length x.0.now) (outside_in i.now)) }
{
    let (rest, length) = match read_u16(i.bytes()) {
        Ok(read) => read,
        Err(why) => return Err(i.refuse_at(i.bytes(), why)),
    };
    let length = usize::from(length);
    if rest.len() < length {
        return Err(i.refuse_at(rest, Err::Incomplete));
    }
    let (octets, rest) = rest.split_at(length);
    Ok((rest, i.inner(octets, rest)))
}
