//! An index over the octets of a list, as octets.

ghost use Rattle.std.specs.Prelude.{◌≡◌, ◌<◌, ◌^◌, ◌++◌, length, MatchResult, ◌⊎◌, ℕ, List};
ghost use Rattle.std.specs.List.{All};
ghost use Rattle.x509_revoked.specs.declared.index_error.IndexError.TheVariants.{OutOfMemory};
ghost use Rattle.x509_revoked.specs.HeadedEntries.{offsets_of};
ghost use Rattle.x509_revoked.specs.IndexFile.{head_octets, index_octets, offset_octets, wrong_head};

use crate::headed_entry::HeadedEntry;
use crate::index_error::IndexError;
use std::alloc::Global;

/// The head of an index: what it is, in which version of the form, of how many entries, in how many octets.
#[tactic(auto, unfolding(crate::specs::IndexFile::head_octets))]
fn head(entries: usize, octets: usize) -> [u8; 24]
    ensures { result ≡ head_octets entries octets }
{
    let [c0, c1, c2, c3, c4, c5, c6, c7] = (entries as u64).to_be_bytes();
    let [w0, w1, w2, w3, w4, w5, w6, w7] = (octets as u64).to_be_bytes();
    [
        b'c', b'r', b'l', b'i', b'n', b'd', b'x', 1, c0, c1, c2, c3, c4, c5, c6, c7, w0, w1, w2,
        w3, w4, w5, w6, w7,
    ]
}

/// What is wrong with a head that isn't the one that is wanted.
fn head_error(found: &[u8; 24], wanted: &[u8; 24]) -> IndexError
    ensures { result ≡ wrong_head found.now wanted.now }
{
    if found[..7] != wanted[..7] {
        return IndexError::NotAnIndex;
    }
    if found[7] != wanted[7] {
        return IndexError::OtherVersion;
    }
    IndexError::OtherList
}

/// The octets behind the head of an index of so many entries, in so many octets.
fn behind_head(entries: usize, octets: usize, file: &[u8]) -> Result<&[u8], IndexError>
    ensures { MatchResult result (λ body. file.now ≡ head_octets entries octets ++ body.now)
        (λ e. (body : List ℕ) → file.now ≡ head_octets entries octets ++ body → ⊥) }
{
    let wanted = head(entries, octets);
    match file.split_first_chunk::<24>() {
        Some((found, body)) => {
            if *found != wanted {
                return Err(head_error(found, &wanted));
            }
            Ok(body)
        }
        None => Err(IndexError::CutShort),
    }
}

/// The offsets that octets write, in four octets each, and what is left behind them.
fn take_offsets(alloc: Global, octets: &[u8]) -> Result<(Vec<u32>, &[u8]), IndexError>
    ensures { MatchResult result (λ x. (octets.now ≡ offset_octets x.0.items ++ x.1.now) × (length x.1.now < 4) × All (λ o. o < 2 ^ 32) x.0.items)
        (λ e. e ≡ OutOfMemory) }
{
    let mut offsets = match Vec::with_capacity(alloc, octets.len() / 4) {
        Ok(offsets) => offsets,
        Err(_) => return Err(IndexError::OutOfMemory),
    };
    let mut left = octets;
    while let Some((offset, behind)) = left.split_first_chunk::<4>() {
        if offsets.push(u32::from_be_bytes(*offset)).is_err() {
            return Err(IndexError::OutOfMemory);
        }
        left = behind;
    }
    Ok((offsets, left))
}

/// The offsets in an index of so many entries, in so many octets.
pub(crate) fn read_index(
    alloc: Global,
    entries: usize,
    octets: usize,
    file: &[u8],
) -> Result<Vec<u32>, IndexError>
    ensures { MatchResult result
        (λ offsets. (length offsets.items ≡ entries) × (file.now ≡ index_octets octets offsets.items) × All (λ o. o < 2 ^ 32) offsets.items)
        (λ e. (e ≡ OutOfMemory) ⊎ ((offsets : List ℕ) → length offsets ≡ entries → file.now ≡ index_octets octets offsets → ⊥)) }
{
    let body = match behind_head(entries, octets, file) {
        Ok(body) => body,
        Err(e) => return Err(e),
    };
    let (offsets, left) = match take_offsets(alloc, body) {
        Ok((offsets, left)) => (offsets, left),
        Err(e) => return Err(e),
    };
    if offsets.len() < entries {
        return Err(IndexError::CutShort);
    }
    if offsets.len() > entries {
        return Err(IndexError::TrailingOctets);
    }
    if !left.is_empty() {
        return Err(IndexError::TrailingOctets);
    }
    Ok(offsets)
}

/// The octets of the index of these entries, which take so many octets.
pub(crate) fn write_index(
    alloc: Global,
    octets: usize,
    entries: &[HeadedEntry],
) -> Result<Vec<u8>, IndexError>
    ensures { MatchResult result (λ file. file.items ≡ index_octets octets (offsets_of entries.now)) (λ e. e ≡ OutOfMemory) }
{
    let size = entries.len().saturating_mul(4).saturating_add(24);
    let mut file = match Vec::with_capacity(alloc, size) {
        Ok(file) => file,
        Err(_) => return Err(IndexError::OutOfMemory),
    };
    if file
        .extend_from_slice(&head(entries.len(), octets))
        .is_err()
    {
        return Err(IndexError::OutOfMemory);
    }
    for entry in entries {
        if file.extend_from_slice(&entry.offset.to_be_bytes()).is_err() {
            return Err(IndexError::OutOfMemory);
        }
    }
    Ok(file)
}
