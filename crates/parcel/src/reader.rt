// What a parcel holds, read section by section.
ghost use Rattle.std.specs.Prelude.{◌≡◌, ◌+◌, ◌*◌, ◌≤◌, drop, length, IfOk, MatchResult};
ghost use Rattle.parcel.specs.Parcel.{count_of, read_of, counts_of};
ghost use Rattle.parcel.specs.Inner.{held_of};

use crate::bytes::{InBytes, Stored};
use answers::{Fault, Refusal};

// How many code words, edges and data words a parcel holds.
#[derive(Clone, Copy, Debug, PartialEq, Eq)]
pub struct Counts {
    pub code: usize,
    pub edges: usize,
    pub data: usize,
}

// What a parcel of the edition that has such edge numbers holds, or why it is refused.
pub(crate) fn held<E: InBytes>(parcel: &[u8]) -> Result<Counts, Fault>
    ensures { result ≡ counts_of (read_of E.WIDTH parcel.now) }
{
    sections::<E>(parcel).map_err(Fault::nowhere)
}

// The counts of the three sections, each read where the one before it ends.
#[tactic(auto, using(crate::proofs::Held::bytes_follow, crate::proofs::Held::all_held), unfolding(crate::specs::Parcel::read_of, crate::specs::Parcel::section_from))]
fn sections<E: InBytes>(parcel: &[u8]) -> Result<Counts, Refusal>
    ensures { result ≡ held_of (read_of E.WIDTH parcel.now) }
{
    let (code, rest) = section(parcel, 8, 1)?;
    let (edges, rest) = section(rest, 2 * E::WIDTH, 0)?;
    let (data, rest) = section(rest, 8, 0)?;
    if !rest.is_empty() {
        return Err(Refusal::TrailingBytes);
    }
    Ok(Counts { code, edges, data })
}

// The count of the section that begins here, and the bytes after it.
fn section(s: &[u8], size: usize, low: usize) -> Result<(usize, &[u8]), Refusal>
    requires { size ≤ 16 }
    ensures { MatchResult result (λ r. (count_of size low s.now ≡ Ok r.0) × (r.1.now ≡ drop (4 + r.0 * size) s.now)) (λ why. count_of size low s.now ≡ Err why) }
{
    let k = count(s, size, low)?;
    Ok((k, &s[4 + k * size..]))
}

// The count of the section that begins here: low to 2,048 items of `size` bytes, which are all there.
#[tactic(auto, unfolding(crate::specs::Parcel::count_of))]
fn count(s: &[u8], size: usize, low: usize) -> Result<usize, Refusal>
    requires { size ≤ 16 }
    ensures is { result ≡ count_of size low s.now }
    ensures room { IfOk result (λ k. (k * size ≤ 32768) × (4 + k * size ≤ length s.now)) }
{
    if s.len() < 4 {
        return Err(Refusal::CountMissing);
    }
    let k = u32::read(s, 0) as usize;
    if k < low || 2048 < k {
        return Err(Refusal::CountLimit);
    }
    if s.len() - 4 < k * size {
        return Err(Refusal::ItemsMissing);
    }
    Ok(k)
}
