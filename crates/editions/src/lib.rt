// The two parcel editions (document 02, K6): a converter each way, from bytes to bytes, and the check on edge numbers of 32 bits.
#![tactic(auto)]

mod cut;
mod numbers;

ghost use Rattle.std.specs.Prelude.{◌≡◌, ◌⊎◌, ◌≤◌, Ok};
ghost use Rattle.checker.specs.Verdicts.{verdict_of};
ghost use Rattle.parcel.specs.Parcel.{read_of, counts_of};
ghost use Rattle.editions.specs.Converters.{WidenedSo, NarrowedSo};
ghost use Rattle.editions.specs.Inside.{ConvertedSo};

use answers::{Fault, Place, Refusal, Verdict};
use isa::Technique;
use parcel::{Counts, Edition};

// Puts a parcel of the first edition as one of the second.
pub fn widen(parcel: &[u8], wide: &mut [u8]) -> Result<usize, Fault>
    ensures { WidenedSo parcel.now wide.old result wide.new }
{
    let found = parcel::counts(Edition::First, parcel)?;
    convert::<2, 4>(parcel, found, wide)
}

// Puts a parcel of the second edition as one of the first, if no address is above 65,535.
#[tactic(auto, using(crate::proofs::Converted::counted_long, crate::proofs::Converted::too_wide))]
pub fn narrow(wide: &[u8], parcel: &mut [u8]) -> Result<usize, Fault>
    ensures { NarrowedSo wide.now parcel.old result parcel.new }
{
    let found = parcel::counts(Edition::Second, wide)?;
    let numbers = &wide[8 + found.code * 8..];
    if let Some(edge) = numbers::first_wide(numbers, found.edges) {
        return Err(Fault {
            refusal: Refusal::EdgeTooWide,
            place: Place::Edge(edge),
        });
    }
    convert::<4, 2>(wide, found, parcel)
}

// Puts a parcel that was counted, with edge numbers of W bytes, as one with V, if the place is long enough.
// What the two widths are is asked here and below: a const parameter carries no fact.
#[tactic(auto, using(crate::proofs::Converted::counted_long, crate::proofs::Converted::convert_short))]
fn convert<const W: usize, const V: usize>(
    s: &[u8],
    found: Counts,
    to: &mut [u8],
) -> Result<usize, Fault>
    requires { (W ≡ 2 ⊎ V ≡ 2) × (2 ≤ W) × (W ≤ 4) × (2 ≤ V) × (V ≤ 4) × (Ok found ≡ counts_of (read_of W s.now)) }
    ensures { ConvertedSo W V s.now to.old result to.new }
{
    let front = 8 + found.code * 8;
    let read = front + found.edges * (2 * W);
    let put = front + found.edges * (2 * V);
    let back = 4 + found.data * 8;
    if to.len() < put + back {
        return Err(Fault::nowhere(Refusal::PlaceTooShort));
    }
    numbers::copy(&s[..front], to, 0);
    numbers::put_edges::<W, V>(&s[front..], found.edges, to, front);
    numbers::copy(&s[read..], to, put);
    Ok(put + back)
}

// `checker::check` on edge numbers of 32 bits. An address that 16 bits do not hold is outside code, and so is the one that is
// put for it.
#[tactic(auto, using(checker::proofs::Rules::broken_once), unfolding(checker::specs::Verdicts::verdict_of))]
pub fn check_wide(technique: Technique, memory: &[u64], n: usize, edges: &[u32]) -> Verdict
    ensures { result ≡ verdict_of technique memory.now n edges.now }
{
    let count = edges.len();
    if !answers::call_shaped(memory.len(), n, count) {
        return Err(Fault::nowhere(Refusal::Shape));
    }
    let mut low = [0u16; 4096];
    cut::cut_into(edges, &mut low);
    checker::check(technique, memory, n, &low[..count])
}
