// Parcels (document 01, "Parcel"; document 02, K3 and K6): the reader and the writer of each edition.
#![tactic(auto)]

mod bytes;
mod reader;

ghost use Rattle.parcel.specs.Bytes.{numbers_of};
ghost use Rattle.parcel.specs.Parcel.{width_of, read_of, counts_of, room_for, section_of, ReadSo, WrittenSo};
ghost use Rattle.parcel.specs.Inner.{WellShaped, planned_of};
ghost use Rattle.lists.specs.Places.{put_over};
ghost use Rattle.std.specs.Prelude.{◌≡◌, ◌++◌, ◌+◌, ◌*◌, ◌≤◌, length, drop};
ghost use Rattle.std.proofs.lemmas.List.Edits.{sets};

use answers::{Fault, Place, Refusal};
pub use bytes::InBytes;
use bytes::Stored;
pub use reader::Counts;
use rising::EdgeNumber;

// An edge number has 16 bits in the first edition and 32 in the second.
#[derive(Clone, Copy, Debug, PartialEq, Eq)]
pub enum Edition {
    First,
    Second,
}

// How many code words, edges and data words a parcel of the edition holds, or why it is refused.
pub fn counts(edition: Edition, parcel: &[u8]) -> Result<Counts, Fault>
    ensures { result ≡ counts_of (read_of (width_of edition) parcel.now) }
{
    match edition {
        Edition::First => reader::held::<u16>(parcel),
        Edition::Second => reader::held::<u32>(parcel),
    }
}

// Reads a parcel: code, and data directly after it, into the memory, and edge numbers into the edges. Nothing is put anywhere
// before every test has passed. Edge numbers of 16 bits are read from the first edition, and of 32 from the second.
pub fn read_parcel<E: EdgeNumber + InBytes>(
    parcel: &[u8],
    memory: &mut [u64],
    edges: &mut [E],
) -> Result<Counts, Fault>
    ensures { ReadSo E.WIDTH parcel.now memory.old (E.numbers edges.old) result memory.new (E.numbers edges.new) }
{
    let found = room_for::<E>(parcel, memory.len(), edges.len())?;
    memory_into(
        parcel,
        found.code,
        12 + found.code * 8 + found.edges * (2 * E::WIDTH),
        found.data,
        memory,
    );
    bytes::numbers_into(parcel, 8 + found.code * 8, found.edges * 2, edges);
    Ok(found)
}

// Writes the memory, its first n words code, and the edges as a parcel of the edition that has such edge numbers, if the edges rise.
pub fn write_parcel<E: EdgeNumber + InBytes>(
    memory: &[u64],
    n: usize,
    edges: &[E],
    parcel: &mut [u8],
) -> Result<usize, Fault>
    ensures { WrittenSo E.WIDTH memory.now n (E.numbers edges.now) parcel.old result parcel.new }
{
    let len = memory.len();
    let numbers = edges.len();
    if !answers::call_shaped(len, n, numbers) {
        return Err(Fault::nowhere(Refusal::Shape));
    }
    let first = rising::first_not_rising(edges);
    let size = planned::<E>(len, n, numbers, first, parcel.len())?;
    put_section(parcel, 0, 1, &memory[..n]);
    put_section(parcel, 4 + n * 8, 2, edges);
    put_section(parcel, 8 + n * 8 + numbers * E::WIDTH, 1, &memory[n..]);
    Ok(size)
}

// What reading answers where places for so many words and edge numbers are lent.
fn room_for<E: InBytes>(parcel: &[u8], words: usize, numbers: usize) -> Result<Counts, Fault>
    ensures { result ≡ room_for words numbers (read_of E.WIDTH parcel.now) }
{
    let found = reader::held::<E>(parcel)?;
    if words < found.code + found.data || numbers < found.edges * 2 {
        return Err(Fault::nowhere(Refusal::PlaceTooShort));
    }
    Ok(found)
}

// The code words from 4 on, and directly after them the data words from at on, into the front of the memory. No plainer
// by the three counts and the width: this is one body for both editions, and its contract speaks of no edge.
#[tactic(auto, using(crate::proofs::ReaderAnswers::put_after, crate::proofs::Runs::length_numbers))]
fn memory_into(parcel: &[u8], code: usize, at: usize, words: usize, memory: &mut [u64])
    requires { (4 + code * 8 ≤ length parcel.now) × (at + words * 8 ≤ length parcel.now) × (code + words ≤ length memory.old) }
    ensures { memory.new ≡ put_over (numbers_of 8 code (drop 4 parcel.now) ++ numbers_of 8 words (drop at parcel.now)) memory.old }
{
    bytes::numbers_into(parcel, 4, code, memory);
    bytes::numbers_into(parcel, at, words, &mut memory[code..]);
}

// What writing answers: 18 with the first edge that doesn't rise, 5 where the parcel is longer than the room, or how many bytes it has.
// Lengths in place of the slices, as `call_shaped` has them: nothing is read of what is in them.
fn planned<E: InBytes>(
    len: usize,
    n: usize,
    numbers: usize,
    first: Option<usize>,
    room: usize,
) -> Result<usize, Fault>
    requires { WellShaped len n numbers }
    ensures { result ≡ planned_of len n numbers first E.WIDTH room }
{
    if let Some(edge) = first {
        return Err(Fault {
            refusal: Refusal::EdgeNotRising,
            place: Place::Edge(edge),
        });
    }
    let size = 4 + n * 8 + (4 + numbers * E::WIDTH) + (4 + (len - n) * 8);
    if room < size {
        return Err(Fault::nowhere(Refusal::PlaceTooShort));
    }
    Ok(size)
}

// A section from at on: the count of its items, which are so many numbers each, then the numbers. `s` and `at` stay apart, as in bytes.rt.
fn put_section<N: InBytes>(s: &mut [u8], at: usize, each: usize, xs: &[N])
    requires { (at + (4 + length xs.now * N.WIDTH) ≤ length s.old) × (length xs.now ≤ 4096) × (1 ≤ each) }
    ensures { s.new ≡ sets s.old at (section_of N.WIDTH each (N.numbers xs.now)) }
{
    ((xs.len() / each) as u32).write(s, at);
    bytes::put_numbers(s, at + 4, xs);
}
