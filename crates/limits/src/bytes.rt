// Bytes of parcels: a parcel of given counts, its edges rising, its other bytes a pattern; and what the lent places must hold afterwards.
ghost use Rattle.std.specs.Prelude.{◌<◌, ◌≤◌, ◌^◌};

use parcel::Counts;
use std::array;
use std::iter::repeat;

pub(crate) const ROOM: usize = 41000;

pub(crate) const UNTOUCHED_WORD: u64 = 0xa5a5_a5a5_a5a5_a5a5;

pub(crate) const UNTOUCHED_NUMBER: u16 = 0x5a5a;

pub(crate) const UNTOUCHED_BYTE: u8 = 0x3c;

// Code words, edges and data words of a parcel.
#[derive(Clone, Copy)]
pub(crate) struct Shape {
    code: u16,
    edges: u16,
    words: u16,
}

impl Shape {
    pub(crate) fn new(code: u16, edges: u16, words: u16) -> Self {
        Self { code, edges, words }
    }

    pub(crate) fn counts(self) -> Counts
        ensures { (result.code < 65536) × (result.edges < 65536) × (result.data < 65536) }
    {
        Counts {
            code: usize::from(self.code),
            edges: usize::from(self.edges),
            data: usize::from(self.words),
        }
    }

    pub(crate) fn edges_at(self) -> usize
        ensures { result < 2 ^ 20 }
    {
        4 + usize::from(self.code) * 8
    }

    pub(crate) fn data_at(self) -> usize
        ensures { (8 ≤ result) × (result < 2 ^ 20) }
    {
        8 + usize::from(self.code) * 8 + usize::from(self.edges) * 4
    }

    pub(crate) fn size(self) -> usize
        ensures { result < 2 ^ 21 }
    {
        12 + usize::from(self.code) * 8 + usize::from(self.edges) * 4 + usize::from(self.words) * 8
    }

    // A parcel of these counts, its edges rising, its other bytes a pattern. The edges start at 0, 1, 2 and so on, and so they rise.
    pub(crate) fn laid(self) -> [u8; ROOM] {
        let mut bytes = array::from_fn(|k| (k % 251) as u8);
        put(&mut bytes, 0, &u32::from(self.code).to_le_bytes());
        put(
            &mut bytes,
            self.edges_at(),
            &u32::from(self.edges).to_le_bytes(),
        );
        put(
            &mut bytes,
            self.data_at(),
            &u32::from(self.words).to_le_bytes(),
        );
        for k in 0..self.edges {
            put(
                &mut bytes,
                self.edges_at() + 4 + usize::from(k) * 4,
                &k.to_le_bytes(),
            );
        }
        bytes
    }

    // The same with the last two edges as one edge twice.
    pub(crate) fn laid_with_repeat(self) -> [u8; ROOM] {
        let mut bytes = self.laid();
        let end = self.data_at();
        if let Some(edge) = bytes
            .get(end - 8..)
            .and_then(|rest| rest.first_chunk::<4>())
            .copied()
        {
            put(&mut bytes, end - 4, &edge);
        }
        bytes
    }

    // The same as laid with a count of 2^32 - 1 at a place.
    pub(crate) fn laid_with_huge(self, at: usize) -> [u8; ROOM] {
        let mut bytes = self.laid();
        put(&mut bytes, at, &u32::MAX.to_le_bytes());
        bytes
    }

    // The places hold the parcel's words and edge numbers, and after them what they held before.
    pub(crate) fn held(self, bytes: &[u8], memory: &[u64], edges: &[u16]) -> bool {
        let code = section(bytes, 4, usize::from(self.code) * 8)
            .as_chunks::<8>()
            .0;
        let pairs = section(bytes, self.edges_at() + 4, usize::from(self.edges) * 4)
            .as_chunks::<2>()
            .0;
        let data = section(bytes, self.data_at() + 4, usize::from(self.words) * 8)
            .as_chunks::<8>()
            .0;
        let words = code
            .iter()
            .chain(data)
            .map(|word| u64::from_le_bytes(*word))
            .chain(repeat(UNTOUCHED_WORD));
        let numbers = pairs
            .iter()
            .map(|number| u16::from_le_bytes(*number))
            .chain(repeat(UNTOUCHED_NUMBER));
        memory.iter().zip(words).all(|(held, word)| *held == word)
            && edges
                .iter()
                .zip(numbers)
                .all(|(held, number)| *held == number)
    }
}

// So many bytes from a place on.
fn section(bytes: &[u8], at: usize, size: usize) -> &[u8] {
    bytes
        .get(at..)
        .and_then(|rest| rest.get(..size))
        .unwrap_or(&[])
}

fn put(bytes: &mut [u8], at: usize, value: &[u8]) {
    if let Some(rest) = bytes.get_mut(at..) {
        for (place, byte) in rest.iter_mut().zip(value) {
            *place = *byte;
        }
    }
}

// The place begins with these bytes, and after them is as it was.
pub(crate) fn begins(place: &[u8], bytes: &[u8]) -> bool {
    let expected = bytes.iter().copied().chain(repeat(UNTOUCHED_BYTE));
    place.iter().zip(expected).all(|(held, byte)| *held == byte)
}
