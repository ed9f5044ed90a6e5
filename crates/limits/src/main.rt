// Parcels at their limits (document 01, "Parcel", and the rows without a star; document 02, K3): read, refused and written back. A
// refusal, and whatever a call does not put there, must leave the lent places as they were.
#![tactic(auto)]

mod bytes;

use answers::{Fault, Place};
use bytes::{ROOM, Shape, UNTOUCHED_BYTE, UNTOUCHED_NUMBER, UNTOUCHED_WORD, begins};
use std::{array, fmt, io};

// How many rows were tried, and how many failed.
#[derive(Clone, Copy)]
struct Rows {
    tried: u64,
    failed: u64,
}

impl Rows {
    fn none() -> Self {
        Self {
            tried: 0,
            failed: 0,
        }
    }

    fn add(&mut self, passed: bool) {
        self.tried = self.tried.wrapping_add(1);
        self.failed = self.failed.wrapping_add(u64::from(!passed));
    }
}

impl fmt::Display for Rows {
    fn fmt<W: fmt::Write>(&self, f: &mut fmt::Formatter<W>) -> fmt::Result {
        write!(f, "{} rows, failed {}", self.tried, self.failed)
    }
}

fn main(rt: HostRuntime) -> io::Result<()> {
    println!(rt; "parcel limits: {}", limits())?;
    println!(rt; "counts of 2^32 - 1: {}", huge_counts())?;
    println!(rt; "places one too short: {}", short_places())?;
    println!(rt; "parcels cut short or too long: {}", cuts())?;
    println!(rt; "parcels written back: {}", written_back())?;
    println!(rt;
        "parcels read, and not written back: {}",
        not_written_back()
    )?;
    println!(rt; "refused by the writer: {}", refused_writes())
}

// "2,048 code words read, 2,049 give 2; 2,048 edges read, 2,049 give 2", and so for 0 code words and for data.
fn limits() -> Rows {
    let mut rows = Rows::none();
    for (code, edges, data, answer) in [
        (1, 0, 0, Ok(())),
        (0, 0, 0, Err(2)),
        (2048, 0, 0, Ok(())),
        (2049, 0, 0, Err(2)),
        (9, 1, 0, Ok(())),
        (1, 2048, 0, Ok(())),
        (1, 2049, 0, Err(2)),
        (1, 0, 2048, Ok(())),
        (1, 0, 2049, Err(2)),
        (2048, 2048, 2048, Ok(())),
        (2048, 2048, 2049, Err(2)),
    ] {
        let shape = Shape::new(code, edges, data);
        rows.add(reads(shape, shape.size(), 4096, 4096, answer));
    }
    rows
}

fn huge_counts() -> Rows {
    let shape = Shape::new(3, 2, 4);
    let mut rows = Rows::none();
    for at in [0, shape.edges_at(), shape.data_at()] {
        let bytes = shape.laid_with_huge(at);
        let parcel = bytes.get(..shape.size());
        rows.add(parcel.is_some_and(|parcel| { reads_so(shape, parcel, 4096, 4096, Err(2)) }));
    }
    rows
}

// Places of exactly the room that a parcel takes, and each one shorter.
fn short_places() -> Rows {
    let mut rows = Rows::none();
    for (shape, words, numbers) in [
        (Shape::new(3, 2, 4), 7, 4),
        (Shape::new(2048, 2048, 2048), 4096, 4096),
    ] {
        let size = shape.size();
        let short = Err(5);
        rows.add(reads(shape, size, words, numbers, Ok(())));
        rows.add(reads(shape, size, words.wrapping_sub(1), numbers, short));
        rows.add(reads(shape, size, words, numbers.wrapping_sub(1), short));
        rows.add(reads(shape, size, 0, 0, short));
    }
    rows
}

// A parcel at each length from 0 to one byte more than it has.
fn cuts() -> Rows {
    let mut rows = Rows::none();
    for shape in [
        Shape::new(1, 0, 0),
        Shape::new(9, 1, 0),
        Shape::new(3, 2, 4),
    ] {
        for size in 0..shape.size() + 2 {
            rows.add(reads(shape, size, 4096, 4096, answer_at(shape, size)));
        }
    }
    rows
}

// Of three sections, the first whose count or whose items the bytes do not reach.
fn answer_at(shape: Shape, size: usize) -> Result<(), u8> {
    if size > shape.size() {
        return Err(4);
    }
    let starts = [0, shape.edges_at(), shape.data_at()];
    let ends = [shape.edges_at(), shape.data_at(), shape.size()];
    for (start, end) in starts.iter().zip(ends) {
        if size < start.wrapping_add(4) {
            return Err(1);
        }
        if size < end {
            return Err(3);
        }
    }
    Ok(())
}

fn written_back() -> Rows {
    let mut rows = Rows::none();
    for shape in [
        Shape::new(1, 0, 0),
        Shape::new(9, 1, 0),
        Shape::new(3, 2, 4),
        Shape::new(2048, 2048, 2048),
    ] {
        rows.add(writes(shape, &shape.laid(), Ok(shape.size())));
    }
    rows
}

// "Such a parcel is read but not written back", with the place of its last edge.
fn not_written_back() -> Rows {
    let mut rows = Rows::none();
    for (code, edges, data) in [(9, 2, 0), (3, 5, 4), (2048, 2048, 2048)] {
        let shape = Shape::new(code, edges, data);
        let last = Place::Edge(usize::from(edges.wrapping_sub(1)));
        rows.add(writes(shape, &shape.laid_with_repeat(), Err((18, last))));
    }
    rows
}

// The writer tests 6 first, then 18, then 5.
fn refused_writes() -> Rows {
    let mut rows = Rows::none();
    for (len, n, numbers, last, room, number) in [
        (7, 3, 4, None, 75, 5),
        (4096, 2048, 4096, None, 40971, 5),
        (7, 0, 4, None, ROOM, 6),
        (7, 8, 4, None, ROOM, 6),
        (2049, 2049, 4, None, ROOM, 6),
        (2052, 3, 4, None, ROOM, 6),
        (7, 3, 3, None, ROOM, 6),
        (7, 3, 4098, None, ROOM, 6),
        (7, 0, 4, None, 0, 6),
        (7, 3, 4, Some(0), ROOM, 18),
        (7, 3, 4, Some(0), 0, 18),
        (4096, 2048, 4096, Some(2046), 40972, 18),
        (7, 0, 4, Some(0), ROOM, 6),
        (7, 3, 3, Some(0), 0, 6),
    ] {
        rows.add(refuses_to_write(len, n, numbers, last, room, number));
    }
    rows
}

// So many bytes of a parcel of this shape, read into places of so many words and edge numbers, are answered so.
fn reads(shape: Shape, size: usize, words: usize, numbers: usize, answer: Result<(), u8>) -> bool {
    let bytes = shape.laid();
    let parcel = bytes.get(..size);
    parcel.is_some_and(|parcel| reads_so(shape, parcel, words, numbers, answer))
}

// The bytes are read as a parcel of this shape, or refused so.
fn reads_so(
    shape: Shape,
    parcel: &[u8],
    words: usize,
    numbers: usize,
    answer: Result<(), u8>,
) -> bool {
    let mut memory = [UNTOUCHED_WORD; 4200];
    let mut edges = [UNTOUCHED_NUMBER; 4200];
    let (Some(memory_place), Some(edge_place)) = (memory.get_mut(..words), edges.get_mut(..numbers))
    else {
        return false;
    };
    let read = parcel::read_parcel(parcel, memory_place, edge_place);
    match answer {
        Ok(()) => read == Ok(shape.counts()) && shape.held(parcel, &memory, &edges),
        Err(number) => {
            is_refused(read, number, Place::Nowhere)
                && Shape::new(0, 0, 0).held(parcel, &memory, &edges)
        }
    }
}

// Refused with this number of document 01, at this place.
fn is_refused<T: Copy>(answer: Result<T, Fault>, number: u8, place: Place) -> bool {
    match answer {
        Err(fault) => u8::from(fault.refusal) == number && fault.place == place,
        Ok(_) => false,
    }
}

// A parcel of this shape is read, and written again it gives this size and the same bytes, or this number at this place and leaves its
// place as it was.
fn writes(shape: Shape, bytes: &[u8], answer: Result<usize, (u8, Place)>) -> bool {
    let mut memory = [UNTOUCHED_WORD; 4200];
    let mut edges = [UNTOUCHED_NUMBER; 4200];
    let mut out = [UNTOUCHED_BYTE; ROOM];
    let counts = shape.counts();
    let Some(parcel) = bytes.get(..shape.size()) else {
        return false;
    };
    if parcel::read_parcel(parcel, &mut memory, &mut edges) != Ok(counts) {
        return false;
    }
    let (Some(words), Some(numbers)) = (
        memory.get(..counts.code + counts.data),
        edges.get(..counts.edges * 2),
    ) else {
        return false;
    };
    let written = parcel::write_parcel(words, counts.code, numbers, &mut out);
    let wrote = match answer {
        Ok(size) => written == Ok(size) && begins(&out, parcel),
        Err((number, place)) => is_refused(written, number, place) && begins(&out, &[]),
    };
    shape.held(parcel, &memory, &edges) && wrote
}

// So many words with n of code, so many edge numbers and a place of so many bytes are refused, 18 at its edge, and the place stays as
// it was. The edges rise, but for the one after `last`, which is that edge again.
fn refuses_to_write(
    len: usize,
    n: usize,
    numbers: usize,
    last: Option<usize>,
    room: usize,
    number: u8,
) -> bool {
    let memory = [7u64; 4200];
    let edges = rising_but(last);
    let mut out = [UNTOUCHED_BYTE; ROOM];
    let place = match (number, last) {
        (18, Some(last)) => Place::Edge(last.wrapping_add(1)),
        _ => Place::Nowhere,
    };
    let (Some(words), Some(numbers), Some(parcel)) = (
        memory.get(..len),
        edges.get(..numbers),
        out.get_mut(..room),
    ) else {
        return false;
    };
    let written = parcel::write_parcel(words, n, numbers, parcel);
    is_refused(written, number, place) && begins(&out, &[])
}

// Edge k is from k to 0, and the one after `last` is the same as it.
fn rising_but(last: Option<usize>) -> [u16; 4200] {
    array::from_fn(|i| {
        let k = i / 2 % 65536;
        match last {
            _ if i % 2 == 1 => 0,
            Some(last) if k == last.wrapping_add(1) => (last % 65536) as u16,
            _ => k as u16,
        }
    })
}
