// The calls for C and Rust: numbers and slices, a slice as its pointer and its length. `include/post_guard.h` declares them.
// C lends each place and each number by itself, and so the lists of parameters are long.
#![tactic(auto)]

ghost use Rattle.std.specs.Prelude.{◌≡◌, cond, ◌||◌, ◌++◌, drop, length, ltb, MatchResult};
ghost use Rattle.isa.specs.Words.{fields_of, decode_of};
ghost use Rattle.capi.specs.Words.{DecodeCall, numbers_of, encode_call, too_short};
ghost use Rattle.capi.specs.States.{technique_of, stop_answer, outcome_answer, StepCall, RunCall, WriteDataCall, WriteRegisterCall};
ghost use Rattle.capi.specs.Inside.{Ordered, RunNumber};
ghost use Rattle.capi.specs.Checks.{answer_number, answer_place, place_numbers, place_after, AnswerPut, CheckCall};
ghost use Rattle.capi.specs.Parcels.{ReadPut, ReadCall, WriteCall, WritePlacedCall, WrittenPut};

use answers::{Fault, Place, Refusal};
use isa::{Fields, Technique};
use machine::{Halt, STATE_WORDS, Stop};
use parcel::{Counts, InBytes};
use rising::EdgeNumber;

pub fn pg_decode(word: u64, place: &mut [u32]) -> u32
    ensures { DecodeCall word place.old result place.new }
{
    if place.len() < 5 {
        return too_short();
    }
    put(place, numbers_of(word));
    0
}

// An instruction's opcode, a, b, c and w; an illegal word has opcode 255 and zeros.
#[tactic(auto, using(crate::proofs::Words::legal_numbers, crate::proofs::Words::illegal_numbers))]
fn numbers_of(word: u64) -> [u32; 5]
    ensures { result ≡ numbers_of (fields_of (decode_of word)) }
{
    if isa::is_illegal(word) {
        return [255, 0, 0, 0, 0];
    }
    let opcode = (word / 0x100_0000_0000_0000) as u32;
    let f = Fields::of_word(word);
    [opcode, u32::from(f.a), u32::from(f.b), u32::from(f.c), f.w]
}

pub fn pg_encode(opcode: u8, a: u8, b: u8, c: u8, w: u32) -> u64
    ensures { result ≡ encode_call opcode a b c w }
{
    isa::encode_fields(opcode, a, b, c, w)
}

// A step is a run with limit 1.
#[tactic(auto, using(machine::proofs::OneStep::one_step))]
pub fn pg_step(technique: u8, state: &mut [u64], memory: &mut [u64], n: usize) -> u32
    ensures { StepCall technique n state.old memory.old result state.new memory.new }
{
    let ran = run_number(order_of(technique, 1), state, memory, n);
    (ran % 0x1_0000_0000) as u32
}

pub fn pg_run(
    technique: u8,
    state: &mut [u64],
    memory: &mut [u64],
    n: usize,
    limit: u16,
    count: &mut [u64],
) -> u32
    ensures { RunCall technique n limit state.old memory.old count.old result state.new memory.new count.new }
{
    if state.len() < STATE_WORDS || count.len() < 1 {
        return too_short();
    }
    let ran = run_number(order_of(technique, limit), state, memory, n);
    count[0] = ran / 0x1_0000_0000;
    (ran % 0x1_0000_0000) as u32
}

pub fn pg_write_data(memory: &mut [u64], n: usize, address: u64, word: u64) -> u32
    ensures { WriteDataCall n memory.old address word result memory.new }
{
    number_of(bus::write_data(memory, n, address, word))
}

pub fn pg_write_register(state: &mut [u64], register: u64, word: u64) -> u32
    ensures { WriteRegisterCall state.old register word result state.new }
{
    number_of(bus::write_register_lent(state, register, word))
}

pub fn pg_check(technique: u8, memory: &[u64], n: usize, edges: &[u16], place: &mut [u64]) -> u32
    ensures { CheckCall technique memory.now n edges.now place.old result place.new }
{
    if place.len() < 2 {
        return too_short();
    }
    put_answer(
        place,
        checker::check(technique_of(technique), memory, n, edges),
    )
}

pub fn pg_read_parcel(
    parcel: &[u8],
    memory: &mut [u64],
    edges: &mut [u16],
    counts: &mut [u64],
) -> u32
    ensures { ReadCall 2 parcel.now memory.old edges.old counts.old result memory.new edges.new counts.new }
{
    read_lent(parcel, memory, edges, counts)
}

// The place of a refusal is not asked for.
pub fn pg_write_parcel(
    memory: &[u64],
    n: usize,
    edges: &[u16],
    parcel: &mut [u8],
    count: &mut [u64],
) -> u32
    ensures { WriteCall memory.now n edges.now parcel.old count.old result parcel.new count.new }
{
    pg_write_parcel_placed(memory, n, edges, parcel, count, &mut [0; 2])
}

// The same, with the place of a refusal put down.
pub fn pg_write_parcel_placed(
    memory: &[u64],
    n: usize,
    edges: &[u16],
    parcel: &mut [u8],
    count: &mut [u64],
    place: &mut [u64],
) -> u32
    ensures { WritePlacedCall 2 memory.now n edges.now parcel.old count.old place.old result parcel.new count.new place.new }
{
    write_lent(memory, n, edges, parcel, count, place)
}

// A parcel of either edition read, and its counts put down.
pub fn read_lent<E: EdgeNumber + InBytes>(
    parcel: &[u8],
    memory: &mut [u64],
    edges: &mut [E],
    counts: &mut [u64],
) -> u32
    ensures { ReadCall E.WIDTH parcel.now memory.old (E.numbers edges.old) counts.old result memory.new (E.numbers edges.new) counts.new }
{
    // No place of a refusal is put here, so none can be too short: 2 is enough.
    let room = room_of(counts.len(), 3, 2, memory.len());
    let read = parcel::read_parcel(parcel, &mut memory[..room], edges);
    put_read(counts, read)
}

// A parcel of either edition written, and its size and the place of a refusal put down.
pub fn write_lent<E: EdgeNumber + InBytes>(
    memory: &[u64],
    n: usize,
    edges: &[E],
    parcel: &mut [u8],
    count: &mut [u64],
    place: &mut [u64],
) -> u32
    ensures { WritePlacedCall E.WIDTH memory.now n (E.numbers edges.now) parcel.old count.old place.old result parcel.new count.new place.new }
{
    let room = room_of(count.len(), 1, place.len(), parcel.len());
    let written = parcel::write_parcel(memory, n, edges, &mut parcel[..room]);
    put_written(written, count, place)
}

// The number of every call whose place is too short.
pub fn too_short() -> u32
    ensures { result ≡ too_short }
{
    u32::from(u8::from(Refusal::PlaceTooShort))
}

// How much of a lent place may be used: none of it where there is no room for so many counts or for the place of a refusal, so that 5
// comes after every other number.
pub fn room_of(counts: usize, needed: usize, place: usize, len: usize) -> usize
    ensures { result ≡ cond (ltb place 2 || ltb counts needed) 0 len }
{
    if place < 2 || counts < needed {
        return 0;
    }
    len
}

// The number of what was written, and its size and its place put down.
// No plainer by one function with `put_read`: that puts no place, and each answer would have to be mapped to an array of its own length first.
pub fn put_written(written: Result<usize, Fault>, count: &mut [u64], place: &mut [u64]) -> u32
    ensures { WrittenPut written count.old place.old result count.new place.new }
{
    if let Ok(size) = written {
        put(count, [size as u64]);
    }
    put_answer(place, written)
}

// The answer to a reading, and its counts put down.
pub fn put_read(counts: &mut [u64], read: Result<Counts, Fault>) -> u32
    ensures { ReadPut read counts.old result counts.new }
{
    if let Ok(found) = read {
        put(
            counts,
            [found.code as u64, found.edges as u64, found.data as u64],
        );
    }
    answer_number(read)
}

// The number of an answer, and the place of what it refuses put down.
pub fn put_answer<T: Copy>(place: &mut [u64], answer: Result<T, Fault>) -> u32
    ensures { AnswerPut answer place.old result place.new }
{
    put_place(place, answer_place(answer));
    answer_number(answer)
}

// Which kind of place it is, and the place, where there is room for the two numbers.
pub fn put_place(place: &mut [u64], at: Place)
    ensures { place.new ≡ place_after at place.old }
{
    put(place, place_numbers(at));
}

// Numbers at the front of a place, where there is room for them.
pub fn put<T: Copy, const K: usize>(place: &mut [T], numbers: [T; K])
    ensures { place.new ≡ cond (ltb (length place.old) K) place.old (numbers ++ drop K place.old) }
{
    if place.len() < K {
        return;
    }
    place[..K].copy_from_slice(&numbers);
}

// The number of what is refused, or 0.
pub fn answer_number<T: Copy>(answer: Result<T, Fault>) -> u32
    ensures { result ≡ answer_number answer }
{
    number_of(answer.map_err(|fault| fault.refusal))
}

// The place of what is refused.
pub fn answer_place<T: Copy>(answer: Result<T, Fault>) -> Place
    ensures { result ≡ answer_place answer }
{
    match answer {
        Ok(_) => Place::Nowhere,
        Err(fault) => fault.place,
    }
}

fn place_numbers(at: Place) -> [u64; 2]
    ensures { result ≡ place_numbers at }
{
    match at {
        Place::Edge(k) => [1, k as u64],
        Place::Address(a) => [2, a as u64],
        Place::Nowhere => [0, 0],
    }
}

// The number of a refusal, or 0 where there is none.
fn number_of<T: Copy, E: Copy + Into<u8>>(answer: Result<T, E>) -> u32
    ensures { MatchResult answer (λ _. result ≡ 0) (λ e. E.converts e result) }
{
    match answer {
        Ok(_) => 0,
        Err(e) => u32::from(e.into()),
    }
}

// A technique's number and a limit in one number: so a run takes six numbers, which all go in registers, for speed (docs/PERFORMANCE.md).
fn order_of(technique: u8, limit: u16) -> u32
    ensures { Ordered technique limit result }
{
    u32::from(limit) * 256 + u32::from(technique)
}

// The run by such a number; its answer and its count come back in one number, in a register.
fn run_number(order: u32, state: &mut [u64], memory: &mut [u64], n: usize) -> u64
    ensures { RunNumber order n state.old memory.old result state.new memory.new }
{
    let technique = (order % 256) as u8;
    let limit = (order / 256 % 65536) as u16;
    let ended = machine::run_lent(technique_of(technique), state, memory, n, limit);
    u64::from(ended.count) * 0x1_0000_0000 + u64::from(outcome_answer(ended.ending))
}

// The number of a stop or of a refusal, or 0 where there is none.
fn outcome_answer(outcome: Result<(), Halt>) -> u32
    ensures { result ≡ outcome_answer outcome }
{
    match outcome {
        Ok(()) => 0,
        Err(Halt::Stopped(stop)) => stop_answer(stop),
        Err(Halt::Refused(refusal)) => u32::from(u8::from(refusal)),
    }
}

// Stops 5 and 6 have the numbers of two refusals: so 256 is added to theirs.
fn stop_answer(stop: Stop) -> u32
    ensures { result ≡ stop_answer stop }
{
    match stop {
        Stop::Fetch => 1,
        Stop::Illegal => 2,
        Stop::Access => 3,
        Stop::Next => 4,
        Stop::Full => 261,
        Stop::Empty => 262,
    }
}

// The number is the C interface's: `From` could only stand in `isa`, where techniques have no numbers.
pub fn technique_of(number: u8) -> Technique
    ensures { result ≡ technique_of number }
{
    if number == 0 {
        Technique::Plain
    } else {
        Technique::MemoryGuards
    }
}
