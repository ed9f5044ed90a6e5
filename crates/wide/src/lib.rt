// The calls for C and Rust on the second parcel edition (document 02, K6): reader, writer, check and the converters.
// `include/post_guard.h` declares them. C needs a name for each, however alike two of them are, and lends each place by itself.
#![tactic(auto)]

ghost use Rattle.parcel.specs.Parcel.{read_of};
ghost use Rattle.editions.specs.Converters.{bytes_for, widened_of, narrowed_of};
ghost use Rattle.capi.specs.Checks.{CheckCall};
ghost use Rattle.capi.specs.Parcels.{ReadCall, PutCall, WritePlacedCall};

use capi::{put_answer, put_written, room_of, technique_of, too_short};

pub fn pg_check_wide(
    technique: u8,
    memory: &[u64],
    n: usize,
    edges: &[u32],
    place: &mut [u64],
) -> u32
    ensures { CheckCall technique memory.now n edges.now place.old result place.new }
{
    if place.len() < 2 {
        return too_short();
    }
    put_answer(
        place,
        editions::check_wide(technique_of(technique), memory, n, edges),
    )
}

pub fn pg_read_wide_parcel(
    parcel: &[u8],
    memory: &mut [u64],
    edges: &mut [u32],
    counts: &mut [u64],
) -> u32
    ensures { ReadCall 4 parcel.now memory.old edges.old counts.old result memory.new edges.new counts.new }
{
    capi::read_lent(parcel, memory, edges, counts)
}

pub fn pg_write_wide_parcel(
    memory: &[u64],
    n: usize,
    edges: &[u32],
    parcel: &mut [u8],
    count: &mut [u64],
    place: &mut [u64],
) -> u32
    ensures { WritePlacedCall 4 memory.now n edges.now parcel.old count.old place.old result parcel.new count.new place.new }
{
    capi::write_lent(memory, n, edges, parcel, count, place)
}

pub fn pg_widen(parcel: &[u8], wide: &mut [u8], count: &mut [u64], place: &mut [u64]) -> u32
    ensures { PutCall (λ short. widened_of short (read_of 2 parcel.now)) (bytes_for 4 (read_of 2 parcel.now)) wide.old count.old place.old result wide.new count.new place.new }
{
    let room = room_of(count.len(), 1, place.len(), wide.len());
    let written = editions::widen(parcel, &mut wide[..room]);
    put_written(written, count, place)
}

pub fn pg_narrow(wide: &[u8], parcel: &mut [u8], count: &mut [u64], place: &mut [u64]) -> u32
    ensures { PutCall (λ short. narrowed_of short (read_of 4 wide.now)) (bytes_for 2 (read_of 4 wide.now)) parcel.old count.old place.old result parcel.new count.new place.new }
{
    let room = room_of(count.len(), 1, place.len(), parcel.len());
    let written = editions::narrow(wide, &mut parcel[..room]);
    put_written(written, count, place)
}
