// The call for C and Rust that a site's manager makes: the shortest way to a routine (document 02, K9). `include/post_guard.h` says the same
// for C. C lends each place by itself, and so the list of parameters is long.
#![tactic(auto)]

ghost use Rattle.std.specs.Prelude.{◌≡◌};
ghost use Rattle.manager.specs.Calls.{found_number, PathCall};
ghost use Rattle.manager.specs.Inside.{FoundPut};

use answers::Fault;
use capi::{answer_number, put, put_answer, room_of, technique_of};

pub fn pg_shortest_path(
    technique: u8,
    memory: &[u64],
    n: usize,
    edges: &[u16],
    address: u64,
    path: &mut [u16],
    count: &mut [u64],
    place: &mut [u64],
) -> u32
    ensures { PathCall technique memory.now n edges.now address path.old count.old place.old result path.new count.new place.new }
{
    let room = room_of(count.len(), 1, place.len(), path.len());
    let found = paths::shortest_path(
        technique_of(technique),
        memory,
        n,
        edges,
        address,
        &mut path[..room],
    );
    put_found(found, count, place)
}

// The number of what was found, and its length and its place put down.
fn put_found(found: Result<Option<usize>, Fault>, count: &mut [u64], place: &mut [u64]) -> u32
    ensures { FoundPut found count.old place.old result count.new place.new }
{
    if let Ok(Some(len)) = found {
        put(count, [len as u64]);
    }
    put_answer(place, found);
    found_number(found)
}

fn found_number(found: Result<Option<usize>, Fault>) -> u32
    ensures { result ≡ found_number found }
{
    match found {
        Ok(None) => 258,
        _ => answer_number(found),
    }
}
