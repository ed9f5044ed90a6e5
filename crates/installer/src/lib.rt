// The calls for C and Rust that an installer makes: guards put into bare code (document 02, K7). `include/post_guard.h` says the same for C.
// C lends each place by itself, and so the list of parameters is long.
#![tactic(auto)]

ghost use Rattle.installer.specs.Calls.{RewriteCall};
ghost use Rattle.installer.specs.Inside.{RewrittenPut};

use answers::Fault;
use capi::{put, put_answer, room_of};
use rewrite::Rewritten;

pub fn pg_rewrite(
    memory: &[u64],
    n: usize,
    edges: &[u16],
    code: &mut [u64],
    new_edges: &mut [u16],
    map: &mut [u16],
    counts: &mut [u64],
    place: &mut [u64],
) -> u32
    ensures { RewriteCall memory.now n edges.now code.old new_edges.old map.old counts.old place.old result code.new new_edges.new map.new counts.new place.new }
{
    let room = room_of(counts.len(), 2, place.len(), code.len());
    let rewritten = rewrite::rewrite(memory, n, edges, &mut code[..room], new_edges, map);
    put_rewritten(rewritten, counts, place)
}

// The number of what came out, and its counts and its place put down.
// No plainer by one function with capi's `put_written`: each answer would have to be mapped to an array of its own length first.
fn put_rewritten(rewritten: Result<Rewritten, Fault>, counts: &mut [u64], place: &mut [u64]) -> u32
    ensures { RewrittenPut rewritten counts.old place.old result counts.new place.new }
{
    if let Ok(made) = rewritten {
        put(counts, [made.code as u64, made.edges as u64]);
    }
    put_answer(place, rewritten)
}
