// Edges one by one: rules 7 to 9.
ghost use Rattle.std.specs.Prelude.{◌≡◌, ◌<◌};
ghost use Rattle.graph.specs.Claim.{edge_count, jump_of, target_of};
ghost use Rattle.graph.specs.Rules.{starts_at_no_jump, ends_outside_code, lacks_edge};
ghost use Rattle.lists.specs.Search.{first, count};
ghost use Rattle.checker.specs.Ends.{is_jump_at};
ghost use Rattle.checker.specs.Passes.{unless_some};

use crate::claim::{Claim, Code};
use isa::Kind;

// An index below a length is asked at each call, here and below: no struct can hold it.
pub(crate) fn jump_number(edges: &[u16], k: usize) -> usize
    requires { k < edge_count edges.now }
    ensures { result ≡ jump_of edges.now k }
{
    usize::from(edges[2 * k])
}

pub(crate) fn target_number(edges: &[u16], k: usize) -> usize
    requires { k < edge_count edges.now }
    ensures { result ≡ target_of edges.now k }
{
    usize::from(edges[2 * k + 1])
}

// Rule 7: the first edge that starts where no jmp of the code is.
#[tactic(auto, unfolding(lists::specs::Search::first))]
pub(crate) fn first_from_no_jump(code: &Code<'_>, edges: &[u16]) -> Option<usize>
    ensures { result ≡ first (starts_at_no_jump code.now.memory.now code.now.n edges.now) (edge_count edges.now) }
{
    (0..edges.len() / 2).find(|k| starts_at_no_jump(code, edges, *k))
}

fn starts_at_no_jump(code: &Code<'_>, edges: &[u16], k: usize) -> bool
    requires { k < edge_count edges.now }
    ensures { result ≡ starts_at_no_jump code.now.memory.now code.now.n edges.now k }
{
    let j = jump_number(edges, k);
    code.n <= j || !code.is_at(Kind::Jmp, j)
}

// Rule 8: the first edge whose target is outside code.
#[tactic(auto, unfolding(lists::specs::Search::first))]
pub(crate) fn first_outside_code(n: usize, edges: &[u16]) -> Option<usize>
    ensures { result ≡ first (ends_outside_code n edges.now) (edge_count edges.now) }
{
    (0..edges.len() / 2).find(|k| n <= target_number(edges, *k))
}

// Rule 9: how many jmps there are, where each has an edge; or the lowest that has none. Edge k is the first that starts at a or above;
// where no jmp is, none starts.
#[tactic(auto, using(lists::proofs::First::first_none, lists::proofs::Counts::count_none))]
pub(crate) fn jumps_with_edges(claim: &Claim<'_>) -> Result<usize, usize>
    ensures { result ≡ unless_some (count (is_jump_at claim.now.code.memory.now) claim.now.code.n) (first (lacks_edge claim.now.code.memory.now claim.now.edges.now) claim.now.code.n) }
{
    let mut k = 0;
    let mut jumps = 0;
    // A `for`: the closure of a `find` would have to write k on the side.
    for a in 0..claim.code.n {
        if !claim.code.is_at(Kind::Jmp, a) {
            continue;
        }
        let end = claim.run_end(k, a);
        if end == k {
            return Err(a);
        }
        k = end;
        jumps += 1;
    }
    Ok(jumps)
}
