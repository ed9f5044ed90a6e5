// Labels: rule 12.
ghost use Rattle.std.specs.Prelude.{◌≡◌, ◌<◌};
ghost use Rattle.graph.specs.Rules.{label_wrong};
ghost use Rattle.lists.specs.Search.{first};

use crate::claim::Graph;
use isa::label_number;

// Rule 12: the lowest address where the label condition fails.
#[tactic(auto, unfolding(lists::specs::Search::first))]
pub(crate) fn first_label_wrong(graph: &Graph<'_>) -> Option<usize>
    ensures { result ≡ first (label_wrong graph.now.claim.code.memory.now graph.now.claim.code.n graph.now.claim.edges.now) graph.now.claim.code.n }
{
    (0..graph.claim.code.n).find(|a| is_label_wrong(graph, *a))
}

// Whether the label at a is not the ID that owns a: another one, one too many, or none.
#[tactic(auto, using(graph::proofs::Labels::label_wrong_lem))]
fn is_label_wrong(graph: &Graph<'_>, a: usize) -> bool
    requires { a < graph.now.claim.code.n }
    ensures { result ≡ label_wrong graph.now.claim.code.memory.now graph.now.claim.code.n graph.now.claim.edges.now a }
{
    label_number(graph.claim.code.memory[a]) != graph.owner_of(a)
}
