// Guards: rules 13 and 14.
ghost use Rattle.std.specs.Prelude.{◌≡◌, ◌<◌, length};
ghost use Rattle.isa.specs.declared.Technique.{Technique};
ghost use Rattle.guards.specs.Sequences.{ends_at, jump_guard, store_guard};
ghost use Rattle.guards.specs.Patterns.{words_of, jump_words};
ghost use Rattle.guards.specs.Rules.{store_unguarded, jump_unguarded};
ghost use Rattle.graph.specs.Claim.{edge_count};
ghost use Rattle.checker.specs.Passes.{starts_bare};
ghost use Rattle.lists.specs.Search.{first};

use crate::claim::{Claim, Code, Graph};
use crate::edges::jump_number;
use crate::patterns::{
    Sequence, halt_of, id_place, jump_frees, jump_length, store_frees, store_words,
};
use guards::{id_word, jump_words};
use isa::{Kind, Technique};

// Rule 13: the lowest st without its form or sequence; without memory guards none is asked.
#[tactic(auto, using(lists::proofs::First::first_none))]
pub(crate) fn first_bare_store(technique: Technique, code: &Code<'_>) -> Option<usize>
    ensures { result ≡ first (store_unguarded technique code.now.memory.now code.now.n) code.now.n }
{
    match technique {
        Technique::Plain => None,
        Technique::MemoryGuards => first_store_unguarded(code),
    }
}

#[tactic(auto, unfolding(lists::specs::Search::first))]
fn first_store_unguarded(code: &Code<'_>) -> Option<usize>
    ensures { result ≡ first (store_unguarded Technique.MemoryGuards code.now.memory.now code.now.n) code.now.n }
{
    let words = store_words(code.n, code.memory.len());
    (0..code.n).find(|a| is_bare_store(code, *a, &words))
}

fn is_bare_store(code: &Code<'_>, a: usize, words: &[u64; 6]) -> bool
    requires { (a < code.now.n) × (words.now ≡ words_of 6 (store_guard code.now.n (length code.now.memory.now))) }
    ensures { result ≡ store_unguarded Technique.MemoryGuards code.now.memory.now code.now.n a }
{
    if !code.is_at(Kind::St, a) {
        return false;
    }
    if code.memory.len() == code.n {
        return true;
    }
    let free = store_frees();
    let sequence = Sequence { words, free: &free };
    !sequence.ends_at(code.memory, a)
}

// Rule 14: the lowest jmp without its form or sequence. The jmps of the code are where the edges start, and the first edge of each goes
// to its set's ID.
#[tactic(auto, using(crate::proofs::GuardedJumps::bare_found, lists::proofs::First::first_found))]
pub(crate) fn first_bare_jump(technique: Technique, graph: &Graph<'_>) -> Option<usize>
    ensures { result ≡ first (jump_unguarded technique graph.now.claim.code.memory.now graph.now.claim.code.n graph.now.claim.edges.now) graph.now.claim.code.n }
{
    first_bare_start(technique, &graph.claim).map(|k| jump_number(graph.claim.edges, k))
}

#[tactic(auto, unfolding(lists::specs::Search::first))]
fn first_bare_start(technique: Technique, claim: &Claim<'_>) -> Option<usize>
    ensures { result ≡ first (starts_bare technique claim.now.code.memory.now claim.now.code.n claim.now.edges.now) (edge_count claim.now.edges.now) }
{
    let words = jump_words(technique, halt_of(claim.code.n));
    (0..claim.count()).find(|k| starts_bare(technique, claim, *k, &words))
}

// Whether edge k is the first of its jump, and the sequence for its target does not end there.
fn starts_bare(technique: Technique, claim: &Claim<'_>, k: usize, words: &[u64; 10]) -> bool
    requires { (k < edge_count claim.now.edges.now) × (words.now ≡ jump_words technique claim.now.code.n) }
    ensures { result ≡ starts_bare technique claim.now.code.memory.now claim.now.code.n claim.now.edges.now k }
{
    claim.is_first(k)
        && !is_guarded_jump(
            technique,
            &claim.code,
            claim.target(k),
            claim.jump(k),
            words,
        )
}

// Whether the sequence for this ID ends at a. The words are lent with 0 for it.
#[tactic(auto, using(guards::proofs::Arrays::jump_kept))]
fn is_guarded_jump(
    technique: Technique,
    code: &Code<'_>,
    id: usize,
    a: usize,
    words: &[u64; 10],
) -> bool
    requires { (id < code.now.n) × (a < code.now.n) × (words.now ≡ jump_words technique code.now.n) }
    ensures { result ≡ ends_at code.now.memory.now (jump_guard technique code.now.n id) a }
{
    let mut words = *words;
    words[id_place(technique)] = id_word(id as u32);
    let free = jump_frees();
    let len = jump_length(technique);
    let sequence = Sequence {
        words: &words[..len],
        free: &free[..len],
    };
    sequence.ends_at(code.memory, a)
}
