// What is known of a program once its first rules have passed, and the questions that the later ones ask of its words and edges.
ghost use Rattle.std.specs.Prelude.{◌≡◌, ◌<◌, ◌≤◌, ◌&&◌};
ghost use Rattle.isa.specs.Words.{known};
ghost use Rattle.isa.specs.Instructions.{instr_at, is_kind};
ghost use Rattle.lists.specs.Search.{count};
ghost use Rattle.graph.specs.Claim.{edge_count, jump_of, target_of, is_destination};
ghost use Rattle.graph.specs.Passes.{Sized, Is, Owned, owner_of};
ghost use Rattle.checker.specs.Ends.{is_jump_at};
ghost use Rattle.checker.specs.Passes.{Claimed, Leaving, Run, is_first};

use crate::edges::{jump_number, target_number};
use isa::{Kind, is_a};

// A memory with n words of code at its front: 6 has passed.
#[derive(Clone, Copy)]
pub(crate) struct Code<'a> {
    pub(crate) memory: &'a [u64],
    pub(crate) n: usize,
    pub(crate) ghost sized: { Sized memory.now n },
}

impl Code<'_> {
    // Whether a word of this kind stands at a.
    #[inline(always)]
    pub(crate) fn is_at(&self, kind: Kind, a: usize) -> bool
        requires { a < self.now.n }
        ensures { result ≡ (known kind && is_kind kind (instr_at self.now.memory.now a)) }
    {
        is_a(kind, self.memory[a])
    }
}

// The same with edges: 7, 8 and 18 have passed. Edges that rise stand side by side where they start at one jump. The technique
// stays a parameter beside it: `check_claim` has none, and of a struct of both each clause would say `program.claim.code.memory.now`.
#[derive(Clone, Copy)]
pub(crate) struct Claim<'a> {
    pub(crate) code: Code<'a>,
    pub(crate) edges: &'a [u16],
    pub(crate) ghost claimed: { Claimed code.memory.now code.n edges.now },
}

impl Claim<'_> {
    // How many edges there are.
    pub(crate) fn count(&self) -> usize
        ensures { result ≡ edge_count self.now.edges.now }
    {
        self.edges.len() / 2
    }

    // The two ends of an edge. An index is asked at each call: no struct can hold it. `rewrite` has its own: shared, they would be public,
    // and public functions have no `requires` (a rule of the project).
    pub(crate) fn jump(&self, k: usize) -> usize
        requires { k < edge_count self.now.edges.now }
        ensures { Is result (jump_of self.now.edges.now k) self.now.code.n }
    {
        jump_number(self.edges, k)
    }

    pub(crate) fn target(&self, k: usize) -> usize
        requires { k < edge_count self.now.edges.now }
        ensures { Is result (target_of self.now.edges.now k) self.now.code.n }
    {
        target_number(self.edges, k)
    }

    // Whether edge k is the first of its jump.
    pub(crate) fn is_first(&self, k: usize) -> bool
        requires { k < edge_count self.now.edges.now }
        ensures { result ≡ is_first self.now.edges.now k }
    {
        k == 0 || self.jump(k - 1) != self.jump(k)
    }

    // Where the edges from k on that start at j end.
    pub(crate) fn run_end(&self, k: usize, j: usize) -> usize
        requires { k ≤ edge_count self.now.edges.now }
        ensures { Run self.now.edges.now j k result }
    {
        let m = self.count();
        (k..m)
            .find(|end| jump_number(self.edges, *end) != j)
            .unwrap_or(m)
    }
}

// The same with the owner of each address, and with how many jmps there are: 9 and 10 have passed.
#[derive(Clone, Copy)]
pub(crate) struct Graph<'a> {
    pub(crate) claim: Claim<'a>,
    pub(crate) own: &'a [u16; 2048],
    pub(crate) jumps: usize,
    pub(crate) ghost leaving: { Leaving claim.code.memory.now claim.code.n claim.edges.now },
    pub(crate) ghost counted: { jumps ≡ count (is_jump_at claim.code.memory.now) claim.code.n },
    pub(crate) ghost owned: { Owned claim.edges.now claim.code.n own.now },
}

impl Graph<'_> {
    // The ID that owns a, if any does.
    pub(crate) fn owner_of(&self, a: usize) -> Option<usize>
        requires { a < self.now.claim.code.n }
        ensures { result ≡ owner_of self.now.claim.code.n self.now.own.now a }
    {
        let owner = usize::from(self.own[a]);
        if owner < self.claim.code.n {
            Some(owner)
        } else {
            None
        }
    }

    // How many addresses are destinations: those that an ID owns. A `for`, which the compiler does several at a time; `filter` and `count`
    // stay one by one.
    #[tactic(auto, using(lists::proofs::Counts::count_none, lists::proofs::Counts::count_more, graph::proofs::Owners::destined))]
    pub(crate) fn destinations(&self) -> usize
        ensures { result ≡ count (is_destination self.now.claim.edges.now) self.now.claim.code.n }
    {
        let mut count = 0;
        for a in 0..self.claim.code.n {
            if self.owner_of(a).is_some() {
                count += 1;
            }
        }
        count
    }
}
