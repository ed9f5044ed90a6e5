// What the rewriting is given: bare code that has passed its checks.
ghost use Rattle.std.specs.Prelude.{◌≡◌, ◌<◌, ◌≤◌, ◌&&◌, nat_lt, nat_eq};
ghost use Rattle.graph.specs.Claim.{edge_count, jump_of, target_of};
ghost use Rattle.graph.specs.Passes.{Is};
ghost use Rattle.checker.specs.Passes.{Run, is_first};
ghost use Rattle.rewrite.specs.Inside.{Bare};

// The n words at the front of memory, the edges that say where their jumps may lead, and how many words come out. `bare::check_bare` has
// let them through, so only number 5 can still refuse them.
#[derive(Clone, Copy)]
pub(crate) struct BareCode<'a> {
    pub(crate) memory: &'a [u64],
    pub(crate) n: usize,
    pub(crate) edges: &'a [u16],
    pub(crate) total: usize,
    ghost passed: { Bare memory.now n edges.now total },
}

// The questions to the edges are those of `checker`'s `Claim`: to be shared they would have to be public, and a public function has no
// `requires`, while these need an index.
impl BareCode<'_> {
    // How many edges there are.
    pub(crate) fn count(&self) -> usize
        ensures { result ≡ edge_count self.now.edges.now }
    {
        self.edges.len() / 2
    }

    // The jump at which edge k starts; `target_of` is the address to which it leads.
    pub(crate) fn jump_of(&self, k: usize) -> usize
        requires { k < edge_count self.now.edges.now }
        ensures { Is result (jump_of self.now.edges.now k) self.now.n }
    {
        usize::from(self.edges[2 * k])
    }

    pub(crate) fn target_of(&self, k: usize) -> usize
        requires { k < edge_count self.now.edges.now }
        ensures { Is result (target_of self.now.edges.now k) self.now.n }
    {
        usize::from(self.edges[2 * k + 1])
    }

    // Whether there is an edge k and it starts at a.
    pub(crate) fn starts(&self, k: usize, a: usize) -> bool
        ensures { result ≡ (nat_lt k (edge_count self.now.edges.now) && nat_eq (jump_of self.now.edges.now k) a) }
    {
        k < self.count() && self.jump_of(k) == a
    }

    // Whether edge k is the first of its jump.
    pub(crate) fn is_first(&self, k: usize) -> bool
        requires { k < edge_count self.now.edges.now }
        ensures { result ≡ is_first self.now.edges.now k }
    {
        k == 0 || self.jump_of(k - 1) != self.jump_of(k)
    }

    // Where the edges from k on that start at j end.
    pub(crate) fn run_end(&self, k: usize, j: usize) -> usize
        requires { k ≤ edge_count self.now.edges.now }
        ensures { Run self.now.edges.now j k result }
    {
        let m = self.count();
        (k..m).find(|end| self.jump_of(*end) != j).unwrap_or(m)
    }
}
