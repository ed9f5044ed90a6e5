// The program that is searched, and its edges: they rise, so those of one jump stand side by side.
ghost use Rattle.std.specs.Prelude.{◌≡◌, ◌<◌, ◌&&◌, length, nat_lt, nat_eq};
ghost use Rattle.graph.specs.Claim.{edge_count, jump_of, target_of, is_edge};
ghost use Rattle.graph.specs.Passes.{Is};
ghost use Rattle.checker.specs.Passes.{is_first};
ghost use Rattle.paths.specs.Given.{Searchable, Firsts};

// A program that the checker accepts.
#[derive(Clone, Copy)]
pub(crate) struct Program<'a> {
    pub(crate) memory: &'a [u64],
    pub(crate) n: usize,
    pub(crate) edges: &'a [u16],
    pub(crate) ghost searchable: { Searchable memory.now n edges.now },
}

// An edge is asked at each call: no struct can hold it.
impl Program<'_> {
    // How many edges there are.
    fn count(&self) -> usize
        ensures { result ≡ edge_count self.now.edges.now }
    {
        self.edges.len() / 2
    }

    fn jump_of(&self, k: usize) -> usize
        requires { k < edge_count self.now.edges.now }
        ensures { Is result (jump_of self.now.edges.now k) self.now.n }
    {
        usize::from(self.edges[2 * k])
    }

    pub(crate) fn target_of(&self, k: usize) -> usize
        requires { k < edge_count self.now.edges.now }
        ensures { Is result (target_of self.now.edges.now k) self.now.n }
    {
        usize::from(self.edges[2 * k + 1])
    }

    // Whether there is an edge k and it starts at a.
    pub(crate) fn starts(&self, k: usize, a: usize) -> bool
        ensures { result ≡ (nat_lt k (edge_count self.now.edges.now) && nat_eq (jump_of self.now.edges.now k) a) }
    {
        k < self.count() && self.jump_of(k) == a
    }

    // Whether edge k is the first of its jump.
    fn is_first(&self, k: usize) -> bool
        requires { k < edge_count self.now.edges.now }
        ensures { result ≡ is_first self.now.edges.now k }
    {
        k == 0 || self.jump_of(k - 1) != self.jump_of(k)
    }

    // For each jump its first edge.
    pub(crate) fn put_firsts(&self, firsts: &mut [u16; 2048])
        requires { length firsts.old ≡ 2048 }
        ensures { Firsts self.now.edges.now firsts.new }
    {
        for k in 0..self.count() {
            if self.is_first(k) {
                firsts[self.jump_of(k)] = k as u16;
            }
        }
    }
}
