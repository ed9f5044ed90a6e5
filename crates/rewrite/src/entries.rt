// What follows the map: where a block ends, and the edges.
ghost use Rattle.std.specs.Prelude.{◌≡◌, ◌*◌, ◌<◌, ◌≤◌, suc, length};
ghost use Rattle.graph.specs.Claim.{edge_count};
ghost use Rattle.checker.specs.Passes.{Run};
ghost use Rattle.rewrite.specs.Inside.{map_plain, EdgesPut};

use crate::Layout;

impl Layout<'_> {
    // Where the block of address a ends: where the next one begins, or the illegal word stands.
    pub(crate) fn block_end(&self, a: usize) -> usize
        requires { a < self.now.bare.n }
        ensures { (result ≡ map_plain self.now.bare.memory.now self.now.bare.n self.now.bare.edges.now (suc a)) × (1 ≤ result) × (result < self.now.bare.total) }
    {
        if a + 1 < self.bare.n {
            usize::from(self.entries[a + 1])
        } else {
            self.bare.total - 1
        }
    }

    // The edges from k to `end`, which are those of the jmp at a, in their sequence: from the last word of its block to the first of the
    // target's.
    pub(crate) fn put_edges(&self, a: usize, k: usize, end: usize, new_edges: &mut [u16])
        requires { (a < self.now.bare.n) × Run self.now.bare.edges.now a k end × (2 * edge_count self.now.bare.edges.now ≤ length new_edges.old) }
        ensures { EdgesPut self.now.bare.memory.now self.now.bare.n self.now.bare.edges.now k end new_edges.new new_edges.old × (length new_edges.new ≡ length new_edges.old) }
    {
        let last = (self.block_end(a) - 1) as u16;
        for i in k..end {
            new_edges[2 * i] = last;
            new_edges[2 * i + 1] = self.entries[self.bare.target_of(i)];
        }
    }
}
