// Target sets: rule 10, in time linear in words plus edges. Each jump's set is put into two arrays as it is met: who owns an address,
// the ID of a set, or n where nobody does; and how large the set of an ID is. A set that meets one there and differs makes its
// addresses contested, n + 1; a jump breaks the rule when a target of it is contested.
// The owners stay numbers of 16 bits, since an enum would take twice the stack (fixed memory), and the two arrays stay apart, since
// `labels` needs the first alone.
ghost use Rattle.std.specs.Prelude.{◌≡◌, cond, length, get_or};
ghost use Rattle.lists.specs.Tables.{Table};
ghost use Rattle.graph.specs.Claim.{jump_of, target_of, is_edge};
ghost use Rattle.graph.specs.Rules.{overlaps};
ghost use Rattle.graph.specs.Passes.{Is};
ghost use Rattle.checker.specs.Passes.{EdgesOf, Met, Put, OwnedBy, Judged, SetPut, AllPut, Overlapped};
ghost use Rattle.lists.specs.Search.{first};

use crate::claim::Claim;
use crate::edges::jump_number;

// Rule 10: the lowest jump whose target set meets another's and differs from it; where there is none, `own` has each address's owner.
// Not inlined: in one frame with `own` the compiler clears `size` two times.
#[tactic(auto, using(crate::proofs::TargetSets::none_broken, crate::proofs::TargetSets::overlapped))]
#[inline(never)]
pub(crate) fn first_overlap(claim: &Claim<'_>, own: &mut [u16; 2048]) -> Option<usize>
    ensures { Overlapped result claim.now.edges.now claim.now.code.n own.new }
{
    // Nobody owns an address yet. Only the first n are filled: a small program is not to wait for the rest.
    let n = claim.code.n;
    own[..n].fill(n as u16);
    let mut size = [0u16; 2048];
    if put_sets(claim, own, &mut size) {
        return None;
    }
    first_contested(claim, &*own)
}

// Puts every set in, and tells whether all of them fit.
#[tactic(auto, using(crate::proofs::Runs::cut_none))]
fn put_sets(claim: &Claim<'_>, own: &mut [u16; 2048], size: &mut [u16; 2048]) -> bool
    requires { Table own.old claim.now.code.n (λ _. claim.now.code.n) × (length size.old ≡ 2048) }
    ensures { AllPut result claim.now.edges.now claim.now.code.n own.new }
{
    let m = claim.count();
    let mut fitting = true;
    let mut first = 0;
    // A `while`: the edges of one jump are passed in one step.
    while first < m {
        let j = claim.jump(first);
        let end = claim.run_end(first, j);
        let set = TargetSet {
            claim: *claim,
            first,
            end,
        };
        let it_fits = set.put(own, size);
        fitting = fitting & it_fits;
        first = end;
    }
    fitting
}

// The set of one jump, whose edges are those from `first` to `end`.
#[derive(Clone, Copy)]
struct TargetSet<'a> {
    claim: Claim<'a>,
    first: usize,
    end: usize,
    ghost edges_of: { EdgesOf claim.edges.now claim.code.n first end },
}

impl TargetSet<'_> {
    // Its ID: the first edge goes to the lowest target.
    fn id(&self) -> usize
        ensures { Is result (target_of self.now.claim.edges.now self.now.first) self.now.claim.code.n }
    {
        self.claim.target(self.first)
    }

    // Puts it in, and tells whether it fits: one that was met is there already, a new one is put in, and one that clashes is contested.
    fn put(&self, own: &mut [u16; 2048], size: &mut [u16; 2048]) -> bool
        requires { Put self.now.claim.edges.now self.now.claim.code.n (jump_of self.now.claim.edges.now self.now.first) own.old size.old }
        ensures { SetPut result self.now.claim.edges.now self.now.claim.code.n self.now.first own.old own.new size.new }
    {
        let id = self.id();
        if !self.fits(&*own, &*size) {
            self.put_owner((self.claim.code.n + 1) as u16, own);
            return false;
        }
        if own[id] == id as u16 {
            return true;
        }
        self.put_owner(id as u16, own);
        size[id] = (self.end - self.first) as u16;
        true
    }

    // Whether it is new, or one that was met: all its addresses nobody's, or all its ID's, and as many.
    #[tactic(auto, using(crate::proofs::TargetSets::met_judged))]
    fn fits(&self, own: &[u16; 2048], size: &[u16; 2048]) -> bool
        requires { Put self.now.claim.edges.now self.now.claim.code.n (jump_of self.now.claim.edges.now self.now.first) own.now size.now }
        ensures { Judged result self.now.claim.edges.now self.now.claim.code.n self.now.first own.now size.now }
    {
        let id = self.id();
        let owner = own[id];
        if !self.owned_by(owner, own) {
            return false;
        }
        if owner == self.claim.code.n as u16 {
            return true;
        }
        (owner == id as u16) & (size[id] == (self.end - self.first) as u16)
    }

    fn owned_by(&self, owner: u16, own: &[u16; 2048]) -> bool
        ensures { OwnedBy result self.now.claim.edges.now (jump_of self.now.claim.edges.now self.now.first) owner own.now }
    {
        (self.first..self.end).all(|i| own[self.claim.target(i)] == owner)
    }

    fn put_owner(&self, owner: u16, own: &mut [u16; 2048])
        requires { length own.old ≡ 2048 }
        ensures { Table own.new self.now.claim.code.n (λ t. cond (is_edge self.now.claim.edges.now (jump_of self.now.claim.edges.now self.now.first) t) owner (get_or own.old t 0)) }
    {
        for i in self.first..self.end {
            let t = self.claim.target(i);
            own[t] = owner;
        }
    }
}

// The jump of the first edge with a contested target, which is the lowest such jump.
fn first_contested(claim: &Claim<'_>, own: &[u16; 2048]) -> Option<usize>
    requires { Met claim.now.edges.now claim.now.code.n claim.now.code.n own.now }
    ensures { result ≡ first (overlaps claim.now.edges.now claim.now.code.n) claim.now.code.n }
{
    let contested = (claim.code.n + 1) as u16;
    (0..claim.count())
        .find(|k| own[claim.target(*k)] == contested)
        .map(|k| jump_number(claim.edges, k))
}
