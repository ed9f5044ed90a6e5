// Targets of bgt, jd and call: rule 15. Where rules 13 and 14 have passed, a word is inside a guard sequence exactly when a jmp, or a
// st, stands within the next few words.
ghost use Rattle.std.specs.Prelude.{◌≡◌, ◌<◌, ◌≤◌};
ghost use Rattle.isa.specs.Instructions.{instr_at, is_jump, is_store};
ghost use Rattle.guards.specs.Rules.{branch_wrong};
ghost use Rattle.guards.specs.Patterns.{ending_near, guard_near, target_bad, branch_bad, GuardsKept};
ghost use Rattle.lists.specs.Search.{first};

use crate::claim::{Claim, Code};
use isa::{Kind, Technique, branch_target};

// Rule 15: the lowest bgt, jd or call that breaks the target condition.
#[tactic(auto, unfolding(lists::specs::Search::first))]
pub(crate) fn first_wrong_branch(technique: Technique, claim: &Claim<'_>) -> Option<usize>
    requires { GuardsKept technique claim.now.code.memory.now claim.now.code.n claim.now.edges.now }
    ensures { result ≡ first (branch_wrong technique claim.now.code.memory.now claim.now.code.n claim.now.edges.now) claim.now.code.n }
{
    (0..claim.code.n).find(|a| is_wrong_branch(technique, claim, *a))
}

#[tactic(auto, using(guards::proofs::Endings::branch_wrong_lem))]
fn is_wrong_branch(technique: Technique, claim: &Claim<'_>, a: usize) -> bool
    requires { GuardsKept technique claim.now.code.memory.now claim.now.code.n claim.now.edges.now × (a < claim.now.code.n) }
    ensures { result ≡ branch_wrong technique claim.now.code.memory.now claim.now.code.n claim.now.edges.now a }
{
    leads_wrong(technique, &claim.code, a)
}

// An address below n, or at most n, is asked at each call, here and below, as an index below a length is: no struct can hold it.
fn leads_wrong(technique: Technique, code: &Code<'_>, a: usize) -> bool
    requires { a < code.now.n }
    ensures { result ≡ branch_bad technique code.now.memory.now code.now.n (instr_at code.now.memory.now a) }
{
    match branch_target(code.memory[a]) {
        Some(w) => is_wrong_target(technique, code, w),
        None => false,
    }
}

// The target is outside code, or a word of a guard but its first.
fn is_wrong_target(technique: Technique, code: &Code<'_>, w: usize) -> bool
    ensures { result ≡ target_bad technique code.now.memory.now code.now.n w }
{
    code.n <= w || is_inside_guard(technique, code, w)
}

fn is_inside_guard(technique: Technique, code: &Code<'_>, w: usize) -> bool
    requires { w ≤ code.now.n }
    ensures { result ≡ guard_near technique code.now.memory.now code.now.n w }
{
    match technique {
        Technique::Plain => jump_near(code, 6, w),
        Technique::MemoryGuards => store_near(code, 6, w) || jump_near(code, 10, w),
    }
}

// Whether a jmp, or a st, stands in code from w on, before the last of len words. One function for each: with the kind as a parameter
// a check took a quarter longer.
#[inline(always)]
fn jump_near(code: &Code<'_>, len: usize, w: usize) -> bool
    requires { (1 ≤ len) × (len ≤ 10) × (w ≤ code.now.n) }
    ensures { result ≡ ending_near is_jump code.now.memory.now code.now.n len w }
{
    (w..code.n.min(w + len - 1)).any(|a| code.is_at(Kind::Jmp, a))
}

#[inline(always)]
fn store_near(code: &Code<'_>, len: usize, w: usize) -> bool
    requires { (1 ≤ len) × (len ≤ 10) × (w ≤ code.now.n) }
    ensures { result ≡ ending_near is_store code.now.memory.now code.now.n len w }
{
    (w..code.n.min(w + len - 1)).any(|a| code.is_at(Kind::St, a))
}
