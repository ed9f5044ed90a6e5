// The verdict on a program: the rules of document 01 in their order, and K3's of document 02.
#![tactic(auto)]

ghost use Rattle.std.specs.Prelude.{◌≡◌, Ok, IfOk};
ghost use Rattle.std.specs.Result.{result_and};
ghost use Rattle.checker.specs.Verdicts.{first_broken, guard_rules, verdict_of, claim_verdict_of};
ghost use Rattle.checker.specs.Ends.{ends_of};
ghost use Rattle.checker.specs.Steps.{to_claim, to_graph, from_sets, from_labels};

mod branches;
mod claim;
mod edges;
mod labels;
mod patterns;
mod sets;
mod unguarded;

use answers::{Fault, Place, Refusal, Verdict, call_shaped, refuse_at};
use branches::first_wrong_branch;
use claim::{Claim, Code, Graph};
use edges::{first_from_no_jump, first_outside_code, jumps_with_edges};
use isa::{Technique, is_illegal};
use labels::first_label_wrong;
use rising::first_not_rising;
use sets::first_overlap;
use unguarded::{first_bare_jump, first_bare_store};

// Memory, n and edges stay parameters, here and in the crates above: of a struct each clause would say `program.entry.memory.now`.

// Whether the n words of code at the front of memory, with these edges, keep the technique's conditions, and if not, the
// number and the place of the first fault.
#[tactic(auto, using(crate::proofs::Rules::verdict_by))]
#[inline(never)]
pub fn check(technique: Technique, memory: &[u64], n: usize, edges: &[u16]) -> Verdict
    ensures { result ≡ verdict_of technique memory.now n edges.now }
{
    let claim = claim_of(memory, n, edges)?;
    check_sets(technique, claim)
}

// How many of a code's words are a jmp, and how many of its addresses are destinations.
#[derive(Clone, Copy, Debug, PartialEq, Eq)]
pub struct Ends {
    pub jumps: usize,
    pub destinations: usize,
}

// The rules that speak of memory and graph alone, whatever the code's labels and guards: 6, 7, 8, 18, 9 and 10. Where they let a claim
// through, how many jumps and destinations it has. Inlined into its one caller, `bare`.
#[tactic(auto, using(crate::proofs::Rules::claim_verdict_by))]
#[inline(always)]
pub fn check_claim(memory: &[u64], n: usize, edges: &[u16]) -> Result<Ends, Fault>
    ensures { result ≡ result_and (claim_verdict_of memory.now n edges.now) (Ok (ends_of memory.now n edges.now)) }
{
    let claim = claim_of(memory, n, edges)?;
    check_graph(claim)
}

// The claim, where 6, 7, 8 and 18 let it through. Inlined, here and below: a small program is not to wait for the answer to go through
// memory (docs/PERFORMANCE.md).
#[tactic(auto, using(crate::proofs::Rules::broken_next, crate::proofs::Rules::broken_once, crate::proofs::Rules::kept_once, crate::proofs::Rules::no_rule, crate::proofs::Rules::claimed_by))]
#[inline(always)]
fn claim_of<'a>(memory: &'a [u64], n: usize, edges: &'a [u16]) -> Result<Claim<'a>, Fault>
    ensures is { result_and result (Ok tt) ≡ first_broken (to_claim memory.now n edges.now) }
    ensures made { IfOk result (λ claim. (claim.code.memory.now ≡ memory.now) × (claim.code.n ≡ n) × (claim.edges.now ≡ edges.now)) }
{
    if !call_shaped(memory.len(), n, edges.len()) {
        return Err(Fault::nowhere(Refusal::Shape));
    }
    let code = Code { memory, n };
    let e = first_from_no_jump(&code, edges);
    refuse_at(Refusal::EdgeFromNoJump, e.map(Place::Edge))?;
    let f = first_outside_code(n, edges);
    refuse_at(Refusal::TargetOutsideCode, f.map(Place::Edge))?;
    let g = first_not_rising(edges);
    refuse_at(Refusal::EdgeNotRising, g.map(Place::Edge))?;
    Ok(Claim { code, edges })
}

// Rules 9 and 10, and those after them. An array is cleared where its function begins: so `own` is a local of this one, and 6, 7, 8 and
// 18 do not wait for it.
#[tactic(auto, using(crate::proofs::Rules::sets_by))]
fn check_sets(technique: Technique, claim: Claim<'_>) -> Verdict
    ensures { result ≡ first_broken (from_sets technique claim.entry.code.memory.now claim.entry.code.n claim.entry.edges.now) }
{
    let mut own = [0; 2048];
    let graph = graph_of(&claim, &mut own)?;
    check_labels(technique, &graph)
}

// Rules 9 and 10 alone.
fn check_graph(claim: Claim<'_>) -> Result<Ends, Fault>
    ensures { result ≡ result_and (first_broken (to_graph claim.entry.code.memory.now claim.entry.code.n claim.entry.edges.now)) (Ok (ends_of claim.entry.code.memory.now claim.entry.code.n claim.entry.edges.now)) }
{
    let mut own = [0; 2048];
    let graph = graph_of(&claim, &mut own)?;
    Ok(Ends {
        jumps: graph.jumps,
        destinations: graph.destinations(),
    })
}

// The graph of a claim that 9 and 10 let through.
#[tactic(auto, using(crate::proofs::Rules::broken_next, crate::proofs::Rules::no_rule))]
#[inline(always)]
fn graph_of<'a>(claim: &Claim<'a>, own: &'a mut [u16; 2048]) -> Result<Graph<'a>, Fault>
    ensures is { result_and result (Ok tt) ≡ first_broken (to_graph claim.now.code.memory.now claim.now.code.n claim.now.edges.now) }
    ensures made { IfOk result (λ graph. graph.claim ≡ claim.now) }
{
    let jumps = jumps_with_edges(claim).map_err(|a| Fault {
        refusal: Refusal::JumpWithoutEdge,
        place: Place::Address(a),
    })?;
    let b = first_overlap(claim, own);
    refuse_at(Refusal::TargetSetsOverlap, b.map(Place::Address))?;
    Ok(Graph {
        claim: *claim,
        own,
        jumps,
    })
}

// Rules 11 and 12, and those after them.
#[tactic(auto, using(crate::proofs::Rules::broken_next, crate::proofs::Rules::broken_once, crate::proofs::Rules::kept_once))]
fn check_labels(technique: Technique, graph: &Graph<'_>) -> Verdict
    ensures { result ≡ first_broken (from_labels technique graph.now.claim.code.memory.now graph.now.claim.code.n graph.now.claim.edges.now) }
{
    let code = graph.claim.code;
    let last = code.n - 1;
    if !is_illegal(code.memory[last]) {
        return Err(Fault {
            refusal: Refusal::LastWordLegal,
            place: Place::Address(last),
        });
    }
    let a = first_label_wrong(graph);
    refuse_at(Refusal::LabelCondition, a.map(Place::Address))?;
    check_guards(technique, graph)
}

// Rules 13 to 15.
fn check_guards(technique: Technique, graph: &Graph<'_>) -> Verdict
    ensures { result ≡ first_broken (guard_rules technique graph.now.claim.code.memory.now graph.now.claim.code.n graph.now.claim.edges.now) }
{
    let a = first_bare_store(technique, &graph.claim.code);
    refuse_at(Refusal::StoreUnguarded, a.map(Place::Address))?;
    let b = first_bare_jump(technique, graph);
    refuse_at(Refusal::JumpUnguarded, b.map(Place::Address))?;
    let d = first_wrong_branch(technique, &graph.claim);
    refuse_at(Refusal::BranchTarget, d.map(Place::Address))
}
