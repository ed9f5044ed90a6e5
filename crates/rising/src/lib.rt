// Edges in a fixed sequence (document 02, K3), tested on the numbers alone: number 18, for the checkers and for the writers. Edge
// numbers of 16 bits and, in the second parcel edition (K6), of 32.
#![tactic(auto)]

ghost use Rattle.std.specs.Prelude.{◌≡◌, ◌+◌, ◌-◌, ◌*◌, ◌<◌, ◌≤◌, ◌^◌, ◌||◌, ℕ, false, List, map, fold, find, ltb, refl};
ghost use Rattle.std.proofs.Common.{sym};
ghost use Rattle.std.proofs.lemmas.List.{map-id};
ghost use Rattle.std.specs.List.{range_with_len};
ghost use Rattle.lists.specs.Search.{first};
ghost use Rattle.graph.specs.Claim.{edge_count};
ghost use Rattle.rising.specs.Rising.{not_rising};
ghost use Rattle.rising.specs.Inside.{IsRank};

// An unsigned number of 16, 32 or 64 bits. Clauses speak of it as a plain number (`number`), and of a slice of such numbers as a list of
// plain numbers (`numbers`).
pub trait Number: Copy {
    ghost number: { Self → ℕ };

    ghost numbers: { List Self → List ℕ };

    ghost each: { (xs : List Self) → numbers xs ≡ map number xs };
}

impl Number for u16 {
    ghost number = { λ x. x };

    ghost numbers = { λ xs. xs };

    ghost each = { λ xs. sym (map-id xs) };
}

impl Number for u32 {
    ghost number = { λ x. x };

    ghost numbers = { λ xs. xs };

    ghost each = { λ xs. sym (map-id xs) };
}

impl Number for u64 {
    ghost number = { λ x. x };

    ghost numbers = { λ xs. xs };

    ghost each = { λ xs. sym (map-id xs) };
}

// A number in an edge, which is a jump's address or a target: of 16 bits in the first edition, of 32 in the second. The two numbers of an
// edge together are its rank (the jump counts first), so that an edge is above another where its rank is higher.
pub trait EdgeNumber: Number {
    type Rank: Copy;

    ghost base: { ℕ };

    ghost value: { Self.Rank → ℕ };

    fn rank(jump: Self, target: Self) -> Self::Rank
        ensures is { value result ≡ Self.number jump * base + Self.number target }
        ensures narrow { Self.number target < base };

    fn rises(before: Self::Rank, here: Self::Rank) -> bool
        ensures { result ≡ ltb (value before) (value here) };
}

impl EdgeNumber for u16 {
    type Rank = u32;

    ghost base = { 2 ^ 16 };

    ghost value = { λ x. x };

    fn rank(jump: u16, target: u16) -> u32 {
        u32::from(jump) * 65536 + u32::from(target)
    }

    fn rises(before: u32, here: u32) -> bool {
        before < here
    }
}

impl EdgeNumber for u32 {
    type Rank = u64;

    ghost base = { 2 ^ 32 };

    ghost value = { λ x. x };

    fn rank(jump: u32, target: u32) -> u64 {
        u64::from(jump) * 0x1_0000_0000 + u64::from(target)
    }

    fn rises(before: u64, here: u64) -> bool {
        before < here
    }
}

// Number 18: the first edge that is not above the one before it; edge 0 has none before it. They are asked a block at a time, so that one
// that falls early is found early.
#[tactic(auto, using(lists::proofs::First::first_none))]
pub fn first_not_rising<E: EdgeNumber>(edges: &[E]) -> Option<usize>
    ensures { result ≡ first (not_rising (E.numbers edges.now)) (edge_count (E.numbers edges.now)) }
{
    let count = count(edges);
    for block in 0..count.saturating_sub(1).div_ceil(256) {
        let from = 1 + 256 * block;
        if let Some(edge) = first_in_block(edges, from, count.min(from + 256)) {
            return Some(edge);
        }
    }
    None
}

// The first of a block, edges from `from` to below `to`: sought only where there is one, so that two reads of an edge cost nothing.
#[tactic(auto, using(lists::proofs::First::folded_none))]
fn first_in_block<E: EdgeNumber>(edges: &[E], from: usize, to: usize) -> Option<usize>
    requires { (1 ≤ from) × (from ≤ to) × (to ≤ edge_count (E.numbers edges.now)) }
    ensures { result ≡ find (not_rising (E.numbers edges.now)) (range_with_len from (to - from)) }
{
    if some_in_block(edges, from, to) {
        return find_in_block(edges, from, to);
    }
    None
}

// Whether there is one. No edge ends the fold before the last, so that the compiler can take several edges at a time.
fn some_in_block<E: EdgeNumber>(edges: &[E], from: usize, to: usize) -> bool
    requires { (1 ≤ from) × (from ≤ to) × (to ≤ edge_count (E.numbers edges.now)) }
    ensures { result ≡ fold (λ found k. not_rising (E.numbers edges.now) k || found) false (range_with_len from (to - from)) }
{
    (from..to).fold(false, |found, k| falls_at(edges, k) | found)
}

// Which one.
fn find_in_block<E: EdgeNumber>(edges: &[E], from: usize, to: usize) -> Option<usize>
    requires { (1 ≤ from) × (from ≤ to) × (to ≤ edge_count (E.numbers edges.now)) }
    ensures { result ≡ find (not_rising (E.numbers edges.now)) (range_with_len from (to - from)) }
{
    (from..to).find(|k| falls_at(edges, *k))
}

// Whether edge k is not above the one before it.
#[tactic(auto, using(crate::proofs::Rising::rank_falls))]
fn falls_at<E: EdgeNumber>(edges: &[E], k: usize) -> bool
    requires { (1 ≤ k) × (k < edge_count (E.numbers edges.now)) }
    ensures { result ≡ not_rising (E.numbers edges.now) k }
{
    !E::rises(rank_at(edges, k - 1), rank_at(edges, k))
}

// How many edges there are.
fn count<E: EdgeNumber>(edges: &[E]) -> usize
    ensures { result ≡ edge_count (E.numbers edges.now) }
{
    edges.len() / 2
}

// The rank of an edge.
fn rank_at<E: EdgeNumber>(edges: &[E], k: usize) -> E::Rank
    requires { k < edge_count (E.numbers edges.now) }
    ensures { IsRank E.base (E.value result) (E.numbers edges.now) k }
{
    E::rank(edges[2 * k], edges[2 * k + 1])
}
