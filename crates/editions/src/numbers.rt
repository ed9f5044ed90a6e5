// Numbers in bytes, low byte first, put as numbers of another width.
// `to` and `start`, and `s` and `at` of `put_half`, stay apart: a part of a `&mut` slice that is lent on would make a contract speak of
// two places, and as parameters each clause speaks of the whole.
ghost use Rattle.std.specs.Prelude.{◌≡◌, ◌⊎◌, ◌||◌, ◌+◌, ◌*◌, ◌≤◌, ◌<◌, leb, length, take, drop};
ghost use Rattle.std.proofs.lemmas.List.Edits.{sets};
ghost use Rattle.lists.specs.Search.{first};
ghost use Rattle.parcel.specs.Bytes.{number_of, bytes_of, numbers_of, all_bytes_of};
ghost use Rattle.editions.specs.Converters.{is_wide};
ghost use Rattle.editions.specs.Inside.{Copied};

// The bytes, as they are, from start on: sixteen at a time while there are as many, then four, then one. Loops, since for one
// `copy_from_slice` of them all the library would ask C for `memmove` (docs/PERFORMANCE.md, also of other sizes).
pub(crate) fn copy(s: &[u8], to: &mut [u8], start: usize)
    requires { start + length s.now ≤ length to.old }
    ensures { to.new ≡ sets to.old start s.now }
{
    let i = copy_parts::<16>(s, 0, to, start);
    let k = copy_parts::<4>(s, i, to, start);
    copy_parts::<1>(s, k, to, start);
}

// As many parts of N bytes as there are from i on; and where they end.
#[tactic(auto, using(crate::proofs::Copying::copied_none, crate::proofs::Copying::part_within, crate::proofs::Copying::parts_left))]
fn copy_parts<const N: usize>(s: &[u8], i: usize, to: &mut [u8], start: usize) -> usize
    requires { (1 ≤ N) × (i ≤ length s.now) × (start + length s.now ≤ length to.old) }
    ensures copied { Copied s.now start i to.old to.new result }
    ensures few { (i ≤ result) × (result ≤ length s.now) × (length s.now < result + N) }
{
    let parts = (s.len() - i) / N;
    for k in 0..parts {
        copy_part::<N>(s, i + k * N, to, start);
    }
    i + parts * N
}

// The N bytes from i on. By way of an array: between two slices the compiler asks each time whether they overlap.
#[tactic(auto, using(lists::proofs::Places::put_part))]
fn copy_part<const N: usize>(s: &[u8], i: usize, to: &mut [u8], start: usize)
    requires { (i + N ≤ length s.now) × (start + length s.now ≤ length to.old) }
    ensures { to.new ≡ sets to.old (start + i) (take N (drop i s.now)) }
{
    let part: [u8; N] = s[i..i + N].try_into().unwrap();
    to[start + i..start + i + N].copy_from_slice(&part);
}

// The first edges, two numbers of W bytes each, as numbers of V: the low two bytes of each, and zeros. An edge is read whole before it
// is put, so that the compiler can move it at once.
pub(crate) fn put_edges<const W: usize, const V: usize>(
    s: &[u8],
    edges: usize,
    to: &mut [u8],
    start: usize,
)
    requires { (W ≡ 2 ⊎ V ≡ 2) × (2 ≤ W) × (2 ≤ V) × (edges * (2 * W) ≤ length s.now) × (start + edges * (2 * V) ≤ length to.old) }
    ensures { to.new ≡ sets to.old start (all_bytes_of V (numbers_of W (edges * 2) s.now)) }
{
    for k in 0..edges {
        let edge = &s[k * (2 * W)..];
        let place = start + k * (2 * V);
        let jump = half(edge);
        let target = half(&edge[W..]);
        put_half::<V>(to, place, jump);
        put_half::<V>(to, place + V, target);
    }
}

// Of the first edges, two numbers of four bytes each, the first with an address above 65,535. Not inlined: its loop is to hold nothing of
// its caller's.
#[tactic(auto, unfolding(lists::specs::Search::first))]
#[inline(never)]
pub(crate) fn first_wide(s: &[u8], edges: usize) -> Option<usize>
    requires { edges * 8 ≤ length s.now }
    ensures { result ≡ first (is_wide (numbers_of 4 (edges * 2) s.now)) edges }
{
    (0..edges).find(|k| is_wide_at(s, edges, *k))
}

// Whether edge k of those has one.
#[tactic(auto, using(crate::proofs::Converting::edge_wide))]
fn is_wide_at(s: &[u8], edges: usize, k: usize) -> bool
    requires { (edges * 8 ≤ length s.now) × (k < edges) }
    ensures { result ≡ is_wide (numbers_of 4 (edges * 2) s.now) k }
{
    has_wide(&s[k * 8..])
}

// Whether one of the first two numbers of four bytes is above 65,535. Both are read whole: of their high halves each byte would be
// tested by itself (docs/PERFORMANCE.md).
fn has_wide(s: &[u8]) -> bool
    requires { 8 ≤ length s.now }
    ensures { result ≡ (leb 65536 (number_of 4 s.now) || leb 65536 (number_of 4 (drop 4 s.now))) }
{
    (65536 <= number(s)) | (65536 <= number(&s[4..]))
}

// The number in the first four bytes.
#[tactic(auto, using(crate::proofs::Converting::number_bytes))]
fn number(s: &[u8]) -> u32
    requires { 4 ≤ length s.now }
    ensures { result ≡ number_of 4 s.now }
{
    u32::from_le_bytes([s[0], s[1], s[2], s[3]])
}

// The number in the first two bytes.
#[tactic(auto, using(crate::proofs::Converting::two_bytes))]
fn half(s: &[u8]) -> u16
    requires { 2 ≤ length s.now }
    ensures { result ≡ number_of 2 s.now }
{
    u16::from_le_bytes([s[0], s[1]])
}

// A number of V bytes that has 16 bits: two bytes, and zeros. A `for`: with a `fill` of so few bytes widening takes four times as long.
#[tactic(auto, using(parcel::proofs::Numbers::number_put, crate::proofs::Converting::zeros_start, crate::proofs::Converting::zeros_go_on, crate::proofs::Converting::zeros_end))]
fn put_half<const V: usize>(s: &mut [u8], at: usize, x: u16)
    requires { (2 ≤ V) × (at + V ≤ length s.old) }
    ensures { s.new ≡ sets s.old at (bytes_of V x) }
{
    s[at..at + 2].copy_from_slice(&x.to_le_bytes());
    for i in 2..V {
        s[at + i] = 0;
    }
}
