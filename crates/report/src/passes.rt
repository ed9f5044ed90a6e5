// The figures of a program that the checker has accepted, read off its words, in time linear in them. Each address of a target
// set holds a label with the set's ID, and no other address holds a label, so the labels with a number are the targets of a set;
// and the guard of each jump holds its set's ID, in the movi three words before the jmp.
ghost use Rattle.std.specs.Prelude.{ℕ, ◌≡◌, ◌==◌, not, max, ◌+◌, ◌<◌, ◌≤◌, length, get_or, fold, count_by};
ghost use Rattle.report.specs.Figures.{kinds_of, freedom_by};
ghost use Rattle.report.specs.Inside.{Readable, Tally, Counted, number_or, set_number, one_more, figures_read};

use crate::{Figures, Freedom};
use isa::{Fields, Kind, is_a, kind_of_word, label_number};

// The code of an accepted program, the first n words of its memory.
#[derive(Clone, Copy)]
struct Code<'a> {
    memory: &'a [u64],
    n: usize,
    ghost readable: { Readable memory.now n },
}

// The edges of an accepted program are distinct as they are listed.
pub(crate) fn figures(memory: &[u64], n: usize, listed: usize) -> Figures
    requires { Readable memory.now n × (listed ≤ 65535) }
    ensures { result ≡ figures_read memory.now n listed }
{
    let code = Code { memory, n };
    code.figures(listed)
}

impl Code<'_> {
    #[tactic(auto, using(crate::proofs::Sums::tally_new))]
    #[inline(never)]
    fn figures(&self, listed: usize) -> Figures
        requires { listed ≤ 65535 }
        ensures { result ≡ figures_read self.now.memory.now self.now.n listed }
    {
        let mut label_room = [0u16; 2048];
        let mut jump_room = [0u16; 2048];
        let labels = &mut label_room[..self.n];
        let jumps = &mut jump_room[..self.n];
        // The jmps are counted at 6, their opcode: with the opcode asked of the kind here the proof didn't close.
        let kinds = self.count_words(labels, jumps);
        Figures {
            kinds,
            sets: how_many(jumps),
            largest: highest(labels),
            freedom: freedom_of(kinds[6], self.n, listed),
        }
    }

    // Counts the words by their kinds, the labels by their numbers, and the jumps by the IDs of their sets.
    #[tactic(auto, using(crate::proofs::ByKind::kinds_none, crate::proofs::Sums::times_none))]
    fn count_words(&self, labels: &mut [u16], jumps: &mut [u16]) -> [u16; 12]
        requires { Tally labels.old self.now.n (λ _. 0) × Tally jumps.old self.now.n (λ _. 0) }
        ensures { Counted self.now.memory.now self.now.n self.now.n result labels.new jumps.new }
    {
        let mut kinds = [0u16; 12];
        for a in 0..self.n {
            self.count_kind(&mut kinds, a);
            count_one(labels, label_number(self.memory[a]));
            count_one(jumps, self.set_number(a));
        }
        kinds
    }

    // Counts the word at a, after those before it: an opcode is its kind's place, and illegal words are last.
    #[tactic(auto, using(crate::proofs::ByKind::row_max, crate::proofs::ByKind::kinds_step))]
    fn count_kind(&self, kinds: &mut [u16; 12], a: usize)
        requires { (a < self.now.n) × (kinds.old ≡ kinds_of self.now.memory.now a) }
        ensures { kinds.new ≡ kinds_of self.now.memory.now (a + 1) }
    {
        let opcode = u8::from(kind_of_word(self.memory[a]));
        kinds[usize::from(opcode.min(11))] += 1;
    }

    // The ID of the set of the jump at j, by its guard, if a jump is there.
    fn set_number(&self, j: usize) -> Option<usize>
        requires { j < self.now.n }
        ensures { result ≡ set_number self.now.memory.now j }
    {
        if is_a(Kind::Jmp, self.memory[j]) {
            return Some(Fields::of_word(self.memory[j - 3]).w as usize);
        }
        None
    }
}

// One more of this number, if it is one of those that are counted.
fn count_one(counts: &mut [u16], number: Option<usize>)
    requires { (s : ℕ) → s < length counts.old → get_or counts.old s 0 < 65535 }
    ensures { counts.new ≡ one_more counts.old (number_or (length counts.old) number) }
{
    if let Some(s) = number {
        if s < counts.len() {
            counts[s] += 1;
        }
    }
}

// How many of the numbers occur: as many sets as there are IDs of jumps.
fn how_many(counts: &[u16]) -> u16
    requires { length counts.now ≤ 2048 }
    ensures { result ≡ count_by (λ x. not (x == 0)) counts.now }
{
    counts.iter().filter(|x| **x != 0).count() as u16
}

// A set has as many targets as there are labels with its ID.
fn highest(counts: &[u16]) -> u16
    ensures { result ≡ fold max 0 counts.now }
{
    counts.iter().fold(0u16, |most, x| most.max(*x))
}

fn freedom_of(jumps: u16, n: usize, edges: usize) -> Option<Freedom>
    requires { (n ≤ 2048) × (edges ≤ 65535) }
    ensures { result ≡ freedom_by jumps n edges }
{
    if jumps == 0 {
        return None;
    }
    Some(Freedom {
        edges: edges as u32,
        possible: u32::from(jumps) * n as u32,
    })
}
