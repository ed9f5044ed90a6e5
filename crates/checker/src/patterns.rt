// Guard sequences as data, and the search for them in memory.
ghost use Rattle.std.specs.Prelude.{◌≡◌, ◌+◌, ◌-◌, ◌*◌, ◌/◌, ◌%◌, ◌^◌, ◌<◌, ◌≤◌, ◌&&◌, ltb, eqb, length};
ghost use Rattle.isa.specs.Words.{decode_of};
ghost use Rattle.isa.specs.declared.Technique.{Technique};
ghost use Rattle.guards.specs.Sequences.{fits, stands_at, ends_at, jump_guard, store_guard};
ghost use Rattle.guards.specs.Patterns.{slot_of, slots_of, Form, Sequenced, words_of, frees_of, jump_length, id_place};

use guards::Free;
use isa::{Fields, Instr, Technique, encode};

// A sequence as code has it: its words, and how much of each is free.
#[derive(Clone, Copy)]
pub(crate) struct Sequence<'a> {
    pub(crate) words: &'a [u64],
    pub(crate) free: &'a [Free],
    pub(crate) ghost sequenced: { Sequenced words.now free.now },
}

impl Sequence<'_> {
    // Whether it stands in memory with its last word at a.
    #[tactic(auto, using(guards::proofs::Arrays::slots_length), unfolding(guards::specs::Sequences::ends_at))]
    pub(crate) fn ends_at(&self, memory: &[u64], a: usize) -> bool
        requires { a < length memory.now }
        ensures { result ≡ ends_at memory.now (slots_of self.now.words.now self.now.free.now) a }
    {
        let len = self.words.len();
        if a + 1 < len {
            return false;
        }
        self.stands_at(memory, a + 1 - len)
    }

    // Whether it stands in memory from b on.
    fn stands_at(&self, memory: &[u64], b: usize) -> bool
        requires { b + length self.now.words.now ≤ length memory.now }
        ensures { result ≡ stands_at memory.now b (slots_of self.now.words.now self.now.free.now) }
    {
        (0..self.words.len()).all(|k| fits(memory[b + k], self.words[k], self.free[k]))
    }
}

// Whether a word, its free fields taken out, is the pattern's.
#[tactic(auto, using(guards::proofs::Forms::fits_whole, guards::proofs::Forms::fits_register, guards::proofs::Forms::fits_both))]
fn fits(word: u64, pattern: u64, free: Free) -> bool
    requires { Form (slot_of pattern free) }
    ensures { result ≡ fits (slot_of pattern free) (decode_of word) }
{
    match free {
        Free::Nothing => word == pattern,
        Free::Register => fits_rest(word, pattern, 0),
        Free::RegisterAndImmediate => fits_rest(word, pattern, u64::from(Fields::of_word(word).w)),
    }
}

// Whether a word is the pattern's once its register, one of 32, and w are taken out.
fn fits_rest(word: u64, pattern: u64, w: u64) -> bool
    requires { w ≤ word % 2 ^ 32 }
    ensures { result ≡ (ltb (word / 2 ^ 40 % 256) 32 && eqb (word - word / 2 ^ 40 % 256 * 2 ^ 40 - w) pattern) }
{
    let b = u64::from(Fields::of_word(word).b);
    b < 32 && word - b * 0x100_0000_0000 - w == pattern
}

// HALT: the address of the last code word.
pub(crate) fn halt_of(n: usize) -> u32
    requires { (1 ≤ n) × (n ≤ 2048) }
    ensures { result ≡ n - 1 }
{
    (n - 1) as u32
}

// The place of the movi that holds the ID in a jmp's sequence, and how many words that has.
pub(crate) fn id_place(technique: Technique) -> usize
    ensures { result ≡ id_place technique }
{
    match technique {
        Technique::Plain => 2,
        Technique::MemoryGuards => 6,
    }
}

pub(crate) fn jump_length(technique: Technique) -> usize
    ensures { result ≡ jump_length technique }
{
    match technique {
        Technique::Plain => 6,
        Technique::MemoryGuards => 10,
    }
}

// Of the first word any register, of the others nothing.
pub(crate) fn jump_frees() -> [Free; 10]
    ensures { result ≡ frees_of 10 (jump_guard Technique.Plain 0 0) }
{
    let mut free = [Free::Nothing; 10];
    free[0] = Free::Register;
    free
}

// The words that lead to a st, itself the last, in a memory of len words.
pub(crate) fn store_words(n: usize, len: usize) -> [u64; 6]
    requires { (1 ≤ n) × (n ≤ 2048) × (n ≤ len) × (len ≤ 4096) }
    ensures { result ≡ words_of 6 (store_guard n len) }
{
    let halt = halt_of(n);
    let top = (len - 1) as u32;
    let low = n as u32;
    [
        encode(Instr::Addi(0, 0, 0)),
        encode(Instr::Movi(1, top)),
        encode(Instr::Movi(2, low)),
        encode(Instr::Bgt(0, 1, halt)),
        encode(Instr::Bgt(2, 0, halt)),
        encode(Instr::St(0, 0, 0)),
    ]
}

// Of the first word any register and any immediate, of the last any register.
pub(crate) fn store_frees() -> [Free; 6]
    ensures { result ≡ frees_of 6 (store_guard 0 0) }
{
    let mut free = [Free::Nothing; 6];
    free[0] = Free::RegisterAndImmediate;
    free[5] = Free::Register;
    free
}
