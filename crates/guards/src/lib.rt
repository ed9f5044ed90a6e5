// Guard sequences as data, and what breaks rules 13 to 15. This crate holds definitions and laws, and the words of a jmp's sequence; what
// looks for them is in `checker`, and what puts them in is in `rewrite`.
#![tactic(auto)]

ghost use Rattle.std.specs.Prelude.{◌≡◌, ◌+◌};
ghost use Rattle.isa.specs.Words.{encode_of};
ghost use Rattle.isa.specs.declared.Instr.{Instr};
ghost use Rattle.isa.specs.declared.Technique.{Technique};
ghost use Rattle.guards.specs.Patterns.{jump_words};

use isa::{Instr, Technique, encode};

// How much of a word of a guard sequence is free: nothing, its register field b, or that and its immediate w.
#[derive(Clone, Copy, Debug, PartialEq, Eq)]
pub enum Free {
    Nothing,
    Register,
    RegisterAndImmediate,
}

// A word of a guard sequence, as the definitions say it: an instruction, and how much of it is free.
#[derive(Clone, Copy, Debug, PartialEq, Eq)]
pub struct Slot {
    pub instr: Instr,
    pub free: Free,
}

// The words that lead to a jmp, itself the last, in a code whose last address is halt: 6 or 10 of them, and then 0. For the movi that
// holds the ID there is 0 too. An array for either technique: with no heap, no list of its own length can be made.
pub fn jump_words(technique: Technique, halt: u32) -> [u64; 10]
    ensures { result ≡ jump_words technique (halt + 1) }
{
    match technique {
        Technique::Plain => plain_jump_words(halt),
        Technique::MemoryGuards => guarded_jump_words(halt),
    }
}

fn plain_jump_words(halt: u32) -> [u64; 10]
    ensures { result ≡ jump_words Technique.Plain (halt + 1) }
{
    [
        encode(Instr::Addi(0, 0, 0)),
        encode(Instr::Ld(1, 0, 0)),
        0,
        encode(Instr::Bgt(1, 2, halt)),
        encode(Instr::Bgt(2, 1, halt)),
        encode(Instr::Jmp(0)),
        0,
        0,
        0,
        0,
    ]
}

fn guarded_jump_words(halt: u32) -> [u64; 10]
    ensures { result ≡ jump_words Technique.MemoryGuards (halt + 1) }
{
    [
        encode(Instr::Addi(0, 0, 0)),
        encode(Instr::Movi(1, halt)),
        encode(Instr::Movi(2, 0)),
        encode(Instr::Bgt(0, 1, halt)),
        encode(Instr::Bgt(2, 0, halt)),
        encode(Instr::Ld(1, 0, 0)),
        0,
        encode(Instr::Bgt(1, 2, halt)),
        encode(Instr::Bgt(2, 1, halt)),
        encode(Instr::Jmp(0)),
    ]
}

// The movi that holds the ID.
pub fn id_word(id: u32) -> u64
    ensures { result ≡ encode_of (Instr.Movi 2 id) }
{
    encode(Instr::Movi(2, id))
}
