// The guard sequences of document 01 a second time, word by word.
ghost use Rattle.std.specs.Prelude.{◌≤◌};

use crate::words::{Kind, low, word};

// The techniques a second time, so that nothing is shared with the first checker.
#[derive(Clone, Copy)]
pub(crate) enum Technique {
    Plain,
    MemoryGuards,
}

impl Technique {
    // What the calls that are compared take for it.
    pub(crate) fn asked(self) -> isa::Technique {
        match self {
            Self::Plain => isa::Technique::Plain,
            Self::MemoryGuards => isa::Technique::MemoryGuards,
        }
    }
}

// What the words of a guard name: the last address of code is HALT, r0 is held between low and high, a label is held to be ID.
#[derive(Clone, Copy)]
pub(crate) struct Guard {
    halt: u32,
    low: u32,
    high: u32,
    id: u32,
}

impl Guard {
    // A jump's target lies in code, below n.
    pub(crate) fn of_jump(n: usize, id: usize) -> Self {
        let halt = low(n.wrapping_sub(1));
        Self {
            halt,
            low: 0,
            high: halt,
            id: low(id),
        }
    }

    // A store's address lies in data, from n on.
    pub(crate) fn of_store(n: usize, len: usize) -> Self {
        Self {
            halt: low(n.wrapping_sub(1)),
            low: low(n),
            high: low(len.wrapping_sub(1)),
            id: 0,
        }
    }

    // After "addi r0, rs, w" the words "movi r1, high; movi r2, low; bgt r0, r1, HALT; bgt r2, r0, HALT", the range test, and
    // "ld r1, r0(0); movi r2, ID; bgt r1, r2, HALT; bgt r2, r1, HALT; jmp r0", the label test and the jump.
    pub(crate) fn words(self) -> [u64; 9] {
        [
            word(Kind::Movi, 1, 0, 0, self.high),
            word(Kind::Movi, 2, 0, 0, self.low),
            word(Kind::Bgt, 0, 1, 0, self.halt),
            word(Kind::Bgt, 2, 0, 0, self.halt),
            word(Kind::Ld, 1, 0, 0, 0),
            word(Kind::Movi, 2, 0, 0, self.id),
            word(Kind::Bgt, 1, 2, 0, self.halt),
            word(Kind::Bgt, 2, 1, 0, self.halt),
            word(Kind::Jmp, 0, 0, 0, 0),
        ]
    }
}

// How many of these words are the range test.

pub(crate) const RANGE_TEST: usize = 4;

// How many of these words a jump's sequence goes without.
pub(crate) fn before_jump_guard(technique: Technique) -> usize
    ensures { result ≤ 4 }
{
    match technique {
        Technique::Plain => RANGE_TEST,
        Technique::MemoryGuards => 0,
    }
}

// How many words of a jump's sequence come after its first: the nine, but for those that it goes without.
pub(crate) fn after_jump_first(technique: Technique) -> usize {
    9 - before_jump_guard(technique)
}

// The same of a store's sequence, if a store needs one.
pub(crate) fn after_store_first(technique: Technique) -> Option<usize> {
    match technique {
        Technique::Plain => None,
        Technique::MemoryGuards => Some(RANGE_TEST + 1),
    }
}

// The same of the sequence that ends with a word of this kind, if one does.
pub(crate) fn after_first(technique: Technique, last: Kind) -> Option<usize> {
    match last {
        Kind::Jmp => Some(after_jump_first(technique)),
        Kind::St => after_store_first(technique),
        _ => None,
    }
}
