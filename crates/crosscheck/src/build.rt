// A random guarded program of either technique: first its plan, then the words and the edges are written by it.
use crate::edges::Edge;
use crate::plan::{Item, Plan};
use crate::program::{Program, Size};
use crate::random::Random;
use crate::sequences::{Guard, RANGE_TEST, Technique, after_jump_first, before_jump_guard};
use crate::words::{Fields, Kind, ONES, low, word};

pub(crate) fn build(technique: Technique, program: &mut Program, random: &mut Random) {
    let plan = Plan::random(technique, random);
    let n = plan.n;
    let writer = Writer {
        technique,
        plan: &plan,
        n,
        len: n.wrapping_add(random.below(20)),
    };
    program.size = Size {
        n,
        len: writer.len,
        numbers: 0,
    };
    writer.write_words(program, random);
    writer.write_edges(program);
}

// What the words and edges are written by: n words of code of a plan, in a memory of len words.
#[derive(Clone, Copy)]
struct Writer<'a> {
    technique: Technique,
    plan: &'a Plan,
    n: usize,
    len: usize,
}

impl Writer<'_> {
    fn write_words(self, program: &mut Program, random: &mut Random) {
        let mut before = 0;
        for at in 0..self.len {
            before = if at < self.n {
                self.word_for(at, before, random)
            } else {
                random.word(self.len)
            };
            program.put_word(at, before);
        }
    }

    // The word at an address of code, after the word before it.
    fn word_for(self, at: usize, before: u64, random: &mut Random) -> u64 {
        match self.plan.item(at) {
            Item::Straight => self.straight(random),
            Item::Branch => self.branch(random),
            Item::Call => self.call(at, random),
            Item::Return => word(Kind::Ret, 0, 0, 0, 0),
            Item::Last => last(random),
            Item::Inside => self.inside(at, random),
            Item::AimAtData => {
                let data = random.below(self.len.wrapping_sub(self.n));
                aim(self.n.wrapping_add(data), random)
            }
            Item::Store => self.store(before, random),
            Item::AimAtLabel(set) => aim(self.plan.some_label(set, random), random),
            Item::Jump(_) => takes_aimed(before, 0),
            Item::Label(set) => self.plan.lowest_label(set) as u64,
        }
    }

    // A word of no guard that goes on to the next.
    fn straight(self, random: &mut Random) -> u64 {
        let a = random.register();
        let b = random.register();
        let c = random.register();
        let w = low(random.below(self.len));
        match random.below(16) {
            0..=2 => word(Kind::Add, a, b, c, 0),
            3..=5 => word(Kind::Addi, a, b, 0, w),
            6 => word(Kind::Ld, a, b, 0, w),
            7 => word(self.load_or_store(), a, b, 0, w),
            8 => odd(random),
            _ => word(Kind::Movi, a, 0, 0, w),
        }
    }

    // With memory guards no store goes without one.
    fn load_or_store(self) -> Kind {
        match self.technique {
            Technique::Plain => Kind::St,
            Technique::MemoryGuards => Kind::Ld,
        }
    }

    // A branch to a place in code that is no word of a guard but its first.
    fn branch(self, random: &mut Random) -> u64 {
        let target = low(self.plan.safe_place(random.below(self.n)));
        if random.once_in(2) {
            word(Kind::Jd, 0, 0, 0, target)
        } else {
            let rs = random.register();
            let rt = random.register();
            word(Kind::Bgt, rs, rt, 0, target)
        }
    }

    // A call of a routine most of the time, else of such a place or of itself, which fills the stack.
    fn call(self, at: usize, random: &mut Random) -> u64 {
        let place = self.plan.safe_place(random.below(self.n));
        let target = match random.below(8) {
            0 => at,
            1 => place,
            _ => self.plan.some_routine(random).unwrap_or(place),
        };
        word(Kind::Call, 0, 0, 0, low(target))
    }

    // A word of a guard but its first, the k-th of them; a store's last is the store.
    fn inside(self, at: usize, random: &mut Random) -> u64 {
        let first = self.plan.safe_place(at);
        let k = at.wrapping_sub(first).wrapping_sub(1);
        match self.plan.item(first) {
            Item::Jump(set) => {
                let guard = Guard::of_jump(self.n, self.plan.lowest_label(set));
                let from = before_jump_guard(self.technique);
                nth(guard, from.wrapping_add(k))
            }
            _ if k < RANGE_TEST => nth(Guard::of_store(self.n, self.len), k),
            _ => word(Kind::St, 0, random.register(), 0, 0),
        }
    }

    // A store, or the first word of its guard.
    fn store(self, before: u64, random: &mut Random) -> u64 {
        match self.technique {
            Technique::Plain => {
                let rd = random.register();
                let rs = random.register();
                word(Kind::St, rd, rs, 0, low(random.below(self.len)))
            }
            Technique::MemoryGuards => takes_aimed(before, low(random.below(3))),
        }
    }

    // An edge from each jump to each label of its set, in rising sequence.
    fn write_edges(self, program: &mut Program) {
        let after = after_jump_first(self.technique);
        for at in 0..self.n {
            if let Item::Jump(set) = self.plan.item(at) {
                self.write_targets(at.wrapping_add(after), set, program);
            }
        }
    }

    fn write_targets(self, jump: usize, set: usize, program: &mut Program) {
        for at in 0..self.n {
            if self.plan.item(at) == Item::Label(set) {
                program.push_edge(Edge { from: jump, to: at });
            }
        }
    }
}

// An illegal word, at times with an opcode that there is not, or with a field that a call or a ret does not have.
fn last(random: &mut Random) -> u64 {
    match random.below(16) {
        0 | 1 => u64::from(Fields {
            op: 11,
            a: 0,
            b: 0,
            c: 0,
            w: 7,
        }),
        2 => word(Kind::Call, 0, 0, 1, 7),
        3 => word(Kind::Ret, 1, 0, 0, 0),
        4 => word(Kind::Ret, 0, 0, 0, 7),
        _ => ONES,
    }
}

// A word that is no exact form, one time in four.
fn odd(random: &mut Random) -> u64 {
    if random.once_in(4) {
        word(Kind::Add, 32, 1, 1, 0)
    } else {
        word(Kind::Addi, 4, 4, 0, 1)
    }
}

// The word of a guard after its first.
fn nth(guard: Guard, k: usize) -> u64 {
    guard.words().get(k).copied().unwrap_or(ONES)
}

// The first word of a guard, which takes the register that the word before aimed.
fn takes_aimed(before: u64, w: u32) -> u64 {
    word(Kind::Addi, 0, Fields::from(before).a, 0, w)
}

fn aim(address: usize, random: &mut Random) -> u64 {
    word(Kind::Movi, random.register(), 0, 0, low(address))
}
