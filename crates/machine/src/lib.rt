// The machine: one step by either technique, and the bounded run (document 01, "Steps").
//
// `step` and `run` take and return the state by value; `run_lent` works on a state that is lent as words, without a copy (a rule of the
// project: by value at the boundary, lent inside). Every step is made by `run_over`, over lent registers: its loop is the one place
// where the compiler puts the whole of a step.
#![tactic(auto)]

ghost use Rattle.std.specs.Prelude.{◌≡◌, ◌<◌, true, cond, length, slice_index, nat_lt};
ghost use Rattle.isa.specs.Theorems.{Registers};
ghost use Rattle.addresses.specs.Addresses.{address_of};
ghost use Rattle.machine.specs.Numbers.{stop_number};
ghost use Rattle.machine.specs.Steps.{fetch_end, store_start, next_allowed, storable, latest_of, fresh_of, stack_places, step_shaped, effect_of, settle_of, intent_of, Steps};
ghost use Rattle.machine.specs.Runs.{Runs};
ghost use Rattle.machine.specs.Lent.{ended, RunsLent};
ghost use Rattle.machine.specs.Inside.{InRange, Carried, RanOver, state_at};

use answers::Refusal;
use isa::{Instr, Technique};

// A state that is lent as words: r0 to r31, the pc, the depth, then the stack.
pub const STATE_WORDS: usize = 162;

// The first `depth` places of the stack hold the return addresses, the latest last; what the others hold, no step reads.
#[derive(Clone, Copy, Debug, PartialEq, Eq)]
pub struct State {
    pub regs: [u64; 32],
    pub pc: u64,
    pub depth: u64,
    pub stack: [u64; 128],
}

impl State {
    pub fn fresh(regs: [u64; 32]) -> Self
        ensures { result ≡ fresh_of regs }
    {
        Self {
            regs,
            pc: 0,
            depth: 0,
            stack: [0; 128],
        }
    }
}

// Why a step cannot be made.
#[derive(Clone, Copy, Debug, PartialEq, Eq)]
pub enum Stop {
    Fetch,
    Illegal,
    Access,
    Next,
    Full,
    Empty,
}

// The number of a stop.
impl From<Stop> for u8 {
    ghost from_gives = { λ stop number. number ≡ stop_number stop };

    fn from(stop: Stop) -> u8 {
        match stop {
            Stop::Fetch => 1,
            Stop::Illegal => 2,
            Stop::Access => 3,
            Stop::Next => 4,
            Stop::Full => 5,
            Stop::Empty => 6,
        }
    }
}

// Why a step is not made, or a run ends before its limit: it stopped, or the call was refused. It has no number of its own, since
// stops and refusals share 5 and 6.
#[derive(Clone, Copy, Debug, PartialEq, Eq)]
pub enum Halt {
    Stopped(Stop),
    Refused(Refusal),
}

#[derive(Clone, Copy, Debug, PartialEq, Eq)]
pub struct Stepped {
    pub state: State,
    pub outcome: Result<(), Halt>,
}

#[derive(Clone, Copy, Debug, PartialEq, Eq)]
pub struct Ran {
    pub state: State,
    pub ending: Result<(), Halt>,
    pub count: u16,
}

// What a run on a lent state answers.
#[derive(Clone, Copy, Debug, PartialEq, Eq)]
pub struct Ended {
    pub ending: Result<(), Halt>,
    pub count: u16,
}

// The parameters of the next three and of `run_over` are those of the calls from C, which lend them apart.

// One step: a run with limit 1. The memory is n words of code and then the data.
#[tactic(auto, using(crate::proofs::OneStep::one_step, crate::proofs::Theorems::steps))]
pub fn step(technique: Technique, state: State, memory: &mut [u64], n: usize) -> Stepped
    ensures { Steps technique n memory.old state result memory.new }
{
    let ran = run(technique, state, memory, n, 1);
    Stepped {
        state: ran.state,
        outcome: ran.ending,
    }
}

// Steps until one cannot be made or the limit is reached.
pub fn run(technique: Technique, state: State, memory: &mut [u64], n: usize, limit: u16) -> Ran
    ensures { Runs technique n limit memory.old state result memory.new }
{
    let mut regs = state.regs;
    let mut stack = state.stack;
    let start = At {
        pc: state.pc,
        depth: state.depth,
    };
    let (at, ended) = run_over(technique, &mut regs, &mut stack, start, memory, n, limit);
    Ran {
        state: State {
            regs,
            pc: at.pc,
            depth: at.depth,
            stack,
        },
        ending: ended.ending,
        count: ended.count,
    }
}

// The same run on a state that is lent as words.
pub fn run_lent(
    technique: Technique,
    state: &mut [u64],
    memory: &mut [u64],
    n: usize,
    limit: u16,
) -> Ended
    ensures { RunsLent technique n limit state.old memory.old result state.new memory.new }
{
    if state.len() < STATE_WORDS {
        return refused(Refusal::PlaceTooShort);
    }
    let start = At {
        pc: state[32],
        depth: state[33],
    };
    let (regs, rest) = state.split_first_chunk_mut::<32>().unwrap();
    let (stands, rest) = rest.split_first_chunk_mut::<2>().unwrap();
    let (stack, _) = rest.split_first_chunk_mut::<128>().unwrap();
    let (at, ended) = run_over(technique, regs, stack, start, memory, n, limit);
    stands[0] = at.pc;
    stands[1] = at.depth;
    ended
}

fn refused(refusal: Refusal) -> Ended
    ensures { result ≡ ended (Err (Halt.Refused refusal)) 0 }
{
    Ended {
        ending: Err(Halt::Refused(refusal)),
        count: 0,
    }
}

// What a step that can be made is about to do: the next pc, and with it a register or a word of memory to write, or a return address to
// put down or to take.
#[derive(Clone, Copy, Debug, PartialEq, Eq)]
pub enum Effect {
    Go(u64),
    SetRegister(u8, u64, u64),
    PutWord(u64, u64, u64),
    Push(u64, u64),
    Pop(u64),
}

// Where the machine stands: at which word, and with how many return addresses put down.
#[derive(Clone, Copy, Debug, PartialEq, Eq)]
struct At {
    pc: u64,
    depth: u64,
}

// The run over lent registers and a lent stack: where it stands at its end, and what it answers.
#[tactic(auto, using(crate::proofs::Steps::run_spent), unfolding(crate::specs::Runs::run_of, crate::specs::Runs::run_memory))]
fn run_over(
    technique: Technique,
    regs: &mut [u64; 32],
    stack: &mut [u64; 128],
    start: At,
    memory: &mut [u64],
    n: usize,
    limit: u16,
) -> (At, Ended)
    ensures { RanOver technique n limit (state_at regs.old start stack.old) memory.old result.0 result.1 regs.new memory.new stack.new }
{
    if !shaped(memory.len(), n, start.depth) {
        return (start, refused(Refusal::Shape));
    }
    let figure = Figure { technique, n };
    let mut at = start;
    for count in 0..limit {
        match figure.advance(memory, regs, stack, at) {
            Ok(next) => at = next,
            Err(stop) => {
                let ending = Err(Halt::Stopped(stop));
                return (at, Ended { ending, count });
            }
        }
    }
    let spent = Ended {
        ending: Ok(()),
        count: limit,
    };
    (at, spent)
}

// Number 6 of a call on a state and memory, turned round.
fn shaped(len: usize, n: usize, depth: u64) -> bool
    ensures { result ≡ step_shaped len n depth }
{
    answers::memory_shaped(len, n) && depth <= 128
}

// The figure that steps follow: which technique's, over how many words of code.
#[derive(Clone, Copy)]
struct Figure {
    technique: Technique,
    n: usize,
}

impl Figure {
    // One step over lent registers and a lent stack: where it leads, or why it cannot be made. No struct holds the three `&mut`: the shape
    // of the memory, a ghost field, cannot stand beside them (docs/NOT_COVERED.md of the kit).
    #[tactic(auto, using(crate::proofs::Steps::intent_in), unfolding(crate::specs::Steps::memory_after, crate::specs::Inside::moved_of, crate::specs::Inside::registers_after, crate::specs::Inside::stack_after))]
    fn advance(
        self,
        memory: &mut [u64],
        regs: &mut [u64; 32],
        stack: &mut [u64; 128],
        at: At,
    ) -> Result<At, Stop>
        requires { step_shaped (length memory.old) self.n at.depth ≡ true }
        ensures { Carried (intent_of self.technique self.n memory.old (state_at regs.old at stack.old)) at.depth regs.old memory.old stack.old result regs.new memory.new stack.new }
    {
        let before = Before {
            figure: self,
            memory,
            regs,
            stack,
            at,
        };
        let effect = before.intent()?;
        Ok(perform(memory, regs, stack, at.depth, effect))
    }

    fn fetch_end(self, len: usize) -> usize
        ensures { result ≡ fetch_end self.technique self.n len }
    {
        match self.technique {
            Technique::Plain => self.n,
            Technique::MemoryGuards => len,
        }
    }

    fn store_start(self) -> usize
        ensures { result ≡ store_start self.technique self.n }
    {
        match self.technique {
            Technique::Plain => self.n,
            Technique::MemoryGuards => 0,
        }
    }

    // The next pc, if a step may go there.
    fn to(self, next: u64) -> Result<u64, Stop>
        ensures { result ≡ cond (next_allowed self.technique self.n next) (Ok next) (Err Stop.Next) }
    {
        match self.technique {
            Technique::Plain if self.n as u64 <= next => Err(Stop::Next),
            _ => Ok(next),
        }
    }
}

// What a step goes by: the figure, and the machine as it stands before the step.
#[derive(Clone, Copy)]
struct Before<'a> {
    figure: Figure,
    memory: &'a [u64],
    regs: &'a [u64; 32],
    stack: &'a [u64; 128],
    at: At,
    ghost shaped: { step_shaped (length memory.now) figure.n at.depth ≡ true },
}

impl Before<'_> {
    // What the step is about to do, or why it cannot be made.
    #[tactic(auto, using(isa::proofs::Words::decode_registers), unfolding(crate::specs::Steps::intent_of))]
    fn intent(&self) -> Result<Effect, Stop>
        ensures { result ≡ intent_of self.now.figure.technique self.now.figure.n self.now.memory.now (state_at self.now.regs.now self.now.at self.now.stack.now) }
    {
        let at = self.at.pc as usize;
        if at < self.figure.fetch_end(self.memory.len()) {
            return self.effect(isa::decode(self.memory[at]));
        }
        Err(Stop::Fetch)
    }

    // What the instruction does, or why it cannot. Each arm tests its own next pc: that is faster than one test after the match.
    #[tactic(auto, unfolding(crate::specs::Steps::settle_of, crate::specs::Steps::effect_of, crate::specs::Steps::load_of, crate::specs::Steps::store_of, crate::specs::Steps::call_of, crate::specs::Steps::return_of))]
    fn effect(&self, i: Instr) -> Result<Effect, Stop>
        requires { Registers i × (self.now.at.pc < 4096) }
        ensures { result ≡ settle_of self.now.figure.technique self.now.figure.n (effect_of self.now.figure.technique self.now.figure.n self.now.memory.now (state_at self.now.regs.now self.now.at self.now.stack.now) i) }
    {
        let next = self.at.pc + 1;
        match i {
            Instr::Label(_) => Ok(Effect::Go(self.figure.to(next)?)),
            Instr::Add(rd, rs, rt) => {
                let sum = self.regs[usize::from(rs)].wrapping_add(self.regs[usize::from(rt)]);
                Ok(Effect::SetRegister(rd, sum, self.figure.to(next)?))
            }
            Instr::Addi(rd, rs, w) => {
                let sum = self.regs[usize::from(rs)].wrapping_add(u64::from(w));
                Ok(Effect::SetRegister(rd, sum, self.figure.to(next)?))
            }
            Instr::Movi(rd, w) => Ok(Effect::SetRegister(rd, u64::from(w), self.figure.to(next)?)),
            Instr::Bgt(rs, rt, w) => {
                let taken = self.regs[usize::from(rt)] < self.regs[usize::from(rs)];
                let next = if taken { u64::from(w) } else { next };
                Ok(Effect::Go(self.figure.to(next)?))
            }
            Instr::Jd(w) => Ok(Effect::Go(self.figure.to(u64::from(w))?)),
            Instr::Jmp(rs) => Ok(Effect::Go(self.figure.to(self.regs[usize::from(rs)])?)),
            Instr::Ld(rd, rs, w) => {
                let word = self.loaded(self.regs[usize::from(rs)], w)?;
                Ok(Effect::SetRegister(rd, word, self.figure.to(next)?))
            }
            Instr::St(rd, rs, w) => {
                let address = self.stored(self.regs[usize::from(rd)], w)?;
                Ok(Effect::PutWord(address, self.regs[usize::from(rs)], self.figure.to(next)?))
            }
            Instr::Call(w) => {
                self.room()?;
                Ok(Effect::Push(next, self.figure.to(u64::from(w))?))
            }
            Instr::Ret => Ok(Effect::Pop(self.figure.to(self.latest()?)?)),
            Instr::Illegal => Err(Stop::Illegal),
        }
    }

    // The word that a load reads.
    fn loaded(&self, base: u64, w: u32) -> Result<u64, Stop>
        ensures { result ≡ cond (nat_lt (address_of base w) (length self.now.memory.now)) (Ok (slice_index self.now.memory.now (address_of base w))) (Err Stop.Access) }
    {
        let address = addresses::address(base, w).ok_or(Stop::Access)?;
        self.memory
            .get(address as usize)
            .copied()
            .ok_or(Stop::Access)
    }

    // The address that a store writes to.
    fn stored(&self, base: u64, w: u32) -> Result<u64, Stop>
        ensures { result ≡ cond (storable self.now.figure.technique self.now.figure.n self.now.memory.now (address_of base w)) (Ok (address_of base w)) (Err Stop.Access) }
    {
        let address = addresses::address(base, w).ok_or(Stop::Access)?;
        if (self.figure.store_start()..self.memory.len()).contains(&(address as usize)) {
            return Ok(address);
        }
        Err(Stop::Access)
    }

    // Whether a return address can be put down.
    fn room(&self) -> Result<(), Stop>
        ensures { result ≡ cond (nat_lt self.now.at.depth stack_places) (Ok tt) (Err Stop.Full) }
    {
        if self.at.depth < 128 {
            return Ok(());
        }
        Err(Stop::Full)
    }

    // The latest return address put down.
    fn latest(&self) -> Result<u64, Stop>
        ensures { result ≡ cond (nat_lt 0 self.now.at.depth) (Ok (latest_of self.now.at.depth self.now.stack.now)) (Err Stop.Empty) }
    {
        if self.at.depth == 0 {
            return Err(Stop::Empty);
        }
        Ok(self.stack[self.at.depth as usize - 1])
    }
}

// The effect carried out on lent registers, memory and stack: where it leads.
#[tactic(auto, unfolding(crate::specs::Steps::memory_after, crate::specs::Inside::moved_of, crate::specs::Inside::registers_after, crate::specs::Inside::stack_after))]
fn perform(
    memory: &mut [u64],
    regs: &mut [u64; 32],
    stack: &mut [u64; 128],
    depth: u64,
    effect: Effect,
) -> At
    requires { InRange (length memory.old) depth effect }
    ensures { Carried (Ok effect) depth regs.old memory.old stack.old (Ok result) regs.new memory.new stack.new }
{
    match effect {
        Effect::Go(pc) => At { pc, depth },
        Effect::SetRegister(rd, value, pc) => {
            regs[usize::from(rd)] = value;
            At { pc, depth }
        }
        Effect::PutWord(address, value, pc) => {
            memory[address as usize] = value;
            At { pc, depth }
        }
        Effect::Push(back, pc) => {
            stack[depth as usize] = back;
            let depth = depth + 1;
            At { pc, depth }
        }
        Effect::Pop(pc) => {
            let depth = depth - 1;
            At { pc, depth }
        }
    }
}
