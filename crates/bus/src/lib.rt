// The bus writes (document 01, "Steps").
//
// `write_register` takes and returns the state by value; `write_register_lent` works on a state that is lent as words, without
// a copy (a rule of the project: by value at the boundary, lent inside).
#![tactic(auto)]

ghost use Rattle.std.specs.Prelude.{◌≤◌, length};
ghost use Rattle.bus.specs.Bus.{WritesData, WritesRegister};
ghost use Rattle.bus.specs.Lent.{WritesRegisterLent};
ghost use Rattle.bus.specs.Inside.{PutsRegister};

use answers::Refusal;
use machine::{STATE_WORDS, State};

#[derive(Clone, Copy, Debug, PartialEq, Eq)]
pub struct RegisterWritten {
    pub state: State,
    pub answer: Result<(), Refusal>,
}

// A bus write to a data word.
#[tactic(auto, unfolding(crate::specs::Bus::write_data_of, crate::specs::Bus::write_data_memory))]
pub fn write_data(memory: &mut [u64], n: usize, address: u64, word: u64) -> Result<(), Refusal>
    ensures { WritesData n memory.old address word result memory.new }
{
    if !answers::memory_shaped(memory.len(), n) {
        return Err(Refusal::Shape);
    }
    let at = address as usize;
    if !(n..memory.len()).contains(&at) {
        return Err(Refusal::NotData);
    }
    memory[at] = word;
    Ok(())
}

// A bus write to a register.
pub fn write_register(state: State, register: u64, word: u64) -> RegisterWritten
    ensures { WritesRegister state register word result }
{
    let mut regs = state.regs;
    let stack = state.stack;
    let answer = put_register(state.depth, &mut regs, register, word);
    RegisterWritten {
        state: State {
            regs,
            pc: state.pc,
            depth: state.depth,
            stack,
        },
        answer,
    }
}

// The same bus write on a lent state.
pub fn write_register_lent(state: &mut [u64], register: u64, word: u64) -> Result<(), Refusal>
    ensures { WritesRegisterLent state.old register word result state.new }
{
    if state.len() < STATE_WORDS {
        return Err(Refusal::PlaceTooShort);
    }
    put_register(state[33], state, register, word)
}

// The word into r3 to r31, where the register is one of them, of a state of this depth.
fn put_register(depth: u64, regs: &mut [u64], register: u64, word: u64) -> Result<(), Refusal>
    requires { 32 ≤ length regs.old }
    ensures { PutsRegister depth regs.old register word result regs.new }
{
    if 128 < depth {
        return Err(Refusal::Shape);
    }
    if !(3..=31).contains(&register) {
        return Err(Refusal::NotRegister);
    }
    regs[register as usize] = word;
    Ok(())
}
