// Random lists of calls over accepted programs (document 01, "Lists of calls"): each step made is held against the graph of the
// checked words and edges, each ret also against the calls made before it, and after each step all code words are those checked. A
// run is made twice, as a run and as its steps one by one, on two memories that must stay the same.
use crate::codes::Course;
use crate::edges::{edge_at, pairs};
use crate::pending::Pending;
use crate::random::Random;
use crate::second::Code;
use crate::sequences::Technique;
use crate::tally::Tally;
use crate::words;
use crate::words::{Kind, ONES};
use answers::Refusal;
use machine::{Halt, Ran, State};
use std::array;

// Forty calls on a state with random registers.
pub(crate) fn hold_list(course: &mut Course, code: Code) {
    let len = code.memory.len();
    if len > 512 {
        return;
    }
    let mut memory = [0u64; 512];
    memory[..len].copy_from_slice(code.memory);
    let mut twin = memory;
    let mut walk = Walk {
        code,
        state: State::fresh(random_registers(len, &mut course.random)),
        pending: Pending::none(),
        memory: &mut memory[..len],
        twin: &mut twin[..len],
    };
    course.tally.lists.add(true);
    for _ in 0..40 {
        walk.call(course);
    }
}

fn random_registers(len: usize, random: &mut Random) -> [u64; 32] {
    array::from_fn(|_| random.word(len))
}

// A list of calls under way, on the code that was checked.
#[derive(Drop)]
struct Walk<'a> {
    code: Code<'a>,
    state: State,
    pending: Pending,
    memory: &'a mut [u64],
    twin: &'a mut [u64],
}

impl Walk<'_> {
    // A run or a step, half of the time, or a bus write to a register or a word.
    fn call(&mut self, course: &mut Course) {
        if course.random.once_in(2) {
            self.run_twice(course);
        } else if course.random.once_in(2) {
            self.write_register(course);
        } else {
            self.write_word(course);
        }
    }

    // One step most of the time, at times so many that calls may fill the stack.
    fn run_twice(&mut self, course: &mut Course) {
        let limit = match course.random.below(12) {
            0 => course.random.below(600) as u16,
            1..=3 => course.random.below(60) as u16,
            _ => 1,
        };
        let by_steps = self.walk(limit, &mut course.tally);
        let code = self.code;
        let state = self.state;
        let ran = machine::run(code.technique.asked(), state, self.twin, code.n, limit);
        let same = self.same_memories() && ran == by_steps;
        course.tally.runs.add(true);
        course.tally.wrong_runs.add(!same);
        self.state = ran.state;
    }

    // Steps one by one, each held, until one cannot be made or the limit is reached.
    fn walk(&mut self, limit: u16, tally: &mut Tally) -> Ran {
        let code = self.code;
        let mut state = self.state;
        for count in 0..limit {
            let pc = state.pc as usize;
            let stepped = machine::step(code.technique.asked(), state, self.memory, code.n);
            state = stepped.state;
            tally.code_changed.add(!self.keeps_code());
            if let Err(halt) = stepped.outcome {
                self.hold_stop(tally, pc, halt);
                return Ran {
                    state,
                    ending: Err(halt),
                    count,
                };
            }
            self.hold_made(tally, pc, state.pc as usize);
        }
        Ran {
            state,
            ending: Ok(()),
            count: limit,
        }
    }

    fn hold_made(&mut self, tally: &mut Tally, pc: usize, next: usize) {
        let kind = self.code.kind(pc);
        tally.steps.add(true);
        tally.jumps.add(kind == Some(Kind::Jmp));
        tally.stores.add(kind == Some(Kind::St));
        tally.outside.add(!self.code.succeeds(pc, next));
        if kind == Some(Kind::Call) {
            let room = self.pending.push(pc.wrapping_add(1));
            tally.calls.add(true);
            tally.full_calls.add(!room);
        }
        if kind == Some(Kind::Ret) {
            tally.returns.add(true);
            tally.nested.add(self.pending.is_nested());
            let home = self.pending.pop();
            tally.astray.add(home != Some(next));
        }
    }

    fn hold_stop(&self, tally: &mut Tally, pc: usize, halt: Halt) {
        tally.stops.add(true);
        let stop = stop_number(halt);
        tally.fours.add(stop == Some(4));
        tally.fives.add(stop == Some(5));
        tally.sixes.add(stop == Some(6));
        tally.wrong_stops.add(!self.stop_allowed(pc, stop));
    }

    // "With memory guards, every step in it that cannot be made gives stop 2, or stop 3 with a load at the pc", or 5 or 6: "a program
    // may meet these two as well" (document 02, K8). "An accepted plain program then meets stop 4 at a jmp only." 5 is for a call with
    // 128 before it that are not returned from, 6 for a ret with none.
    fn stop_allowed(&self, pc: usize, stop: Option<u8>) -> bool {
        let kind = self.code.kind(pc);
        let Some(number) = stop else {
            return false;
        };
        match (self.code.technique, number) {
            (_, 5) => kind == Some(Kind::Call) && self.pending.is_full(),
            (_, 6) => kind == Some(Kind::Ret) && self.pending.is_empty(),
            (Technique::MemoryGuards, 2) => true,
            (Technique::MemoryGuards, 3) => kind == Some(Kind::Ld),
            (Technique::MemoryGuards, _) => false,
            (Technique::Plain, 4) => kind == Some(Kind::Jmp),
            (Technique::Plain, _) => number < 4,
        }
    }

    fn same_memories(&self) -> bool {
        let Walk { memory, twin, .. } = self;
        **memory == **twin
    }

    fn keeps_code(&self) -> bool {
        let checked = self.code.memory.iter();
        checked
            .zip(self.memory.iter())
            .take(self.code.n)
            .all(|(a, b)| a == b)
    }

    // A register of any number, mostly one that the bus may write.
    fn write_register(&mut self, course: &mut Course) {
        let register = course.random.below(34) as u64;
        let word = self.random_address(&mut course.random);
        let written = bus::write_register(self.state, register, word);
        let right = if (3..=31).contains(&register) {
            Ok(())
        } else {
            Err(17)
        };
        hold_write(&mut course.tally, written.answer, right, true);
        self.state = written.state;
    }

    // The same word to both memories.
    fn write_word(&mut self, course: &mut Course) {
        let address = self.random_address(&mut course.random);
        let word = self.random_word(&mut course.random);
        let n = self.code.n;
        write_data(&mut course.tally, self.memory, n, address, word);
        write_data(&mut course.tally, self.twin, n, address, word);
    }

    // An address of data most of the time.
    fn random_address(&self, random: &mut Random) -> u64 {
        let len = self.code.memory.len();
        let n = self.code.n;
        if random.once_in(4) {
            random.word(len)
        } else {
            n.wrapping_add(random.below(len.wrapping_sub(n))) as u64
        }
    }

    // Any word, at times the label of a set.
    fn random_word(&self, random: &mut Random) -> u64 {
        let any = random.once_in(2);
        let k = random.below(pairs(self.code.edges).len());
        if any {
            random.word(self.code.memory.len())
        } else {
            edge_at(self.code.edges, k).map_or(ONES, |edge| words::at(self.code.memory, edge.to))
        }
    }
}

fn write_data(tally: &mut Tally, memory: &mut [u64], n: usize, address: u64, word: u64) {
    let at = address as usize;
    let right = if (n..memory.len()).contains(&at) {
        Ok(())
    } else {
        Err(16)
    };
    let answer = bus::write_data(memory, n, address, word);
    let there = words::at(memory, at) == word;
    hold_write(tally, answer, right, there);
}

// A write was answered, and should have been answered so, by its number; where it was made the word must be there.
fn hold_write(tally: &mut Tally, answer: Result<(), Refusal>, right: Result<(), u8>, there: bool) {
    let number = answer.map_err(|refusal| u8::from(refusal));
    tally.writes.add(true);
    tally.refused_writes.add(number.is_err());
    tally
        .wrong_writes
        .add(number != right || number.is_ok() && !there);
}

// The number of a stop; a refusal has none.
fn stop_number(halt: Halt) -> Option<u8> {
    match halt {
        Halt::Stopped(stop) => Some(u8::from(stop)),
        Halt::Refused(_) => None,
    }
}
