// What is counted as programs are compared and calls are made, and the lines that tell it.
use crate::second::Fault;
use std::fmt;

// How often something came up.
#[derive(Clone, Copy)]
pub(crate) struct Count(u64);

impl Count {
    // One more, where it came up.
    pub(crate) fn add(&mut self, came_up: bool) {
        self.0 = self.0.wrapping_add(u64::from(came_up));
    }
}

impl fmt::Display for Count {
    fn fmt<W: fmt::Write>(&self, f: &mut fmt::Formatter<W>) -> fmt::Result {
        write!(f, "{}", self.0)
    }
}

// How often what came up, the refused codes at the number of their fault.
#[derive(Clone, Copy)]
pub(crate) struct Tally {
    pub(crate) accepted: Count,
    refused: [Count; 19],
    pub(crate) disagreements: Count,
    pub(crate) lists: Count,
    pub(crate) steps: Count,
    pub(crate) jumps: Count,
    pub(crate) stores: Count,
    pub(crate) outside: Count,
    pub(crate) calls: Count,
    pub(crate) full_calls: Count,
    pub(crate) returns: Count,
    pub(crate) nested: Count,
    pub(crate) astray: Count,
    pub(crate) code_changed: Count,
    pub(crate) stops: Count,
    pub(crate) fours: Count,
    pub(crate) fives: Count,
    pub(crate) sixes: Count,
    pub(crate) wrong_stops: Count,
    pub(crate) runs: Count,
    pub(crate) wrong_runs: Count,
    pub(crate) writes: Count,
    pub(crate) refused_writes: Count,
    pub(crate) wrong_writes: Count,
}

impl Tally {
    pub(crate) fn empty() -> Self {
        let none = Count(0);
        Self {
            accepted: none,
            refused: [none; 19],
            disagreements: none,
            lists: none,
            steps: none,
            jumps: none,
            stores: none,
            outside: none,
            calls: none,
            full_calls: none,
            returns: none,
            nested: none,
            astray: none,
            code_changed: none,
            stops: none,
            fours: none,
            fives: none,
            sixes: none,
            wrong_stops: none,
            runs: none,
            wrong_runs: none,
            writes: none,
            refused_writes: none,
            wrong_writes: none,
        }
    }

    pub(crate) fn refuse(&mut self, fault: Fault) {
        self.refused[fault as usize].add(true);
    }
}

impl fmt::Display for Tally {
    fn fmt<W: fmt::Write>(&self, f: &mut fmt::Formatter<W>) -> fmt::Result {
        writeln!(f, "accepted {}", self.accepted)?;
        for fault in Fault::ALL {
            let number = fault as usize;
            writeln!(f, "refused {number}: {}", self.refused[number])?;
        }
        writeln!(f, "disagreements {}", self.disagreements)?;
        writeln!(f, "lists of calls {}", self.lists)?;
        write!(f, "steps held {} (jumps {}, ", self.steps, self.jumps)?;
        write!(
            f,
            "stores {}), outside the graph {}, ",
            self.stores, self.outside
        )?;
        writeln!(f, "code changed {}", self.code_changed)?;
        write!(
            f,
            "steps by call {}, with the stack full {}, ",
            self.calls, self.full_calls
        )?;
        write!(f, "by ret {} (nested {}), ", self.returns, self.nested)?;
        writeln!(f, "not to the word after the latest call {}", self.astray)?;
        write!(f, "stops {} ({} of them 4, ", self.stops, self.fours)?;
        write!(f, "{} 5, {} 6), ", self.fives, self.sixes)?;
        writeln!(f, "of a wrong number {}", self.wrong_stops)?;
        writeln!(
            f,
            "runs {}, unlike their steps {}",
            self.runs, self.wrong_runs
        )?;
        write!(
            f,
            "bus writes {}, refused {}, ",
            self.writes, self.refused_writes
        )?;
        write!(f, "answered wrongly {}", self.wrong_writes)
    }
}
