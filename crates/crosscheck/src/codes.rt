// Random codes, most of them damaged, by both checkers: how often each number came up, and how often the two disagreed.
use crate::build::build;
use crate::calls::hold_list;
use crate::program::Program;
use crate::random::Random;
use crate::second::{Code, Finding, Place};
use crate::sequences::Technique;
use crate::tally::Tally;
use answers::Verdict;

// What has been counted so far, and what is drawn next.
#[derive(Drop)]
pub(crate) struct Course {
    pub(crate) tally: Tally,
    pub(crate) random: Random,
}

pub(crate) fn compare_some(turns: usize) -> Tally {
    let mut program = Program::empty();
    let mut course = Course {
        tally: Tally::empty(),
        random: Random::new(0x1234_5678_9abc_def1),
    };
    for _ in 0..turns {
        course.compare_one(&mut program);
    }
    course.tally
}

impl Course {
    // A program of a technique, asked about mostly by the same one.
    fn compare_one(&mut self, program: &mut Program) {
        let guarded = self.random.once_in(2);
        build(technique(guarded), program, &mut self.random);
        self.damage_some(program);
        let other = self.random.once_in(30);
        // A code that does not fit the places is passed over.
        if let Some(code) = program.code(technique(guarded != other)) {
            self.compare(code);
        }
    }

    // Most programs get a fault, many get two, some none.
    fn damage_some(&mut self, program: &mut Program) {
        let times = match self.random.below(8) {
            0 => 0,
            1..=3 => 2,
            _ => 1,
        };
        for _ in 0..times {
            program.damage(&mut self.random);
        }
    }

    // Both checkers on one code; a list of calls too, where it is accepted.
    fn compare(&mut self, code: Code) {
        let first = checker::check(code.technique.asked(), code.memory, code.n, code.edges);
        let second = code.check();
        self.tally.disagreements.add(!agree(first, second));
        match second {
            Ok(()) => self.tally.accepted.add(true),
            Err(finding) => self.tally.refuse(finding.fault),
        }
        if first.is_ok() {
            hold_list(self, code);
        }
    }
}

fn technique(guarded: bool) -> Technique {
    if guarded {
        Technique::MemoryGuards
    } else {
        Technique::Plain
    }
}

// The same number and the same place.
fn agree(verdict: Verdict, second: Result<(), Finding>) -> bool {
    match (verdict, second) {
        (Ok(()), Ok(())) => true,
        (Err(fault), Err(finding)) => {
            u8::from(fault.refusal) == finding.fault as u8 && same(fault.place, finding.place)
        }
        _ => false,
    }
}

fn same(first: answers::Place, second: Place) -> bool {
    match (first, second) {
        (answers::Place::Nowhere, Place::Nowhere) => true,
        (answers::Place::Edge(j), Place::Edge(k)) => j == k,
        (answers::Place::Address(a), Place::Address(b)) => a == b,
        _ => false,
    }
}
