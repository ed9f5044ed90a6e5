// Totals over parcels (document 02, K1): the freedoms of up to 65,535 of them added, and which one's is the largest.
#![tactic(auto)]

ghost use Rattle.std.specs.Prelude.{◌≡◌, ◌<◌};
ghost use Rattle.report.specs.Reports.{report_of, parcel_report};
ghost use Rattle.totals.specs.Totals.{addition, fresh_totals, add_report, add_freedom, passed_over, largest_after, is_larger};

use answers::Fault;
use isa::Technique;
use report::{Figures, Freedom};

// The parcel with the largest freedom: its place, counted from 0, and its freedom.
#[derive(Clone, Copy, Debug, PartialEq, Eq)]
pub struct Largest {
    pub parcel: u16,
    pub freedom: Freedom,
}

// How many parcels were added, those passed over included; the sums of the others' distinct edges and of their possible ones.
#[derive(Clone, Copy, Debug, PartialEq, Eq)]
pub struct Totals {
    pub parcels: u16,
    pub edges: u64,
    pub possible: u64,
    pub largest: Option<Largest>,
}

// What became of a parcel. Without jumps or refused, it is passed over, but keeps its place; where 65,535 are in, or a sum
// would pass 64 bits, they are given back as they were.
#[derive(Clone, Copy, Debug, PartialEq, Eq)]
pub enum Added {
    Counted,
    WithoutJumps,
    Refused(Fault),
    Unchanged,
}

#[derive(Clone, Copy, Debug, PartialEq, Eq)]
pub struct Addition {
    pub totals: Totals,
    pub answer: Added,
}

// Adds a program that has been read.
pub fn add(
    totals: Totals,
    technique: Technique,
    memory: &[u64],
    n: usize,
    edges: &[u16],
) -> Addition
    ensures { result ≡ add_report totals (report_of technique memory.now n edges.now) }
{
    add_report(totals, report::report(technique, memory, n, edges))
}

// Reads a parcel, checks it and adds it. One that the reader refuses is a refused parcel like any other.
pub fn add_parcel(totals: Totals, technique: Technique, parcel: &[u8]) -> Addition
    ensures { result ≡ add_report totals (parcel_report technique parcel.now) }
{
    add_report(totals, report::report_parcel(technique, parcel))
}

// Adds what a report tells of a program or a parcel.
#[tactic(auto, unfolding(crate::specs::Totals::add_report))]
pub fn add_report(totals: Totals, report: Result<Figures, Fault>) -> Addition
    ensures { result ≡ add_report totals report }
{
    if totals.parcels == 65535 {
        return unchanged(totals);
    }
    match report {
        Err(fault) => totals.pass_over(Added::Refused(fault)),
        Ok(figures) => match figures.freedom {
            None => totals.pass_over(Added::WithoutJumps),
            Some(freedom) => totals.count_in(freedom),
        },
    }
}

impl Totals {
    pub fn fresh() -> Self
        ensures { result ≡ fresh_totals }
    {
        Self {
            parcels: 0,
            edges: 0,
            possible: 0,
            largest: None,
        }
    }

    // That there is room for one parcel more is asked of these three: a type for it would be made and taken apart at once.

    // One parcel more, and nothing else.
    fn passed_over(self) -> Self
        requires { self.parcels < 65535 }
        ensures { result ≡ passed_over self }
    {
        Self {
            parcels: self.parcels + 1,
            ..self
        }
    }

    fn pass_over(self, answer: Added) -> Addition
        requires { self.parcels < 65535 }
        ensures { result ≡ addition (passed_over self) answer }
    {
        Addition {
            totals: self.passed_over(),
            answer,
        }
    }

    // One parcel more and its freedom, unless a sum would pass 64 bits.
    fn count_in(self, freedom: Freedom) -> Addition
        requires { self.parcels < 65535 }
        ensures { result ≡ add_freedom self (Some freedom) }
    {
        let Some(edges) = self.edges.checked_add(u64::from(freedom.edges)) else {
            return unchanged(self);
        };
        let Some(possible) = self.possible.checked_add(u64::from(freedom.possible)) else {
            return unchanged(self);
        };
        Addition {
            totals: Self {
                edges,
                possible,
                largest: largest_after(self.parcels, freedom, self.largest),
                ..self.passed_over()
            },
            answer: Added::Counted,
        }
    }
}

fn unchanged(totals: Totals) -> Addition
    ensures { result ≡ addition totals Added.Unchanged }
{
    Addition {
        totals,
        answer: Added::Unchanged,
    }
}

fn largest_after(parcel: u16, freedom: Freedom, largest: Option<Largest>) -> Option<Largest>
    ensures { result ≡ largest_after parcel freedom largest }
{
    match largest {
        Some(earlier) if !is_larger(freedom, earlier.freedom) => largest,
        _ => Some(Largest { parcel, freedom }),
    }
}

fn is_larger(freedom: Freedom, earlier: Freedom) -> bool
    ensures { result ≡ is_larger freedom earlier }
{
    u64::from(earlier.edges) * u64::from(freedom.possible)
        < u64::from(freedom.edges) * u64::from(earlier.possible)
}
