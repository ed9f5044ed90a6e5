// Figures for the site owner (document 02, K1): how tightly an accepted program is held.
#![tactic(auto)]

ghost use Rattle.std.specs.Prelude.{◌≡◌, ◌+◌, ◌*◌, ◌≤◌, length, take};
ghost use Rattle.report.specs.Reports.{report_of, parcel_report};

mod passes;

use answers::Fault;
use isa::Technique;
use parcel::Counts;

// The freedom of the computed jumps: the distinct edges, and how many there would be if each jump could go to every code word.
#[derive(Clone, Copy, Debug, PartialEq, Eq)]
pub struct Freedom {
    pub edges: u32,
    pub possible: u32,
}

// Words of each kind, in the sequence of the table of instructions and illegal words last; target sets, the size of the largest;
// the freedom, unless there are no jumps.
#[derive(Clone, Copy, Debug, PartialEq, Eq)]
pub struct Figures {
    pub kinds: [u16; 12],
    pub sets: u16,
    pub largest: u16,
    pub freedom: Option<Freedom>,
}

// The figures of a program that the checker accepts, or its first fault.
#[tactic(auto, using(crate::proofs::Held::held, crate::proofs::Sets::figures_are, crate::proofs::Reports::accepted_report, crate::proofs::Reports::refused_report))]
pub fn report(
    technique: Technique,
    memory: &[u64],
    n: usize,
    edges: &[u16],
) -> Result<Figures, Fault>
    ensures { result ≡ report_of technique memory.now n edges.now }
{
    checker::check(technique, memory, n, edges)?;
    Ok(passes::figures(memory, n, edges.len() / 2))
}

// The same of a parcel: read, and then checked. The largest parcel has 2,048 code words, 2,048 edges and 2,048 data words.
pub fn report_parcel(technique: Technique, parcel: &[u8]) -> Result<Figures, Fault>
    ensures { result ≡ parcel_report technique parcel.now }
{
    let mut memory = [0u64; 4096];
    let mut edges = [0u16; 4096];
    let counts = parcel::read_parcel(parcel, &mut memory, &mut edges)?;
    report_read(technique, &memory, &edges, counts)
}

// Reports on what was read: the front of the memory and of the edges.
fn report_read(
    technique: Technique,
    memory: &[u64],
    edges: &[u16],
    counts: Counts,
) -> Result<Figures, Fault>
    requires { (counts.code + counts.data ≤ length memory.now) × (counts.edges * 2 ≤ length edges.now) }
    ensures { result ≡ report_of technique (take (counts.code + counts.data) memory.now) counts.code (take (counts.edges * 2) edges.now) }
{
    let len = counts.code + counts.data;
    let numbers = counts.edges * 2;
    report(technique, &memory[..len], counts.code, &edges[..numbers])
}
