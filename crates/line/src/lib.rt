// The line that the program `verdict` prints: a parcel read, checked plain, and put into words.
#![tactic(auto)]

mod buffer;

ghost use Rattle.std.specs.Prelude.{◌≡◌};
ghost use Rattle.parcel.specs.Parcel.{read_of};
ghost use Rattle.line.specs.Line.{answer_of, line_of, PutsLine};

use answers::Fault;
use buffer::Line;
use isa::Technique;
use parcel::Counts;

// Puts the line at the front of a lent place, and answers its length.
pub fn verdict_line(parcel: &[u8], line: &mut [u8; 80]) -> usize
    ensures { PutsLine parcel.now line.old result line.new }
{
    let text = match judge(parcel) {
        Ok(counts) => accepted(counts),
        Err(fault) => refused(fault),
    };
    text.put(line)
}

// Reads the parcel and checks it plain. The largest parcel has 2,048 code words, 2,048 edges and 2,048 data words.
pub fn judge(parcel: &[u8]) -> Result<Counts, Fault>
    ensures { result ≡ answer_of (read_of 2 parcel.now) }
{
    let mut memory = [0u64; 4096];
    let mut edges = [0u16; 4096];
    let found = parcel::read_parcel(parcel, &mut memory, &mut edges)?;
    let read = &memory[..found.code + found.data];
    checker::check(
        Technique::Plain,
        read,
        found.code,
        &edges[..found.edges * 2],
    )?;
    Ok(found)
}

#[tactic(auto, unfolding(crate::specs::Line::line_of))]
fn accepted(counts: Counts) -> Line
    ensures { result ≡ line_of (Ok counts) }
{
    let mut line = Line::new();
    line.text(b"accepted ");
    line.decimal(counts.code);
    line.text(b" ");
    line.decimal(counts.edges);
    line.text(b" ");
    line.decimal(counts.data);
    line.text(b"\n");
    line
}

#[tactic(auto, unfolding(crate::specs::Line::line_of))]
fn refused(fault: Fault) -> Line
    ensures { result ≡ line_of (Err fault) }
{
    let mut line = Line::new();
    line.text(b"refused ");
    line.decimal(usize::from(u8::from(fault.refusal)));
    line.place(fault.place);
    line.text(b"\n");
    line
}
