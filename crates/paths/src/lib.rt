// The shortest way to an address of an accepted program (document 02, K9): a search from 0 over the graph, each address once.
#![tactic(auto)]

ghost use Rattle.std.specs.Prelude.{◌≡◌, ◌<◌};
ghost use Rattle.paths.specs.Shortest.{PathPut};
ghost use Rattle.paths.specs.Inside.{PutAt};

mod program;
mod reached;
mod search;

use answers::{Fault, Refusal};
use checker::check;
use isa::Technique;
use program::Program;
use reached::Reached;

// Puts the addresses from 0 to `address` into the place, along the path with the fewest steps of the graph, of equally short ones the one
// with the lower address where they first part; and tells how many they are. Or tells that no path leads there, or gives the number and
// the place of the first fault.
#[tactic(auto, using(crate::proofs::Answers::refused))]
pub fn shortest_path(
    technique: Technique,
    memory: &[u64],
    n: usize,
    edges: &[u16],
    address: u64,
    place: &mut [u16],
) -> Result<Option<usize>, Fault>
    ensures { PathPut technique memory.now n edges.now address place.old result place.new }
{
    check(technique, memory, n, edges)?;
    if n as u64 <= address {
        return Err(Fault::nowhere(Refusal::OutsideCode));
    }
    let program = Program { memory, n, edges };
    program.put_path_to(address as usize, place)
}

impl Program<'_> {
    // The path of an accepted program. Not inlined: so its arrays and those of the check are not on the stack at one time.
    #[inline(never)]
    fn put_path_to(&self, address: usize, place: &mut [u16]) -> Result<Option<usize>, Fault>
        requires { address < self.now.n }
        ensures { PutAt self.now address place.old result place.new }
    {
        let mut reached = Reached::start();
        let Some(end) = self.search(address, &mut reached) else {
            return Ok(None);
        };
        let len = reached.path_len(end);
        if place.len() < len {
            return Err(Fault::nowhere(Refusal::PlaceTooShort));
        }
        reached.put_path(end, len, place);
        Ok(Some(len))
    }
}
