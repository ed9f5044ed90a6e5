// Guards put in for the installer (document 02, K7): from bare code and its edges the plain guarded code, its edges, and the map from each
// old address to its new one.
#![tactic(auto)]

mod blocks;
mod entries;
mod given;
mod labels;

ghost use Rattle.std.specs.Prelude.{◌≡◌, Ok};
ghost use Rattle.isa.specs.declared.Technique.{Technique};
ghost use Rattle.guards.specs.Patterns.{jump_words};
ghost use Rattle.rewrite.specs.Answers.{Put, plain_of, RewrittenSo};
ghost use Rattle.rewrite.specs.Inside.{Mapped};

use answers::{Fault, Refusal};
use given::BareCode;
use isa::Technique;

// What comes of bare code: so many words of guarded code and so many edge numbers.
#[derive(Clone, Copy, Debug, PartialEq, Eq)]
pub struct Rewritten {
    pub code: usize,
    pub edges: usize,
}

// The three places stay apart, here and below: C lends them apart, and a struct of three `&mut` would be taken apart again to lend them.

// Puts the guarded code of the n words at the front of memory into `code`, its edges into `new_edges`, and for each of the n addresses
// where its block begins into `map`; or gives the number and the place of the first fault.
pub fn rewrite(
    memory: &[u64],
    n: usize,
    edges: &[u16],
    code: &mut [u64],
    new_edges: &mut [u16],
    map: &mut [u16],
) -> Result<Rewritten, Fault>
    ensures { RewrittenSo memory.now n edges.now code.old new_edges.old map.old result code.new new_edges.new map.new }
{
    let total = bare::check_bare(memory, n, edges)?;
    let bare = BareCode {
        memory,
        n,
        edges,
        total,
    };
    bare.put(code, new_edges, map)
}

impl BareCode<'_> {
    // The map, the code and the edges, where each has its place. No array is needed besides: until the map is put, its place holds the
    // owners. Not inlined: its loops want the registers that the checks before it take.
    #[tactic(auto, using(crate::proofs::Verdicts::short_put))]
    #[inline(never)]
    fn put(
        &self,
        code: &mut [u64],
        new_edges: &mut [u16],
        map: &mut [u16],
    ) -> Result<Rewritten, Fault>
        ensures { Put (Ok tt) (plain_of self.now.memory.now self.now.n self.now.edges.now) code.old new_edges.old map.old result code.new new_edges.new map.new }
    {
        let edges = self.edges.len();
        let short = (code.len() < self.total) | ((new_edges.len() < edges) | (map.len() < self.n));
        if short {
            return Err(Fault::nowhere(Refusal::PlaceTooShort));
        }
        self.put_owners(map);
        self.put_labels(map, code);
        let words = guards::jump_words(Technique::Plain, (self.total - 1) as u32);
        let layout = Layout {
            bare: *self,
            entries: &*map,
            words: &words,
        };
        layout.put_blocks(code, new_edges);
        Ok(Rewritten {
            code: self.total,
            edges,
        })
    }
}

// Bare code with its map, and the words of a jmp's guard.
#[derive(Clone, Copy)]
struct Layout<'a> {
    bare: BareCode<'a>,
    entries: &'a [u16],
    words: &'a [u64; 10],
    ghost mapped: { Mapped bare.memory.now bare.n bare.edges.now entries.now },
    ghost guard: { words.now ≡ jump_words Technique.Plain bare.total },
}
