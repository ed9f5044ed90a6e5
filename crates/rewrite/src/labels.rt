// Where each block begins, and the label at its front, if it has one.
ghost use Rattle.std.specs.Prelude.{◌≡◌, ◌<◌, ◌≤◌, length};
ghost use Rattle.std.proofs.lemmas.List.Edits.{sets};
ghost use Rattle.isa.specs.declared.Instr.{Instr};
ghost use Rattle.isa.specs.declared.Technique.{Technique};
ghost use Rattle.isa.specs.Words.{decode_of, encode_of};
ghost use Rattle.graph.specs.Passes.{Owned};
ghost use Rattle.guarded.specs.Rewrite.{body_size};
ghost use Rattle.rewrite.specs.Inside.{entries_plain, OwnersIn, LabelsIn};

use crate::given::BareCode;
use isa::{Kind, is_a};

impl BareCode<'_> {
    // For each destination the ID of its set, which is the target of a jump's first edge, and for every other address n. IDs stay numbers of
    // 16 bits, since that is what the place of the map holds.
    pub(crate) fn put_owners(&self, map: &mut [u16])
        requires { self.now.n ≤ length map.old }
        ensures { OwnersIn self.now.n self.now.edges.now map.new map.old }
    {
        let n = self.n;
        map[..n].fill(n as u16);
        let mut id = n;
        for k in 0..self.count() {
            let t = self.target_of(k);
            if self.is_first(k) {
                id = t;
            }
            map[t] = id as u16;
        }
    }

    // The map in place of the owners, and the labels. An ID is the lowest address of its set, so that its entry is there when a label needs
    // it. The sums stay below 7 times 2,048.
    pub(crate) fn put_labels(&self, map: &mut [u16], code: &mut [u64])
        requires { Owned self.now.edges.now self.now.n map.old × (self.now.n ≤ length map.old) × (self.now.total ≤ length code.old) }
        ensures map { map.new ≡ sets map.old 0 (entries_plain self.now.memory.now self.now.n self.now.edges.now) }
        ensures code { LabelsIn self.now.memory.now self.now.n self.now.edges.now self.now.total code.new code.old }
    {
        let mut at = 0;
        for a in 0..self.n {
            let owner = usize::from(map[a]);
            map[a] = at as u16;
            if owner < self.n {
                code[at] = label_word(map[owner]);
                at += 1;
            }
            at += body_size(self.memory[a]);
        }
    }
}

// "The word of label w is the number w."
#[tactic(auto, unfolding(isa::specs::Words::word_of, isa::specs::Words::encode_of))]
fn label_word(id: u16) -> u64
    ensures { result ≡ encode_of (Instr.Label id) }
{
    u64::from(id)
}

fn body_size(word: u64) -> usize
    ensures { (result ≡ body_size Technique.Plain (decode_of word)) × (result ≤ 6) }
{
    if is_a(Kind::Jmp, word) { 6 } else { 1 }
}
