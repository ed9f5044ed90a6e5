// The guarded code, block after block. Labels are there already; what stands for a word is put where its block ends.
ghost use Rattle.std.specs.Prelude.{◌≡◌, ◌*◌, ◌<◌, ◌≤◌, true, false, length};
ghost use Rattle.std.proofs.lemmas.List.Edits.{sets};
ghost use Rattle.isa.specs.Instructions.{instr_at, is_jump};
ghost use Rattle.graph.specs.Claim.{edge_count};
ghost use Rattle.rewrite.specs.Inside.{body_plain, body_from, code_plain, edges_plain, LabelsStand, StartsAt};

use crate::Layout;
use isa::{Fields, is_branch};

// The room in `code`, an address below n and an edge are asked at each call: the place is lent anew, so no struct can hold them.
impl Layout<'_> {
    // All blocks with their edges, and the illegal word. Edges rise: those that start at a or above begin at edge k. So a jmp is at a exactly
    // where edge k starts, and no word is asked.
    #[tactic(auto, using(checker::proofs::Runs::cut_none, crate::proofs::Laying::put_none))]
    pub(crate) fn put_blocks(&self, code: &mut [u64], new_edges: &mut [u16])
        requires { LabelsStand self.now.bare.memory.now self.now.bare.n self.now.bare.edges.now code.old × (self.now.bare.total ≤ length code.old) × (2 * edge_count self.now.bare.edges.now ≤ length new_edges.old) }
        ensures code { code.new ≡ sets code.old 0 (code_plain self.now.bare.memory.now self.now.bare.n self.now.bare.edges.now) }
        ensures edges { new_edges.new ≡ sets new_edges.old 0 (edges_plain self.now.bare.memory.now self.now.bare.n self.now.bare.edges.now) }
    {
        let mut k = 0;
        for a in 0..self.bare.n {
            if self.bare.starts(k, a) {
                self.put_guard(a, k, code);
                let end = self.bare.run_end(k, a);
                self.put_edges(a, k, end, new_edges);
                k = end;
            } else {
                self.put_word(a, code);
            }
        }
        code[self.bare.total - 1] = u64::MAX;
    }

    // The guard of the jmp at a, whose first edge is k: its register goes into the first word, and the ID of its set, the lowest target, into
    // the third.
    fn put_guard(&self, a: usize, k: usize, code: &mut [u64])
        requires { (a < self.now.bare.n) × (is_jump (instr_at self.now.bare.memory.now a) ≡ true) × StartsAt self.now.bare.memory.now self.now.bare.n self.now.bare.edges.now a k × (self.now.bare.total ≤ length code.old) }
        ensures { code.new ≡ sets code.old (body_from self.now.bare.memory.now self.now.bare.n self.now.bare.edges.now a) (body_plain self.now.bare.memory.now self.now.bare.n self.now.bare.edges.now a) }
    {
        let words = self.words;
        let register = Fields::of_word(self.bare.memory[a]).a;
        let first = words[0] + u64::from(register) * 0x100_0000_0000;
        let id = self.bare.target_of(k);
        let id_word = guards::id_word(u32::from(self.entries[id]));
        let guard = [first, words[1], id_word, words[3], words[4], words[5]];
        let end = self.block_end(a);
        code[end - 6..end].copy_from_slice(&guard);
    }

    // Any other word at a, with its target moved where it is a branch.
    fn put_word(&self, a: usize, code: &mut [u64])
        requires { (a < self.now.bare.n) × (is_jump (instr_at self.now.bare.memory.now a) ≡ false) × (self.now.bare.total ≤ length code.old) }
        ensures { code.new ≡ sets code.old (body_from self.now.bare.memory.now self.now.bare.n self.now.bare.edges.now a) (body_plain self.now.bare.memory.now self.now.bare.n self.now.bare.edges.now a) }
    {
        let word = self.bare.memory[a];
        let end = self.block_end(a);
        if is_branch(word) {
            let w = Fields::of_word(word).w;
            code[end - 1] = word - u64::from(w) + u64::from(self.entries[w as usize]);
        } else {
            code[end - 1] = word;
        }
    }
}
