// Bare code, before guards are put in (document 02, K7): what turns it away, and how long what comes out of it is.
#![tactic(auto)]

ghost use Rattle.std.specs.Prelude.{◌≡◌, ◌+◌, ◌*◌, ◌≤◌, false, ◌||◌, [], length, position, fold, Ok};
ghost use Rattle.std.specs.Result.{result_and};
ghost use Rattle.isa.specs.declared.Technique.{Technique};
ghost use Rattle.isa.specs.Words.{fields_of, decode_of};
ghost use Rattle.isa.specs.Instructions.{branch_target};
ghost use Rattle.checker.specs.Verdicts.{first_broken};
ghost use Rattle.guarded.specs.Rewrite.{new_length};
ghost use Rattle.guarded.specs.Rules.{is_unfit, outside, word_rules, bare_verdict_of};
ghost use Rattle.bare.specs.Inside.{is_wrong, length_by, registers_in, names_low, has_target};

use answers::{Fault, Place, Refusal, Verdict, refuse_at};
use checker::Ends;
use isa::{Fields, Kind, kind_of_word};

// How many words of guarded code come out of the n words at the front of memory, with these edges; or the number and the place of the
// first fault: 6, 7, 8, 18, 9 and 10 as the checkers answer them, then 20, 21 and 22.
#[tactic(auto, using(crate::proofs::Claimed::claim_broken, crate::proofs::Claimed::words_broken))]
pub fn check_bare(memory: &[u64], n: usize, edges: &[u16]) -> Result<usize, Fault>
    ensures { result ≡ result_and (bare_verdict_of Technique.Plain memory.now n edges.now) (Ok (new_length Technique.Plain memory.now n edges.now)) }
{
    let ends = checker::check_claim(memory, n, edges)?;
    check_words(&memory[..n])?;
    check_length(n, ends)
}

// Number 22: "Its length is the old one plus five per jump, one per destination and one."
fn check_length(n: usize, ends: Ends) -> Result<usize, Fault>
    requires { (n ≤ 2048) × (ends.jumps ≤ 2048) × (ends.destinations ≤ 2048) }
    ensures { result ≡ length_by (n + 5 * ends.jumps + ends.destinations + 1) }
{
    let total = n + 5 * ends.jumps + ends.destinations + 1;
    if 2048 < total {
        return Err(Fault::nowhere(Refusal::ResultTooLong));
    }
    Ok(total)
}

// Numbers 20 and 21: which word breaks them is asked only where one does.
#[tactic(auto, using(crate::proofs::ByKind::none_wrong))]
fn check_words(code: &[u64]) -> Verdict
    ensures { result ≡ first_broken (word_rules code.now (length code.now) []) }
{
    if some_wrong(code) {
        return find_wrong(code);
    }
    Ok(())
}

// Whether a word breaks 20 or 21. No word ends the fold before the last, and none is decoded: so several words are looked at at once.
fn some_wrong(code: &[u64]) -> bool
    ensures { result ≡ fold (λ found word. is_wrong (length code.now) (decode_of word) || found) false code.now }
{
    code.iter()
        .fold(false, |found, word| is_wrong(*word, code.len()) | found)
}

fn is_wrong(word: u64, n: usize) -> bool
    ensures { result ≡ is_wrong n (decode_of word) }
{
    let kind = kind_of_word(word);
    is_unfit(kind, word) | leads_out(kind, word, n)
}

// A label, or a word that names r0, r1 or r2. Here and below the kind is asked once for both.
#[tactic(auto, using(crate::proofs::ByKind::low_by_kind))]
fn is_unfit(kind: Kind, word: u64) -> bool
    requires { kind ≡ (fields_of (decode_of word)).kind }
    ensures { result ≡ is_unfit (decode_of word) }
{
    (kind == Kind::Label) | names_low(word, registers_in(kind))
}

// A branch to n or above.
#[tactic(auto, using(crate::proofs::ByKind::out_by_kind))]
fn leads_out(kind: Kind, word: u64, n: usize) -> bool
    requires { kind ≡ (fields_of (decode_of word)).kind }
    ensures { result ≡ outside n (branch_target (decode_of word)) }
{
    has_target(kind) & (n <= Fields::of_word(word).w as usize)
}

fn has_target(kind: Kind) -> bool
    ensures { result ≡ has_target kind }
{
    matches!(kind, Kind::Bgt | Kind::Jd | Kind::Call)
}

fn names_low(word: u64, count: u8) -> bool
    ensures { result ≡ names_low count word }
{
    let Fields { a, b, c, .. } = Fields::of_word(word);
    ((0 < count) & (a < 3)) | (((1 < count) & (b < 3)) | ((2 < count) & (c < 3)))
}

fn registers_in(kind: Kind) -> u8
    ensures { result ≡ registers_in kind }
{
    match kind {
        Kind::Add => 3,
        Kind::Addi | Kind::Bgt | Kind::Ld | Kind::St => 2,
        Kind::Movi | Kind::Jmp => 1,
        Kind::Label | Kind::Jd | Kind::Call | Kind::Ret | Kind::Unknown => 0,
    }
}

// The first that breaks 20, and if there is none, the first that breaks 21.
#[tactic(auto, using(checker::proofs::Rules::broken_next, checker::proofs::Rules::no_rule, crate::proofs::Chains::position_first))]
fn find_wrong(code: &[u64]) -> Verdict
    ensures { result ≡ first_broken (word_rules code.now (length code.now) []) }
{
    refuse_at(
        Refusal::LabelOrReserved,
        first_unfit(code).map(Place::Address),
    )?;
    refuse_at(
        Refusal::BranchOut,
        first_branch_out(code).map(Place::Address),
    )
}

// Number 20: the lowest address of a label or of a word that names r0, r1 or r2.
fn first_unfit(code: &[u64]) -> Option<usize>
    ensures { result ≡ position (λ word. is_unfit (decode_of word)) code.now }
{
    code.iter()
        .position(|word| is_unfit(kind_of_word(*word), *word))
}

// Number 21: the lowest address of a branch to n or above.
fn first_branch_out(code: &[u64]) -> Option<usize>
    ensures { result ≡ position (λ word. outside (length code.now) (branch_target (decode_of word))) code.now }
{
    code.iter()
        .position(|word| leads_out(kind_of_word(*word), *word, code.len()))
}
