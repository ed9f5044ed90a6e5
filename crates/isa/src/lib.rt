// Instruction words: decoder and encoder (document 01, "Words and memory").
#![tactic(auto)]

ghost use Rattle.std.specs.Prelude.{◌≡◌, cond, ◌&&◌, ◌%◌, ◌^◌};
ghost use Rattle.isa.specs.Instructions.{is_branch, is_illegal, is_kind, label_number, branch_target};
ghost use Rattle.isa.specs.Words.{kind_of, opcode_of, named_by, register_ok, immediate_ok, known, exact, fields, split, pack, instr_of, fields_of, decode_of, word_of, encode_of};
ghost use Rattle.isa.specs.Inside.{clear_of};

#[derive(Clone, Copy, Debug, PartialEq, Eq)]
pub enum Instr {
    Label(u32),
    Add(u8, u8, u8),
    Addi(u8, u8, u32),
    Movi(u8, u32),
    Bgt(u8, u8, u32),
    Jd(u32),
    Jmp(u8),
    Ld(u8, u8, u32),
    St(u8, u8, u32),
    Call(u32),
    Ret,
    Illegal,
}

// Unknown is a kind and not an Option's None: reports count its words as they do the others, and `fields_of` gives it to an illegal word.
#[derive(Clone, Copy, Debug, PartialEq, Eq)]
pub enum Kind {
    Label,
    Add,
    Addi,
    Movi,
    Bgt,
    Jd,
    Jmp,
    Ld,
    St,
    Call,
    Ret,
    Unknown,
}

// How a program is held to its graph, and with it which figure its steps follow: plain, or with memory guards and relaxed steps.
#[derive(Clone, Copy, Debug, PartialEq, Eq)]
pub enum Technique {
    Plain,
    MemoryGuards,
}

// A word's fields, its opcode read as a kind.
#[derive(Clone, Copy, Debug, PartialEq, Eq)]
pub struct Fields {
    pub kind: Kind,
    pub a: u8,
    pub b: u8,
    pub c: u8,
    pub w: u32,
}

// Which of the fields a, b, c and w an instruction names.
#[derive(Clone, Copy)]
struct Named {
    a: bool,
    b: bool,
    c: bool,
    w: bool,
}

// Each arm tests the form of its own kind: with a constant kind the compiler leaves only the tests that this kind needs.
#[tactic(auto, using(crate::proofs::Words::decode_arm))]
#[inline(always)]
pub fn decode(word: u64) -> Instr
    ensures { result ≡ decode_of word }
{
    let f = Fields::of_word(word);
    match f.kind {
        Kind::Label => instr_if(f.fits(Kind::Label), Instr::Label(f.w)),
        Kind::Add => instr_if(f.fits(Kind::Add), Instr::Add(f.a, f.b, f.c)),
        Kind::Addi => instr_if(f.fits(Kind::Addi), Instr::Addi(f.a, f.b, f.w)),
        Kind::Movi => instr_if(f.fits(Kind::Movi), Instr::Movi(f.a, f.w)),
        Kind::Bgt => instr_if(f.fits(Kind::Bgt), Instr::Bgt(f.a, f.b, f.w)),
        Kind::Jd => instr_if(f.fits(Kind::Jd), Instr::Jd(f.w)),
        Kind::Jmp => instr_if(f.fits(Kind::Jmp), Instr::Jmp(f.a)),
        Kind::Ld => instr_if(f.fits(Kind::Ld), Instr::Ld(f.a, f.b, f.w)),
        Kind::St => instr_if(f.fits(Kind::St), Instr::St(f.a, f.b, f.w)),
        Kind::Call => instr_if(f.fits(Kind::Call), Instr::Call(f.w)),
        Kind::Ret => instr_if(f.fits(Kind::Ret), Instr::Ret),
        Kind::Unknown => Instr::Illegal,
    }
}

// Here too each arm has a constant kind. Inlined, a guard's word is a constant (docs/PERFORMANCE.md).
#[tactic(auto, unfolding(crate::specs::Words::encode_of, crate::specs::Words::word_of))]
#[inline(always)]
pub fn encode(i: Instr) -> u64
    ensures { result ≡ encode_of i }
{
    match i {
        Instr::Label(w) => Fields::of(Kind::Label, 0, 0, 0, w).word(),
        Instr::Add(rd, rs, rt) => Fields::of(Kind::Add, rd, rs, rt, 0).word(),
        Instr::Addi(rd, rs, w) => Fields::of(Kind::Addi, rd, rs, 0, w).word(),
        Instr::Movi(rd, w) => Fields::of(Kind::Movi, rd, 0, 0, w).word(),
        Instr::Bgt(rs, rt, w) => Fields::of(Kind::Bgt, rs, rt, 0, w).word(),
        Instr::Jd(w) => Fields::of(Kind::Jd, 0, 0, 0, w).word(),
        Instr::Jmp(rs) => Fields::of(Kind::Jmp, rs, 0, 0, 0).word(),
        Instr::Ld(rd, rs, w) => Fields::of(Kind::Ld, rd, rs, 0, w).word(),
        Instr::St(rd, rs, w) => Fields::of(Kind::St, rd, rs, 0, w).word(),
        Instr::Call(w) => Fields::of(Kind::Call, 0, 0, 0, w).word(),
        Instr::Ret => Fields::of(Kind::Ret, 0, 0, 0, 0).word(),
        Instr::Illegal => u64::MAX,
    }
}

// The word of the instruction that an opcode and fields say; a byte that is no opcode says Illegal, and fields that the
// instruction does not name are passed over. By way of an instruction it takes twice as long (docs/PERFORMANCE.md).
#[tactic(auto, unfolding(crate::specs::Words::encode_of, crate::specs::Words::word_of))]
pub fn encode_fields(opcode: u8, a: u8, b: u8, c: u8, w: u32) -> u64
    ensures { result ≡ encode_of (instr_of (fields (kind_of opcode) a b c w)) }
{
    match Kind::from(opcode) {
        Kind::Label => Fields::of(Kind::Label, 0, 0, 0, w).word(),
        Kind::Add => Fields::of(Kind::Add, a, b, c, 0).word(),
        Kind::Addi => Fields::of(Kind::Addi, a, b, 0, w).word(),
        Kind::Movi => Fields::of(Kind::Movi, a, 0, 0, w).word(),
        Kind::Bgt => Fields::of(Kind::Bgt, a, b, 0, w).word(),
        Kind::Jd => Fields::of(Kind::Jd, 0, 0, 0, w).word(),
        Kind::Jmp => Fields::of(Kind::Jmp, a, 0, 0, 0).word(),
        Kind::Ld => Fields::of(Kind::Ld, a, b, 0, w).word(),
        Kind::St => Fields::of(Kind::St, a, b, 0, w).word(),
        Kind::Call => Fields::of(Kind::Call, 0, 0, 0, w).word(),
        Kind::Ret => Fields::of(Kind::Ret, 0, 0, 0, 0).word(),
        Kind::Unknown => u64::MAX,
    }
}

// Whether a word is no exact form, without decoding the rest of it.
pub fn is_illegal(word: u64) -> bool
    ensures { result ≡ is_illegal (decode_of word) }
{
    matches!(kind_of_word(word), Kind::Unknown)
}

// Whether a word is an instruction of this kind, without decoding the rest of it.
#[tactic(auto, using(crate::proofs::ByKind::is_known_kind))]
pub fn is_a(kind: Kind, word: u64) -> bool
    ensures { result ≡ (known kind && is_kind kind (decode_of word)) }
{
    let opcode = u8::from(kind);
    u64::from(opcode) == word / 0x100_0000_0000_0000 && Fields::of_word(word).fits(kind)
}

// Whether a word has a branch target, its w.
pub fn is_branch(word: u64) -> bool
    ensures { result ≡ is_branch (decode_of word) }
{
    is_a(Kind::Bgt, word) || is_a(Kind::Jd, word) || is_a(Kind::Call, word)
}

// The target of a bgt, a jd or a call, without decoding the rest of it.
#[tactic(auto, using(crate::proofs::ByKind::branch_low))]
pub fn branch_target(word: u64) -> Option<usize>
    ensures { result ≡ branch_target (decode_of word) }
{
    if is_branch(word) {
        return Some(Fields::of_word(word).w as usize);
    }
    None
}

// The number of a label.
#[tactic(auto, using(crate::proofs::ByKind::label_low))]
pub fn label_number(word: u64) -> Option<usize>
    ensures { result ≡ label_number (decode_of word) }
{
    if is_a(Kind::Label, word) {
        return Some(Fields::of_word(word).w as usize);
    }
    None
}

// The kind of a word, without decoding the rest of it: Unknown where the word is illegal.
#[tactic(auto, using(crate::proofs::Masks::clear_kind, crate::proofs::Masks::other_kind))]
pub fn kind_of_word(word: u64) -> Kind
    ensures { result ≡ (fields_of (decode_of word)).kind }
{
    let kind = Kind::from((word / 0x100_0000_0000_0000) as u8);
    if word & clear_of(kind) == 0 {
        return kind;
    }
    Kind::Unknown
}

// The fields of the instruction that a word is: of the kind Unknown and 0 where it is illegal.
#[tactic(auto, using(crate::proofs::ByKind::legal_fields, crate::proofs::ByKind::illegal_fields))]
pub fn fields_of_word(word: u64) -> Fields
    ensures { result ≡ fields_of (decode_of word) }
{
    let f = Fields::of_word(word);
    if f.fits(f.kind) {
        return f;
    }
    Fields::of(Kind::Unknown, 0, 0, 0, 0)
}

// The table's column "opcode"; Unknown stands for every other byte.
impl From<u8> for Kind {
    ghost from_gives = { λ opcode kind. kind ≡ kind_of opcode };

    fn from(opcode: u8) -> Kind {
        match opcode {
            0 => Kind::Label,
            1 => Kind::Add,
            2 => Kind::Addi,
            3 => Kind::Movi,
            4 => Kind::Bgt,
            5 => Kind::Jd,
            6 => Kind::Jmp,
            7 => Kind::Ld,
            8 => Kind::St,
            9 => Kind::Call,
            10 => Kind::Ret,
            _ => Kind::Unknown,
        }
    }
}

impl From<Kind> for u8 {
    ghost from_gives = { λ kind opcode. opcode ≡ opcode_of kind };

    fn from(kind: Kind) -> u8 {
        match kind {
            Kind::Label => 0,
            Kind::Add => 1,
            Kind::Addi => 2,
            Kind::Movi => 3,
            Kind::Bgt => 4,
            Kind::Jd => 5,
            Kind::Jmp => 6,
            Kind::Ld => 7,
            Kind::St => 8,
            Kind::Call => 9,
            Kind::Ret => 10,
            Kind::Unknown => 255,
        }
    }
}

impl Fields {
    fn of(kind: Kind, a: u8, b: u8, c: u8, w: u32) -> Self
        ensures { result ≡ fields kind a b c w }
    {
        Self { kind, a, b, c, w }
    }

    // "Instruction word, highest byte first: opcode, field a, field b, field c, then 32 bits w, unsigned."
    pub fn of_word(word: u64) -> Self
        ensures { result ≡ split word }
    {
        Self {
            kind: Kind::from((word / 0x100_0000_0000_0000) as u8),
            a: (word / 0x1_0000_0000_0000 % 256) as u8,
            b: (word / 0x100_0000_0000 % 256) as u8,
            c: (word / 0x1_0000_0000 % 256) as u8,
            w: (word % 0x1_0000_0000) as u32,
        }
    }

    // Whether they are the exact form of a kind.
    fn fits(self, kind: Kind) -> bool
        ensures { result ≡ exact (fields kind self.a self.b self.c self.w) }
    {
        let named = named_by(kind);
        is_known(kind)
            & register_ok(named.a, self.a)
            & register_ok(named.b, self.b)
            & register_ok(named.c, self.c)
            & immediate_ok(named.w, self.w)
    }

    // Their word, or the word of Illegal where they are no exact form.
    #[tactic(auto, unfolding(crate::specs::Words::word_of))]
    fn word(self) -> u64
        ensures { result ≡ word_of self }
    {
        if self.fits(self.kind) {
            self.packed()
        } else {
            u64::MAX
        }
    }

    fn packed(self) -> u64
        ensures { result ≡ pack self }
    {
        let opcode = u8::from(self.kind);
        (((u64::from(opcode) * 256 + u64::from(self.a)) * 256 + u64::from(self.b)) * 256
            + u64::from(self.c))
            * 0x1_0000_0000
            + u64::from(self.w)
    }
}

// The bits that are 0 in a word of a kind: fields that it does not name, and the three high bits of registers.
fn clear_of(kind: Kind) -> u64
    ensures { result ≡ clear_of (named_by kind) }
{
    match kind {
        Kind::Label | Kind::Jd | Kind::Call => 0x00ff_ffff_0000_0000,
        Kind::Add => 0x00e0_e0e0_ffff_ffff,
        Kind::Addi | Kind::Bgt | Kind::Ld | Kind::St => 0x00e0_e0ff_0000_0000,
        Kind::Movi => 0x00e0_ffff_0000_0000,
        Kind::Jmp => 0x00e0_ffff_ffff_ffff,
        Kind::Ret | Kind::Unknown => 0x00ff_ffff_ffff_ffff,
    }
}

fn is_known(kind: Kind) -> bool
    ensures { result ≡ known kind }
{
    !matches!(kind, Kind::Unknown)
}

fn names(a: bool, b: bool, c: bool, w: bool) -> Named
    ensures { result ≡ record { a = a; b = b; c = c; w = w } }
{
    Named { a, b, c, w }
}

// The table's column "fields".
fn named_by(kind: Kind) -> Named
    ensures { result ≡ named_by kind }
{
    match kind {
        Kind::Label | Kind::Jd | Kind::Call => names(false, false, false, true),
        Kind::Add => names(true, true, true, false),
        Kind::Addi | Kind::Bgt | Kind::Ld | Kind::St => names(true, true, false, true),
        Kind::Movi => names(true, false, false, true),
        Kind::Jmp => names(true, false, false, false),
        Kind::Ret | Kind::Unknown => names(false, false, false, false),
    }
}

// A named register field is below 32; a field that is not named is 0.
fn register_ok(named: bool, x: u8) -> bool
    ensures { result ≡ register_ok named x }
{
    if named { x < 32 } else { x == 0 }
}

fn immediate_ok(named: bool, w: u32) -> bool
    ensures { result ≡ immediate_ok named w }
{
    named || w == 0
}

fn instr_if(ok: bool, i: Instr) -> Instr
    ensures { result ≡ cond ok i Instr.Illegal }
{
    if ok { i } else { Instr::Illegal }
}
