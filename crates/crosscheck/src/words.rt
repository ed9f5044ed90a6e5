// Instruction words a second time (document 01, "Words and memory", with K8 of document 02).

// The opcodes.
#[derive(Clone, Copy, PartialEq, Eq)]
pub(crate) enum Kind {
    Label = 0,
    Add = 1,
    Addi = 2,
    Movi = 3,
    Bgt = 4,
    Jd = 5,
    Jmp = 6,
    Ld = 7,
    St = 8,
    Call = 9,
    Ret = 10,
}

impl Kind {
    fn of_opcode(op: u8) -> Option<Self> {
        match op {
            0 => Some(Self::Label),
            1 => Some(Self::Add),
            2 => Some(Self::Addi),
            3 => Some(Self::Movi),
            4 => Some(Self::Bgt),
            5 => Some(Self::Jd),
            6 => Some(Self::Jmp),
            7 => Some(Self::Ld),
            8 => Some(Self::St),
            9 => Some(Self::Call),
            10 => Some(Self::Ret),
            _ => None,
        }
    }
}

// An illegal word, and one that no address holds.
pub(crate) const ONES: u64 = u64::MAX;

#[derive(Clone, Copy)]
pub(crate) struct Fields {
    pub(crate) op: u8,
    pub(crate) a: u8,
    pub(crate) b: u8,
    pub(crate) c: u8,
    pub(crate) w: u32,
}

impl From<u64> for Fields {
    fn from(word: u64) -> Self {
        let [op, a, b, c, w3, w2, w1, w0] = word.to_be_bytes();
        let w = u32::from_be_bytes([w3, w2, w1, w0]);
        Self { op, a, b, c, w }
    }
}

impl From<Fields> for u64 {
    fn from(f: Fields) -> u64 {
        let [w3, w2, w1, w0] = f.w.to_be_bytes();
        u64::from_be_bytes([f.op, f.a, f.b, f.c, w3, w2, w1, w0])
    }
}

impl Fields {
    fn within(self, a: u8, b: u8, c: u8, w: u32) -> bool {
        self.a <= a && self.b <= b && self.c <= c && self.w <= w
    }

    // The fields are those of an exact form of this kind.
    fn exact(self, kind: Kind) -> bool {
        match kind {
            Kind::Label | Kind::Jd | Kind::Call => self.within(0, 0, 0, u32::MAX),
            Kind::Add => self.within(31, 31, 31, 0),
            Kind::Addi | Kind::Bgt | Kind::Ld | Kind::St => self.within(31, 31, 0, u32::MAX),
            Kind::Movi => self.within(31, 0, 0, u32::MAX),
            Kind::Jmp => self.within(31, 0, 0, 0),
            Kind::Ret => self.within(0, 0, 0, 0),
        }
    }
}

// The word of these fields.
pub(crate) fn word(kind: Kind, a: u8, b: u8, c: u8, w: u32) -> u64 {
    let op = kind as u8;
    u64::from(Fields { op, a, b, c, w })
}

// The low half of an address or a number, as a word's field holds it.
pub(crate) fn low(x: usize) -> u32 {
    (x % 0x1_0000_0000) as u32
}

// The kind of a word that is an exact form.
pub(crate) fn kind_of(word: u64) -> Option<Kind> {
    let f = Fields::from(word);
    let kind = Kind::of_opcode(f.op)?;
    f.exact(kind).then_some(kind)
}

// The word at an address, and an illegal one past the end.
pub(crate) fn at(memory: &[u64], address: usize) -> u64 {
    memory.get(address).copied().unwrap_or(ONES)
}

pub(crate) fn kind_at(memory: &[u64], address: usize) -> Option<Kind> {
    kind_of(at(memory, address))
}
