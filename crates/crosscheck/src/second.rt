// The checker a second time, naive and direct: document 01, "Claimed graph", "Conditions" and "Numbers given", with K2, K3 and K8
// of document 02, each condition by its own words, sets by nested loops over the edges and guards by comparing words.
use crate::edges::pairs;
use crate::sequences::{Guard, RANGE_TEST, Technique, after_first, before_jump_guard};
use crate::words;
use crate::words::{Fields, Kind};

// What may be wrong, with the numbers given.
#[derive(Clone, Copy)]
pub(crate) enum Fault {
    Shape = 6,
    FromNoJump = 7,
    OutsideCode = 8,
    NoEdge = 9,
    Overlap = 10,
    LegalEnd = 11,
    Label = 12,
    Store = 13,
    Jump = 14,
    Branch = 15,
    NotRising = 18,
}

impl Fault {
    pub(crate) const ALL: [Self; 11] = [
        Self::Shape,
        Self::FromNoJump,
        Self::OutsideCode,
        Self::NoEdge,
        Self::Overlap,
        Self::LegalEnd,
        Self::Label,
        Self::Store,
        Self::Jump,
        Self::Branch,
        Self::NotRising,
    ];

    // Nothing where no place is faulty, or this fault with the first faulty one.
    fn at(self, faulty: Option<Place>) -> Result<(), Finding> {
        match faulty {
            Some(place) => Err(Finding { fault: self, place }),
            None => Ok(()),
        }
    }
}

// Where a fault is: at an edge, from 0, at an address, or nowhere.
#[derive(Clone, Copy)]
pub(crate) enum Place {
    Nowhere,
    Edge(usize),
    Address(usize),
}

// A fault, and the place that goes with it.
#[derive(Clone, Copy)]
pub(crate) struct Finding {
    pub(crate) fault: Fault,
    pub(crate) place: Place,
}

// What a checker is asked about: n words of code and then data, and edge numbers.
#[derive(Clone, Copy)]
pub(crate) struct Code<'a> {
    pub(crate) technique: Technique,
    pub(crate) memory: &'a [u64],
    pub(crate) n: usize,
    pub(crate) edges: &'a [u16],
}

impl Code<'_> {
    // "7 and 8 go with the place of the first faulty edge, from 0; 9 to 15 with the lowest faulty address." 18 goes "with the place
    // of the first edge that doesn't rise", and "checkers test it after 8".
    pub(crate) fn check(self) -> Result<(), Finding> {
        let misshaped = self.misshaped().then_some(Place::Nowhere);
        Fault::Shape.at(misshaped)?;
        Fault::FromNoJump.at(self.first_edge(|from, _| !self.is_jump(from)))?;
        Fault::OutsideCode.at(self.first_edge(|_, to| to >= self.n))?;
        Fault::NotRising.at(self.first_not_rising())?;
        Fault::NoEdge.at(self.first_jump(|a| !self.any_edge(|from, _| from == a)))?;
        Fault::Overlap.at(self.first_jump(|a| self.overlaps_some(a)))?;
        Fault::LegalEnd.at(self.first(|a| self.ends_wrong(a)))?;
        Fault::Label.at(self.first(|a| self.mislabelled(a)))?;
        Fault::Store.at(self.first(|a| self.stores_wrong(a)))?;
        Fault::Jump.at(self.first_jump(|a| !self.jump_guarded(a)))?;
        Fault::Branch.at(self.first(|a| self.branches_wrong(a)))
    }

    fn misshaped(self) -> bool {
        let len = self.memory.len();
        let numbers = self.edges.len();
        let code_wrong = self.n == 0 || self.n > 2048 || self.n > len;
        code_wrong || len.wrapping_sub(self.n) > 2048 || numbers % 2 == 1 || numbers > 4096
    }

    // The lowest address of code of which the test holds.
    fn first<F: Fn(usize) -> bool>(self, test: F) -> Option<Place>
        requires { F.IsAlwaysCallable test }
    {
        (0..self.n).find(|a| test(*a)).map(Place::Address)
    }

    // The same among the jumps.
    fn first_jump<F: Fn(usize) -> bool>(self, test: F) -> Option<Place>
        requires { F.IsAlwaysCallable test }
    {
        self.first(|a| self.is_jump(a) && test(a))
    }

    // The first edge of which the test holds, from an address to another.
    fn first_edge<F: Fn(usize, usize) -> bool>(self, test: F) -> Option<Place>
        requires { F.IsAlwaysCallable test }
    {
        pairs(self.edges)
            .iter()
            .position(|[from, to]| test(usize::from(*from), usize::from(*to)))
            .map(Place::Edge)
    }

    fn any_edge<F: Fn(usize, usize) -> bool>(self, test: F) -> bool
        requires { F.IsAlwaysCallable test }
    {
        self.first_edge(test).is_some()
    }

    // The first edge that is not above the one before it: by where they start, then by where they end.
    fn first_not_rising(self) -> Option<Place> {
        let edges = pairs(self.edges);
        edges
            .iter()
            .zip(edges.iter().skip(1))
            .position(|(before, edge)| edge <= before)
            .map(|k| Place::Edge(k.wrapping_add(1)))
    }

    fn word(self, address: usize) -> u64 {
        words::at(self.memory, address)
    }

    pub(crate) fn kind(self, address: usize) -> Option<Kind> {
        words::kind_at(self.memory, address)
    }

    fn is_jump(self, address: usize) -> bool {
        address < self.n && self.kind(address) == Some(Kind::Jmp)
    }

    fn ends_wrong(self, address: usize) -> bool {
        address.wrapping_add(1) == self.n && self.kind(address).is_some()
    }

    fn is_edge(self, jump: usize, target: usize) -> bool {
        self.any_edge(|from, to| from == jump && to == target)
    }

    // "The ID of a target set is its lowest address."
    fn lowest_target(self, jump: usize) -> usize {
        (0..self.n)
            .find(|target| self.is_edge(jump, *target))
            .unwrap_or(self.n)
    }

    // "A jump's target set meets another's and differs from it."
    fn overlaps_some(self, jump: usize) -> bool {
        self.any_edge(|other, _| self.overlaps(jump, other))
    }

    fn overlaps(self, jump: usize, other: usize) -> bool {
        self.any_edge(|from, to| from == jump && self.is_edge(other, to))
            && (self.has_another_target(jump, other) || self.has_another_target(other, jump))
    }

    // Some target of the jump is none of the other's.
    fn has_another_target(self, jump: usize, other: usize) -> bool {
        self.any_edge(|from, to| from == jump && !self.is_edge(other, to))
    }

    // "A destination holds label with its set's ID and no other address holds a label." The word of label w is the number w.
    fn mislabelled(self, address: usize) -> bool {
        let edge = pairs(self.edges)
            .iter()
            .find(|[_, to]| usize::from(*to) == address);
        match edge {
            Some([jump, _]) => {
                self.word(address) != self.lowest_target(usize::from(*jump)) as u64
            }
            None => self.kind(address) == Some(Kind::Label),
        }
    }

    // "addi r0, rs, w" with w at most this, and after it these words, stand so that the last of them is just before an address.
    fn guarded(self, end: usize, most: u32, guard: &[u64]) -> bool {
        let words = end
            .checked_sub(guard.len().wrapping_add(1))
            .and_then(|start| self.memory.get(start..));
        match words {
            Some([addi, rest @ ..]) => sets_r0(*addi, most) && rest.starts_with(guard),
            _ => false,
        }
    }

    // "each jmp is jmp r0 after" its guard: plain, the label test; with memory guards, the range test before it.
    fn jump_guarded(self, address: usize) -> bool {
        let guard = Guard::of_jump(self.n, self.lowest_target(address)).words();
        let from = before_jump_guard(self.technique);
        self.guarded(address.wrapping_add(1), 0, &guard[from..])
    }

    // "each st is st r0(0), rs after addi r0, rd, w; movi r1, n+D-1; movi r2, n; bgt r0, r1, HALT; bgt r2, r0, HALT"
    fn stores_wrong(self, address: usize) -> bool {
        match self.technique {
            Technique::Plain => false,
            Technique::MemoryGuards => {
                self.kind(address) == Some(Kind::St) && !self.store_guarded(address)
            }
        }
    }

    fn store_guarded(self, address: usize) -> bool {
        let st = Fields::from(self.word(address));
        let guard = Guard::of_store(self.n, self.memory.len()).words();
        self.memory.len() > self.n
            && st.a == 0
            && st.w == 0
            && self.guarded(address, u32::MAX, &guard[..RANGE_TEST])
    }

    fn branch_target(self, address: usize) -> usize {
        Fields::from(self.word(address)).w as usize
    }

    // The target of a branch is outside code, or a word of a sequence but the first.
    fn branches_wrong(self, address: usize) -> bool {
        match self.kind(address) {
            Some(Kind::Bgt | Kind::Jd | Kind::Call) => {
                self.target_wrong(self.branch_target(address))
            }
            _ => false,
        }
    }

    fn target_wrong(self, target: usize) -> bool {
        target >= self.n || self.inside_sequence(target)
    }

    fn inside_sequence(self, address: usize) -> bool {
        let code = self.memory.iter().take(self.n);
        code.skip(address).enumerate().any(|(before, word)| {
            words::kind_of(*word)
                .and_then(|kind| after_first(self.technique, kind))
                .is_some_and(|after| before < after)
        })
    }

    // The graph: next is a successor of pc by the word there, by a listed edge at a jmp, or by the calls of the code at a ret.
    pub(crate) fn succeeds(self, pc: usize, next: usize) -> bool {
        let follows = next == pc.wrapping_add(1);
        let branched = next == self.branch_target(pc);
        let listed = match self.kind(pc) {
            None => false,
            Some(Kind::Jmp) => self.is_edge(pc, next),
            Some(Kind::Jd | Kind::Call) => branched,
            Some(Kind::Ret) => self.is_return(next),
            Some(Kind::Bgt) => follows || branched,
            Some(_) => follows,
        };
        pc < self.n && next < self.n && listed
    }

    // "ret's are the words after all calls": a call stands in code just before the address.
    fn is_return(self, address: usize) -> bool {
        let before = address.checked_sub(1);
        before.is_some_and(|call| call < self.n && self.kind(call) == Some(Kind::Call))
    }
}

// "addi r0, rs, w" with w at most this
fn sets_r0(word: u64, most: u32) -> bool {
    let f = Fields::from(word);
    words::kind_of(word) == Some(Kind::Addi) && f.a == 0 && f.w <= most
}
