// The numbers that calls give (document 01, "Numbers given, in checking order"; of document 02, 18 is K3's, 19 is K6's, 20 to 22 are K7's
// and 23 is K9's), by name, what a refusal says, and the test behind number 6, which every call on memory and graph makes first.
#![tactic(auto)]

ghost use Rattle.std.specs.Prelude.{◌≡◌};
ghost use Rattle.answers.specs.Numbers.{refusal_number};
ghost use Rattle.answers.specs.Faults.{fault, refusal_at};
ghost use Rattle.answers.specs.Shape.{memory_shaped, edges_shaped, call_shaped};

#[derive(Clone, Copy, Debug, PartialEq, Eq)]
pub enum Refusal {
    CountMissing,
    CountLimit,
    ItemsMissing,
    TrailingBytes,
    PlaceTooShort,
    Shape,
    EdgeFromNoJump,
    TargetOutsideCode,
    JumpWithoutEdge,
    TargetSetsOverlap,
    LastWordLegal,
    LabelCondition,
    StoreUnguarded,
    JumpUnguarded,
    BranchTarget,
    NotData,
    NotRegister,
    EdgeNotRising,
    EdgeTooWide,
    LabelOrReserved,
    BranchOut,
    ResultTooLong,
    OutsideCode,
}

// Where a fault is: an edge, counted from 0, an address, or no place at all. `Nowhere` is a case and no Option: nobody asks whether there is a
// place, and C gets two numbers for each case alike.
#[derive(Clone, Copy, Debug, PartialEq, Eq)]
pub enum Place {
    Edge(usize),
    Address(usize),
    Nowhere,
}

// Why something is refused, and the place of the first fault.
#[derive(Clone, Copy, Debug, PartialEq, Eq)]
pub struct Fault {
    pub refusal: Refusal,
    pub place: Place,
}

impl Fault {
    // A fault that has no place.
    pub fn nowhere(refusal: Refusal) -> Self
        ensures { result ≡ fault refusal Place.Nowhere }
    {
        Self {
            refusal,
            place: Place::Nowhere,
        }
    }
}

// What a check answers: that all is well, or the first fault.
pub type Verdict = Result<(), Fault>;

// The number of a refusal.
impl From<Refusal> for u8 {
    ghost from_gives = { λ refusal number. number ≡ refusal_number refusal };

    fn from(refusal: Refusal) -> u8 {
        match refusal {
            Refusal::CountMissing => 1,
            Refusal::CountLimit => 2,
            Refusal::ItemsMissing => 3,
            Refusal::TrailingBytes => 4,
            Refusal::PlaceTooShort => 5,
            Refusal::Shape => 6,
            Refusal::EdgeFromNoJump => 7,
            Refusal::TargetOutsideCode => 8,
            Refusal::JumpWithoutEdge => 9,
            Refusal::TargetSetsOverlap => 10,
            Refusal::LastWordLegal => 11,
            Refusal::LabelCondition => 12,
            Refusal::StoreUnguarded => 13,
            Refusal::JumpUnguarded => 14,
            Refusal::BranchTarget => 15,
            Refusal::NotData => 16,
            Refusal::NotRegister => 17,
            Refusal::EdgeNotRising => 18,
            Refusal::EdgeTooWide => 19,
            Refusal::LabelOrReserved => 20,
            Refusal::BranchOut => 21,
            Refusal::ResultTooLong => 22,
            Refusal::OutsideCode => 23,
        }
    }
}

// Nothing where no place is faulty, or the refusal with the first faulty one.
pub fn refuse_at(refusal: Refusal, faulty: Option<Place>) -> Verdict
    ensures { result ≡ refusal_at refusal faulty }
{
    match faulty {
        Some(place) => Err(Fault { refusal, place }),
        None => Ok(()),
    }
}

// n words of code, 1 to 2,048, in a memory of len words, with at most 2,048 words after them.
pub fn memory_shaped(len: usize, n: usize) -> bool
    ensures { result ≡ memory_shaped len n }
{
    1 <= n && n <= 2048 && n <= len && len - n <= 2048
}

// What a call on memory and graph must be given: such a memory, and edge numbers.
pub fn call_shaped(len: usize, n: usize, count: usize) -> bool
    ensures { result ≡ call_shaped len n count }
{
    memory_shaped(len, n) & edges_shaped(count)
}

// Pairs of edge numbers, at most 2,048 of them.
fn edges_shaped(count: usize) -> bool
    ensures { result ≡ edges_shaped count }
{
    count % 2 == 0 && count <= 4096
}
