// The plan of a random guarded program: what stands at each address.
use crate::random::Random;
use crate::sequences::{Technique, after_jump_first, after_store_first};

// What a plan says of an address. A label, a jump and the word that aims its register go with a target set.
#[derive(Clone, Copy, PartialEq, Eq)]
pub(crate) enum Item {
    Straight,
    Branch,
    Call,
    // The ret of a routine.
    Return,
    Last,
    // A word of a guard but its first.
    Inside,
    // A store or a jump, or the first word of its guard; before a guard stands the word that aims a register.
    AimAtData,
    Store,
    AimAtLabel(usize),
    Jump(usize),
    Label(usize),
}

// How many words a routine has, with its ret.
const ROUTINE: usize = 4;

// The first n items are the plan, which grows one by one: there is no heap, and a slice does not grow.
#[derive(Drop)]
pub(crate) struct Plan {
    items: [Item; 512],
    pub(crate) n: usize,
}

impl Plan {
    // One jump and one label for each set, and so many other items, in mixed order; then the last word.
    pub(crate) fn random(technique: Technique, random: &mut Random) -> Self {
        let mut plan = Self {
            items: [Item::Straight; 512],
            n: 0,
        };
        let sets = random.below(5);
        let extra = random.below(24);
        let items = sets * 2 + extra;
        let start = random.below(items + 1);
        for k in 0..items {
            // Every one comes up once.
            let strides = if items % 7 == 0 { k } else { k * 7 };
            let item = random_item((strides + start) % items, sets, random);
            if item == Item::Return {
                plan.push_routine(random);
            } else {
                plan.push_guarded(technique, item);
            }
        }
        plan.push(Item::Last);
        plan
    }

    fn push(&mut self, item: Item) {
        if self.n < 512 {
            self.items[self.n] = item;
        }
        self.n = self.n.wrapping_add(1);
    }

    // An item, or where it has a guard, the word before it and the guard.
    fn push_guarded(&mut self, technique: Technique, item: Item) {
        let guard = match item {
            Item::Jump(set) => Some((Item::AimAtLabel(set), after_jump_first(technique))),
            Item::Store => after_store_first(technique).map(|after| (Item::AimAtData, after)),
            _ => None,
        };
        if let Some((aim, _)) = guard {
            self.push(aim);
        }
        self.push(item);
        if let Some((_, after)) = guard {
            for _ in 0..after {
                self.push(Item::Inside);
            }
        }
    }

    // A branch, which mostly leads elsewhere than into the routine; then its words, of which some are calls, and its ret.
    fn push_routine(&mut self, random: &mut Random) {
        self.push(Item::Branch);
        for _ in 1..ROUTINE {
            let item = if random.once_in(6) {
                Item::Call
            } else {
                Item::Straight
            };
            self.push(item);
        }
        self.push(Item::Return);
    }

    pub(crate) fn item(&self, address: usize) -> Item {
        self.items.get(address).copied().unwrap_or(Item::Straight)
    }

    // The nearest address at or below that is not inside a guard.
    pub(crate) fn safe_place(&self, from: usize) -> usize {
        (1..=from)
            .rev()
            .find(|at| self.item(*at) != Item::Inside)
            .unwrap_or(0)
    }

    // One of the words of the first routine from a random place on, and round the end.
    pub(crate) fn some_routine(&self, random: &mut Random) -> Option<usize> {
        let start = random.below(self.n);
        let end = (start..self.n)
            .chain(0..start)
            .find(|at| self.item(*at) == Item::Return)?;
        Some(end.wrapping_sub(random.below(ROUTINE)))
    }

    pub(crate) fn lowest_label(&self, set: usize) -> usize {
        (0..self.n)
            .find(|at| self.item(*at) == Item::Label(set))
            .unwrap_or(0)
    }

    // A label of the set, found by chance, or else the lowest. A `for`: the closure of a chain would have to draw on the side.
    pub(crate) fn some_label(&self, set: usize, random: &mut Random) -> usize {
        for _ in 0..40 {
            let at = random.below(self.n);
            if self.item(at) == Item::Label(set) {
                return at;
            }
        }
        self.lowest_label(set)
    }
}

// The first items are the sets' jumps and labels, in turn.
fn random_item(k: usize, sets: usize, random: &mut Random) -> Item {
    let set = k / 2;
    if set >= sets {
        other_item(sets, random)
    } else if k % 2 == 0 {
        Item::Jump(set)
    } else {
        Item::Label(set)
    }
}

// Where there is no set, there is neither a label nor a jump.
fn other_item(sets: usize, random: &mut Random) -> Item {
    let set = random.below(sets);
    match random.below(16) {
        0 | 1 if sets > 0 => Item::Label(set),
        2 if sets > 0 => Item::Jump(set),
        3 | 4 => Item::Store,
        5 | 6 => Item::Branch,
        7 | 8 => Item::Call,
        9 | 10 => Item::Return,
        _ => Item::Straight,
    }
}
