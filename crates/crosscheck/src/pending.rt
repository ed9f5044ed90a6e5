// The calls that were made and not yet returned from, told by the steps made and never by a state.

// The addresses of the words after them, the first `count` of `after`, the latest last: there is no heap, and a slice does not grow.
#[derive(Clone, Copy)]
pub(crate) struct Pending {
    after: [usize; 128],
    count: usize,
}

impl Pending {
    pub(crate) fn none() -> Self {
        Self {
            after: [0; 128],
            count: 0,
        }
    }

    pub(crate) fn is_empty(&self) -> bool {
        self.count == 0
    }

    // There is more than one.
    pub(crate) fn is_nested(&self) -> bool {
        self.count > 1
    }

    pub(crate) fn is_full(&self) -> bool {
        self.count == 128
    }

    // A call is made, and the address after it put down, if there is room; whether there is.
    pub(crate) fn push(&mut self, after: usize) -> bool {
        if self.count < 128 {
            self.after[self.count] = after;
            self.count = self.count.wrapping_add(1);
            return true;
        }
        false
    }

    // A ret is made: it must go to the latest, which is taken away.
    pub(crate) fn pop(&mut self) -> Option<usize> {
        let before = self.count.checked_sub(1)?;
        self.count = before;
        self.after.get(before).copied()
    }
}
