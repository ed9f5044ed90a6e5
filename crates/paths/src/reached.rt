// The addresses reached from 0, in the sequence in which they were.
ghost use Rattle.std.specs.Prelude.{◌≡◌, ◌≤◌, ◌<◌, false, length, get_or, ltb};
ghost use Rattle.lists.specs.Places.{put_over};
ghost use Rattle.paths.specs.Inside.{at, start_of, note_of, Sizes, Back, Trail, LenOf, PathOver};

// `queue` has the addresses, and `before`, for each, the place in the queue of the one from which it was reached. `noted` tells which
// addresses are there.
#[derive(Drop)]
pub(crate) struct Reached {
    queue: [u16; 2048],
    before: [u16; 2048],
    noted: [bool; 2048],
    pub(crate) len: usize,
}

impl Reached {
    // 0 alone.
    pub(crate) fn start() -> Self
        ensures { result ≡ start_of }
    {
        let mut noted = [false; 2048];
        noted[0] = true;
        Self {
            queue: [0; 2048],
            before: [0; 2048],
            noted,
            len: 1,
        }
    }

    // The address at place i.
    pub(crate) fn at(&self, i: usize) -> usize
        requires { Sizes self.now × (i < 2048) }
        ensures { result ≡ at self.now i }
    {
        usize::from(self.queue[i])
    }

    // Puts an address at the end, as reached from the one at `head`, unless it is outside code or there already.
    pub(crate) fn note(&mut self, n: usize, head: usize, address: usize)
        requires { Sizes self.old × (n ≤ 2048) × (head < 2048) × (address < n → get_or self.old.noted address false ≡ false → self.old.len < 2048) }
        ensures { self.new ≡ note_of n head address self.old }
    {
        if n <= address || self.noted[address] {
            return;
        }
        self.queue[self.len] = address as u16;
        self.before[self.len] = head as u16;
        self.noted[address] = true;
        self.len += 1;
    }

    // How many addresses lead from 0 to the one at `end`.
    pub(crate) fn path_len(&self, end: usize) -> usize
        requires { Sizes self.now × Back self.now × (end < self.now.len) × (self.now.len ≤ 2048) }
        ensures { LenOf self.now end result }
    {
        let mut len = 1;
        let mut i = end;
        while i != 0 {
            i = usize::from(self.before[i]);
            len += 1;
        }
        len
    }

    // Puts these addresses at the front of a place, the last one first.
    pub(crate) fn put_path(&self, end: usize, len: usize, place: &mut [u16])
        requires { Sizes self.now × Back self.now × (end < self.now.len) × (self.now.len ≤ 2048) × LenOf self.now end len × (len ≤ length place.old) }
        ensures { PathOver self.now end place.old place.new }
    {
        let mut i = end;
        for k in (0..len).rev() {
            place[k] = self.queue[i];
            i = usize::from(self.before[i]);
        }
    }
}
