// Text in ASCII, in a fixed place: no `write!`, which may say that it failed, and the line cannot fail.
ghost use Rattle.std.specs.Prelude.{◌≡◌, ℕ, ◌+◌, ◌<◌, ◌≤◌, List, [], ◌∷◌, ◌++◌, length, take};
ghost use Rattle.line.specs.Text.{decimal_of, Puts};
ghost use Rattle.line.specs.Line.{place_text};

use answers::Place;
use std::marker::Model;

#[derive(Drop)]
pub(crate) struct Line {
    bytes: [u8; 80],
    len: usize,
}

// Clauses see the bytes of the text.
impl Model for Line {
    ghost Value = { List ℕ };

    ghost view = { λ l. take l.len l.bytes };

    ghost invariant = { λ l. l.len ≤ 80 };
}

impl Line {
    pub(crate) fn new() -> Self
        ensures { result ≡ [] }
    {
        Line {
            bytes: [0; 80],
            len: 0,
        }
    }

    pub(crate) fn text(&mut self, text: &[u8])
        requires { length self.old + length text.now ≤ 80 }
        ensures text { self.new ≡ self.old ++ text.now }
        ensures grown { length self.new ≡ length self.old + length text.now }
    {
        let end = self.len + text.len();
        self.bytes[self.len..end].copy_from_slice(text);
        self.len = end;
    }

    // Highest digit first: all but the last digit, then the last.
    #[tactic(auto, using(crate::proofs::Text::decimal_one, crate::proofs::Text::decimal_more, crate::proofs::Text::tenth_room))]
    pub(crate) fn decimal(&mut self, x: usize)
        requires { length self.old ≤ 60 }
        ensures text { self.new ≡ self.old ++ decimal_of x }
        ensures short { length self.new ≤ length self.old + 20 }
    {
        if x < 10 {
            self.text(&[b'0' + x as u8]);
            return;
        }
        self.decimal(x / 10);
        self.text(&[b'0' + (x % 10) as u8]);
    }

    // Where a fault is.
    pub(crate) fn place(&mut self, place: Place)
        requires { length self.old ≤ 50 }
        ensures text { self.new ≡ self.old ++ place_text place }
        ensures short { length self.new ≤ length self.old + 24 }
    {
        match place {
            Place::Edge(x) | Place::Address(x) => {
                self.text(b" at ");
                self.decimal(x);
            }
            Place::Nowhere => {}
        }
    }

    // Puts the text at the front of a lent place, and answers its length.
    #[tactic(auto, using(crate::proofs::Text::puts_front))]
    pub(crate) fn put(&self, place: &mut [u8; 80]) -> usize
        ensures puts { Puts self.now place.old 0 result place.new }
        ensures fits { result ≤ 80 }
    {
        place[..self.len].copy_from_slice(&self.bytes[..self.len]);
        self.len
    }
}
