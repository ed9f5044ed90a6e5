// One fault put into a program, of a kind drawn at random. Some kinds do no harm.
use crate::edges::Edge;
use crate::program::Program;
use crate::random::Random;
use crate::words::{Fields, Kind, low, word};

impl Program {
    pub(crate) fn damage(&mut self, random: &mut Random) {
        let k = random.below(self.edges());
        match random.below(7) {
            0 => self.damage_edges(k, random),
            1 => self.move_edge(k, random),
            2 => {
                if let Some(edge) = self.edge(k) {
                    self.damage_word(edge.to, random);
                }
            }
            3 => self.damage_guard(random),
            _ => {
                if random.once_in(8) {
                    self.resize(random);
                } else {
                    self.aim_branch(random);
                }
            }
        }
    }

    // A word becomes another, here, at a target or at the end of code; or it and the next change places.
    fn damage_word(&mut self, target: usize, random: &mut Random) {
        let place = random.below(self.size.n);
        match random.below(9) {
            0 => self.change_field(place, random),
            1 => self.put_word(place, place as u64),
            2 => self.put_word(place, word(Kind::Jmp, 0, 0, 0, 0)),
            3 => self.put_word(place, word(Kind::St, 0, 5, 0, 0)),
            4 => self.put_word(place, word(Kind::Ret, 0, 0, 0, 0)),
            5 => {
                let routine = random.below(self.size.n);
                self.put_word(place, word(Kind::Call, 0, 0, 0, low(routine)));
            }
            6 => {
                let label = random.below(self.size.n);
                self.put_word(target, label as u64);
            }
            7 => {
                let after = place.wrapping_add(1);
                let old = self.word(place);
                let next = self.word(after);
                self.put_word(after, old);
                self.put_word(place, next);
            }
            _ => self.put_word(self.size.n.wrapping_sub(1), word(Kind::Addi, 4, 4, 0, 1)),
        }
    }

    // A word of the sequence that ends with some jmp or st is changed; where there is none, at times the first word of code.
    fn damage_guard(&mut self, random: &mut Random) {
        let kind = if random.once_in(2) {
            Kind::Jmp
        } else {
            Kind::St
        };
        let end = self.some_word(kind, random).unwrap_or(0);
        if let Some(address) = end.checked_sub(random.below(10)) {
            self.change_field(address, random);
        }
    }

    // One field of the word becomes another number.
    fn change_field(&mut self, address: usize, random: &mut Random) {
        let f = Fields::from(self.word(address));
        let changed = another(f, self.size.n, random);
        self.put_word(address, u64::from(changed));
    }

    // The first address from a random one on, and round the end, that holds a word of this kind.
    fn some_word(&self, kind: Kind, random: &mut Random) -> Option<usize> {
        let n = self.size.n;
        let start = random.below(n);
        (start..n)
            .chain(0..start)
            .find(|address| self.kind(*address) == Some(kind))
    }

    // A branch, of a guard or not, goes elsewhere, at times outside code.
    fn aim_branch(&mut self, random: &mut Random) {
        let n = self.size.n;
        let kind = match random.below(4) {
            0 => Kind::Bgt,
            1 => Kind::Call,
            _ => Kind::Jd,
        };
        let target = random.below(n.wrapping_add(n / 8).wrapping_add(2));
        if let Some(place) = self.some_word(kind, random) {
            let f = Fields::from(self.word(place));
            self.put_word(place, word(kind, f.a, f.b, 0, low(target)));
        }
    }

    // n, D or the count of edge numbers is off by a little, or past its limit.
    fn resize(&mut self, random: &mut Random) {
        let size = &mut self.size;
        match random.below(10) {
            0 => size.n = size.n.wrapping_add(1),
            1 => size.n = size.n.wrapping_sub(1),
            2 => size.len = size.len.wrapping_add(1),
            3 => size.len = size.len.wrapping_sub(1),
            4 => size.numbers = size.numbers.wrapping_add(1),
            5 => size.n = 0,
            6 => size.n = size.len.wrapping_add(1),
            7 => size.len = size.n.wrapping_add(2049),
            8 => size.len = size.n.wrapping_add(2048),
            _ => size.numbers = 4098,
        }
    }

    // The edge starts or ends elsewhere.
    fn move_edge(&mut self, k: usize, random: &mut Random) {
        let n = self.size.n;
        let address = random.below(n.wrapping_add(n / 8));
        let end = if random.once_in(3) { 0 } else { 1 };
        self.put_number(k.wrapping_mul(2).wrapping_add(end), address);
        self.sort_mostly(random);
    }

    // The edges in rising sequence again, three times in four.
    fn sort_mostly(&mut self, random: &mut Random) {
        if !random.once_in(4) {
            self.sort_edges();
        }
    }

    // The edge goes, or all of its jump's, or a new one comes, or two change places.
    fn damage_edges(&mut self, k: usize, random: &mut Random) {
        match random.below(5) {
            0 => {
                self.drop_edge(k);
                self.sort_mostly(random);
            }
            1 => {
                if let Some(edge) = self.edge(k) {
                    self.drop_jump(edge.from);
                }
            }
            2 => {
                let other = random.below(self.edges());
                self.swap_edges(k, other);
            }
            _ => {
                self.join_sets(random);
                self.sort_mostly(random);
            }
        }
    }

    fn drop_edge(&mut self, k: usize) {
        if let Some(last) = self.edges().checked_sub(1) {
            self.swap_edges(k, last);
            self.size.numbers = self.size.numbers.wrapping_sub(2);
        }
    }

    // All edges of one jump go.
    fn drop_jump(&mut self, jump: usize) {
        let mut kept = 0usize;
        for k in 0..self.edges() {
            if self.edge(k).is_some_and(|edge| edge.from != jump) {
                self.swap_edges(kept, k);
                kept = kept.wrapping_add(1);
            }
        }
        self.size.numbers = kept.wrapping_mul(2);
    }

    // One more edge, from a jump of the program to a target of the program, or one of its edges again.
    fn join_sets(&mut self, random: &mut Random) {
        if self.size.numbers == 0 {
            return;
        }
        let one = self.edge(random.below(self.edges()));
        let two = self.edge(random.below(self.edges()));
        if let (Some(one), Some(two)) = (one, two) {
            self.push_edge(Edge {
                from: one.from,
                to: two.to,
            });
        }
    }
}

// The fields with one of them another number, or two exchanged.
fn another(f: Fields, n: usize, random: &mut Random) -> Fields {
    let x = random.below(34) as u8;
    match random.below(10) {
        0 => Fields {
            op: random.below(12) as u8,
            ..f
        },
        1 => Fields { a: x, ..f },
        2 => Fields { b: x, ..f },
        3 => Fields { c: x % 2, ..f },
        4 => Fields {
            w: low(random.below(n.wrapping_add(2))),
            ..f
        },
        5 => Fields {
            w: f.w.wrapping_add(1),
            ..f
        },
        6 => Fields {
            w: f.w.wrapping_sub(1),
            ..f
        },
        7 => Fields {
            a: f.a.wrapping_add(32),
            ..f
        },
        8 => Fields {
            b: f.b.wrapping_add(32),
            ..f
        },
        _ => Fields {
            a: f.b,
            b: f.a,
            ..f
        },
    }
}
