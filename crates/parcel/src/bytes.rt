// Numbers of two, four or eight bytes, low byte first.
// A slice and a place in it go together. Writing: a part of a `&mut` slice that is lent on would make a contract speak of two places, and
// as parameters each clause speaks of the whole. Reading: a slice from at for each number would test its bounds twice, and be no plainer.
ghost use Rattle.std.specs.Prelude.{◌≡◌, ◌+◌, ◌*◌, ◌≤◌, ℕ, length, take, drop};
ghost use Rattle.std.proofs.Common.{lit≤};
ghost use Rattle.std.proofs.lemmas.List.Edits.{sets};
ghost use Rattle.parcel.specs.Bytes.{number_of, bytes_of, numbers_of, all_bytes_of};
ghost use Rattle.lists.specs.Places.{put_over};

use rising::Number;

// A number of so many bytes, which a parcel has.
pub trait InBytes: Stored {}

// Its bytes, read and written where there is room for them: within this crate alone, since the two ask for the room.
pub(crate) trait Stored: Number {
    const WIDTH: usize;

    ghost WIDTH: { ℕ };

    fn read(s: &[u8], at: usize) -> Self
        requires { at + WIDTH ≤ length s.now }
        ensures { Self.number result ≡ number_of WIDTH (drop at s.now) };

    fn write(self, s: &mut [u8], at: usize)
        requires { at + WIDTH ≤ length s.old }
        ensures { s.new ≡ sets s.old at (bytes_of WIDTH (Self.number self)) };

    ghost small: { WIDTH ≤ 8 };
}

impl InBytes for u16 {}

impl Stored for u16 {
    const WIDTH: usize = 2;

    ghost WIDTH = { 2 };

    #[tactic(auto, using(crate::proofs::Numbers::number_read))]
    fn read(s: &[u8], at: usize) -> u16 {
        u16::from_le_bytes(bytes_at(s, at))
    }

    #[tactic(auto, using(crate::proofs::Numbers::number_put))]
    fn write(self, s: &mut [u8], at: usize) {
        s[at..at + 2].copy_from_slice(&self.to_le_bytes());
    }

    ghost small = { lit≤ tt };
}

impl InBytes for u32 {}

impl Stored for u32 {
    const WIDTH: usize = 4;

    ghost WIDTH = { 4 };

    #[tactic(auto, using(crate::proofs::Numbers::number_read))]
    fn read(s: &[u8], at: usize) -> u32 {
        u32::from_le_bytes(bytes_at(s, at))
    }

    #[tactic(auto, using(crate::proofs::Numbers::number_put))]
    fn write(self, s: &mut [u8], at: usize) {
        s[at..at + 4].copy_from_slice(&self.to_le_bytes());
    }

    ghost small = { lit≤ tt };
}

impl InBytes for u64 {}

impl Stored for u64 {
    const WIDTH: usize = 8;

    ghost WIDTH = { 8 };

    #[tactic(auto, using(crate::proofs::Numbers::number_read))]
    fn read(s: &[u8], at: usize) -> u64 {
        u64::from_le_bytes(bytes_at(s, at))
    }

    #[tactic(auto, using(crate::proofs::Numbers::number_put))]
    fn write(self, s: &mut [u8], at: usize) {
        s[at..at + 8].copy_from_slice(&self.to_le_bytes());
    }

    ghost small = { lit≤ tt };
}

// The N bytes from at.
fn bytes_at<const N: usize>(s: &[u8], at: usize) -> [u8; N]
    requires { at + N ≤ length s.now }
    ensures { result ≡ take N (drop at s.now) }
{
    s[at..at + N].try_into().unwrap()
}

// The k numbers from at, into the front of to.
pub(crate) fn numbers_into<N: InBytes>(s: &[u8], at: usize, k: usize, to: &mut [N])
    requires { (at + k * N.WIDTH ≤ length s.now) × (k ≤ length to.old) }
    ensures { N.numbers to.new ≡ put_over (numbers_of N.WIDTH k (drop at s.now)) (N.numbers to.old) }
{
    for i in 0..k {
        to[i] = N::read(s, at + i * N::WIDTH);
    }
}

// The numbers xs, from at on.
pub(crate) fn put_numbers<N: InBytes>(s: &mut [u8], at: usize, xs: &[N])
    requires { at + length xs.now * N.WIDTH ≤ length s.old }
    ensures { s.new ≡ sets s.old at (all_bytes_of N.WIDTH (N.numbers xs.now)) }
{
    for i in 0..xs.len() {
        xs[i].write(s, at + i * N::WIDTH);
    }
}
