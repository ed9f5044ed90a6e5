// Reads a parcel from standard input, checks it plain, and prints one line (document 01, "The post program and its table").
// A parcel has at most 40,972 bytes, so what follows the first 65,536 bytes cannot change the line (`line`'s theorem
// `prefix_suffices`). An input that cannot be read counts as empty.
#![tactic(auto)]

ghost use Rattle.std.specs.Prelude.{◌≤◌, length};

use std::io;
use std::io::Read;

fn main(rt: HostRuntime) -> io::Result<()> {
    let mut input = [0u8; 65536];
    let got = read_full(&mut rt.stdin(), &mut input);
    let mut text = [0u8; 80];
    let size = line::verdict_line(&input[..got], &mut text);
    rt.write_all(&text[..size])
}

// Reads until the place is full, the input ends or a read fails, and answers how many bytes it put at the front. A `while`, since a read
// takes as many bytes as there are; of std, `read_exact` and `copy` don't say how many came, and `read_to_end` needs a heap.
fn read_full<R: Read>(input: &mut R, place: &mut [u8]) -> usize
    ensures { result ≤ length place.new }
{
    let mut done = 0;
    while done < place.len() {
        match input.read(&mut place[done..]) {
            Ok(0) | Err(_) => break,
            Ok(n) => done += n,
        }
    }
    done
}
