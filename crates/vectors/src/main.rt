// P's appendix C: each frame is written from its fields, held to P's bytes, and read back. The table
// of the frames is standard input, and what is written has a line for each, in P's order.
#![tactic(auto)]

mod case;
mod fields;
mod item;
mod side;
mod table;
mod text;

use crate::case::Score;
use std::io::Read;

// The most bytes of a table.
const TABLE: usize = 65536;

// Takes the lines of a table one after the other.
fn score(rt: &impl Print, lines: &[u8]) -> Score {
    let mut score = Score::default();
    for line in lines.split(|b| *b == b'\n') {
        score = case::line(rt, score, line);
    }
    score
}

// Reads until the memory is full, the input ends or a read fails, and answers how many bytes there are.
fn read_full(input: &mut impl Read, memory: &mut [u8]) -> usize {
    let mut done = 0;
    while done < memory.len() {
        match input.read(&mut memory[done..]) {
            Ok(0) | Err(_) => return done,
            Ok(n) => done += n,
        }
    }
    done
}

fn main(rt: HostRuntime) {
    let mut memory = [0u8; TABLE];
    let n = read_full(&mut rt.stdin(), &mut memory);
    score(&rt, buffer::part(&memory, 0, n)).print(&rt);
}
