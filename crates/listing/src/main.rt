// Lists a capture of the wire, from standard input: 01 "Sheet of known values", its last part.
// What is listed is the crate capture's: here the capture is read and the output written.
#![tactic(auto)]

ghost use Rattle.std.specs.Prelude.{◌≡◌, ◌+◌, ◌≤◌, ◌<◌, length};
ghost use Rattle.cobs.specs.Answers.{encoded_max};
ghost use Rattle.listing.specs.Turns.{output, filled_max, listed_max, Goes};

use capture::Stream;
use cobs::ENCODED_MAX;
use line::LINE_MAX;
use std::io::Read;

// The most bytes of one read.
const PIECE: usize = 4096;
// The output: room for the lines of one piece, whatever it holds, and for some more.
const OUTPUT: usize = 262144;
// Above this it has no room for another piece, and is written.
const FILLED_MAX: usize = OUTPUT - LINE_MAX * PIECE;
// So many bytes are listed at most. No capture has as many: a proved loop has to end.
const LISTED_MAX: u64 = 1 << 62;

// What one turn of the loop comes to.
#[derive(Clone, Copy)]
enum Turn {
    // There may be more to read.
    More(Stream),
    // The capture has ended and its listing is written, or one of the two failed.
    Done,
}

// An output, empty.
fn output() -> [u8; OUTPUT]
    ensures { output ≡ length result }
{
    [0; OUTPUT]
}

// Writes what is in the output, and answers whether it could.
fn flush(rt: &(impl Print + Eprint), out: &[u8], filled: usize) -> bool
    requires { filled ≤ length out.now }
{
    if rt.write_all(&out[..filled]).is_ok() {
        return true;
    }
    eprint!(rt; "listing: write failed\n").is_ok();
    false
}

// Reads a piece and lists it. The output is written when it is full, and at the end.
fn list_piece(
    rt: &(impl Print + Eprint),
    input: &mut impl Read,
    s: Stream,
    run: &mut [u8],
    out: &mut [u8],
) -> Turn
    requires len_bound { s.at + s.len < listed_max }
    requires filled_le_filled_max { s.filled ≤ filled_max }
    requires encoded_max_in_bounds { encoded_max ≤ length run.old }
    requires output_value { output ≡ length out.old }
    ensures { Goes s result }
{
    let mut piece = [0u8; PIECE];
    let n = match input.read(&mut piece) {
        Ok(n) => n,
        Err(_) => {
            eprint!(rt; "listing: read failed\n").is_ok();
            0
        }
    };
    if n == 0 {
        flush(rt, out, s.filled);
        return Turn::Done;
    }
    let t = capture::feed(s, &piece[..n], run, out);
    let filled = t.filled;
    if filled <= FILLED_MAX {
        return Turn::More(t);
    }
    if flush(rt, out, filled) {
        return Turn::More(Stream {
            at: t.at,
            len: t.len,
            filled: 0,
        });
    }
    Turn::Done
}

fn main(rt: HostRuntime) {
    let mut input = rt.stdin();
    let mut run = [0u8; ENCODED_MAX];
    let mut out = output();
    let mut s = capture::start(&mut out);
    while s.at + s.len < LISTED_MAX {
        let t = list_piece(&rt, &mut input, s, &mut run, &mut out);
        let Turn::More(u) = t else {
            return;
        };
        s = u;
    }
    flush(&rt, &out, s.filled);
}
