// The listing of a capture, piece by piece: 01 "Sheet of known values", its last part.
#![tactic(auto)]

ghost use Rattle.std.specs.Prelude.{◌≡◌, ◌+◌, ◌*◌, ◌≤◌, ◌<◌, ◌^◌, length};
ghost use Rattle.buffer.specs.Lay.{lay};
ghost use Rattle.cobs.specs.Answers.{encoded_max};
ghost use Rattle.line.specs.Lines.{line_max};
ghost use Rattle.capture.specs.Listing.{heading};
ghost use Rattle.capture.specs.Stream.{keep, open_run, line_run, run_so_far, after_bytes, adds, start_stream, fed};

use cobs::ENCODED_MAX;
use frame::Opened;
use status::Refusal;

// Where a capture stands between two pieces. Of a run so many bytes are kept as a frame can have, and
// a longer one is none.
#[derive(Clone, Copy)]
pub struct Stream {
    // The offset of the run's first byte.
    pub at: u64,
    // How long the run is so far.
    pub len: u64,
    // How much of the output is filled.
    pub filled: usize,
}

// Opens a run by its length and its first bytes.
fn open_run(n: u64, run: &[u8]) -> Opened
    requires { encoded_max ≤ length run.now }
    ensures { result ≡ open_run n run.now }
{
    if (ENCODED_MAX as u64) < n {
        return Opened::Refused(Refusal::Length);
    }
    let mut memory = [0u8; ENCODED_MAX];
    frame::unpack(&run[..n as usize], ENCODED_MAX, &mut memory)
}

// Writes the line of a run at an offset: n is its length, and run has its first bytes. An empty run
// has none.
fn write_line(at: u64, n: u64, run: &[u8], dst: &mut [u8], from: usize) -> usize
    requires encoded_max_in_bounds { encoded_max ≤ length run.now }
    requires run_in_bounds { from + length (line_run at n run.now) ≤ length dst.old }
    ensures value { result ≡ from + length (line_run at n run.now) }
    ensures dst_after { dst.new ≡ lay from (line_run at n run.now) dst.old }
{
    if n == 0 {
        return from;
    }
    line::line(at, open_run(n, run), n, dst, from)
}

// Keeps the byte b of a run that has n bytes before it, if it is among the first.
fn keep(n: u64, b: u8, run: &mut [u8])
    requires { encoded_max ≤ length run.old }
    ensures { run.new ≡ keep n b run.old }
{
    if n < (ENCODED_MAX as u64) {
        run[n as usize] = b;
    }
}

// Starts a listing: the heading is in the output. Internal, as the next: callers prove
// that there is room, and that no counter overflows.
pub fn start(dst: &mut [u8]) -> Stream
    requires { length heading ≤ length dst.old }
    ensures value { result ≡ start_stream }
    ensures dst_after { dst.new ≡ lay 0 heading dst.old }
{
    let filled = text::put(b"at type tag len\n", dst, 0);
    Stream {
        at: 0,
        len: 0,
        filled,
    }
}

// Takes a piece of a capture, and adds the lines of the runs that end in it to the output. Between
// two pieces run has the first bytes of the run that goes on. Before the first it may have any.
pub fn feed(s: Stream, piece: &[u8], run: &mut [u8], dst: &mut [u8]) -> Stream
    requires piece_bound { s.at + s.len + length piece.now < 2 ^ 64 }
    requires encoded_max_in_bounds { encoded_max ≤ length run.old }
    requires piece_in_bounds { s.filled + line_max * length piece.now ≤ length dst.old }
    ensures value { result ≡ fed s run.old piece.now }
    ensures run_after { run.new ≡ (after_bytes (run_so_far s run.old) piece.now).kept }
    ensures dst_after { dst.new ≡ lay s.filled (adds (run_so_far s run.old) piece.now) dst.old }
{
    let mut at = s.at;
    let mut len = s.len;
    let mut filled = s.filled;
    let mut i = 0;
    while i < piece.len() {
        let b = piece[i];
        i += 1;
        if b == 0 {
            filled = write_line(at, len, run, dst, filled);
            at = at + len + 1;
            len = 0;
        } else {
            keep(len, b, run);
            len += 1;
        }
    }
    Stream { at, len, filled }
}
