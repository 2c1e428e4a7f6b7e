// A line of a listing: 01 "Sheet of known values", its last part.
#![tactic(auto)]

ghost use Rattle.std.specs.Prelude.{◌≡◌, ◌+◌, ◌≤◌, length, take};
ghost use Rattle.buffer.specs.Lay.{lay};
ghost use Rattle.line.specs.Lines.{hex4, name, two_columns, last_column, line};

use frame::Opened;
use kind::{ERR, GET_INFO, OK, PING, RX, RX_START, RX_STOP, SET_CONFIG, TX, TX_DONE};

// The longest line: 20 digits, a space, 10 letters, a space, 4 digits, a space, 20 digits and the
// line end.
pub const LINE_MAX: usize = 58;
// The longest name of a type.
const NAME_MAX: usize = 10;

// The name of a type: n letters, and blanks.
#[derive(Clone, Copy)]
struct Named {
    letters: [u8; NAME_MAX],
    n: usize,
}

// Writes a tag as four hexadecimal digits.
fn hex4(n: u16, dst: &mut [u8], from: usize) -> usize
    requires { from + length (hex4 n) ≤ length dst.old }
    ensures value { result ≡ from + length (hex4 n) }
    ensures dst_after { dst.new ≡ lay from (hex4 n) dst.old }
{
    let bytes = [(n / 256) as u8, (n % 256) as u8];
    text::hex(&bytes, dst, from)
}

// The letters of a type's name.
fn letters_of(kind: u8) -> Named
    ensures n_in_bounds { result.n ≤ length result.letters }
    ensures letters_value { take result.n result.letters ≡ name kind }
{
    match kind {
        PING => Named {
            letters: *b"PING      ",
            n: 4,
        },
        GET_INFO => Named {
            letters: *b"GET_INFO  ",
            n: 8,
        },
        SET_CONFIG => Named {
            letters: *b"SET_CONFIG",
            n: 10,
        },
        TX => Named {
            letters: *b"TX        ",
            n: 2,
        },
        RX_START => Named {
            letters: *b"RX_START  ",
            n: 8,
        },
        RX_STOP => Named {
            letters: *b"RX_STOP   ",
            n: 7,
        },
        OK => Named {
            letters: *b"OK        ",
            n: 2,
        },
        ERR => Named {
            letters: *b"ERR       ",
            n: 3,
        },
        RX => Named {
            letters: *b"RX        ",
            n: 2,
        },
        TX_DONE => Named {
            letters: *b"TX_DONE   ",
            n: 7,
        },
        _ => Named {
            letters: *b"?         ",
            n: 1,
        },
    }
}

// Writes the name of a type.
fn name(kind: u8, dst: &mut [u8], from: usize) -> usize
    requires { from + length (name kind) ≤ length dst.old }
    ensures value { result ≡ from + length (name kind) }
    ensures dst_after { dst.new ≡ lay from (name kind) dst.old }
{
    let named = letters_of(kind);
    let n = named.n;
    let letters = named.letters;
    text::put(&letters[..n], dst, from)
}

// Writes the last column, and ends the line.
fn last_column(n: u64, dst: &mut [u8], from: usize) -> usize
    requires { from + length (last_column n) ≤ length dst.old }
    ensures value { result ≡ from + length (last_column n) }
    ensures dst_after { dst.new ≡ lay from (last_column n) dst.old }
{
    let space = text::put(b" ", dst, from);
    let end = text::decimal(n, dst, space);
    text::put(b"\n", dst, end)
}

// Writes type and tag, each after a space.
fn type_and_tag(kind: u8, tag: u16, dst: &mut [u8], from: usize) -> usize
    requires { from + length (two_columns (name kind) (hex4 tag)) ≤ length dst.old }
    ensures value { result ≡ from + length (two_columns (name kind) (hex4 tag)) }
    ensures dst_after { dst.new ≡ lay from (two_columns (name kind) (hex4 tag)) dst.old }
{
    let space = text::put(b" ", dst, from);
    let named = name(kind, dst, space);
    let next = text::put(b" ", dst, named);
    hex4(tag, dst, next)
}

// Writes the line of a run: its offset, the result of opening it, and its length. Internal: callers
// prove that there is room.
pub fn line(at: u64, opened: Opened, n: u64, dst: &mut [u8], from: usize) -> usize
    requires { from + length (line at opened n) ≤ length dst.old }
    ensures value { result ≡ from + length (line at opened n) }
    ensures dst_after { dst.new ≡ lay from (line at opened n) dst.old }
{
    let offset = text::decimal(at, dst, from);
    let Opened::Body { kind, tag, len } = opened else {
        let bad = text::put(b" BAD -", dst, offset);
        return last_column(n, dst, bad);
    };
    let tagged = type_and_tag(kind, tag, dst, offset);
    last_column(len as u64, dst, tagged)
}
