// A line of a trace. Each function writes from an index on, and answers where what it wrote ends.
// Internal: callers prove that there is room.
#![tactic(auto)]

ghost use Rattle.std.specs.Prelude.{◌≡◌, ℕ, ◌+◌, ◌≤◌, List, ◌++◌, length, take, drop};
ghost use Rattle.buffer.specs.Lay.{lay};
ghost use Rattle.text.specs.Text.{hex};
ghost use Rattle.trace.specs.Traces.{none, plain, order_text, bytes_text, line_end, number_column, trace_line, event_text, count_line, bad_line, events_line};

use control::{Order, Reply};

// The most letters that an order starts with: configure, its flag and two slashes.
const START_MAX: usize = 12;

// How an order is shown: n letters, and len bytes of the memory of commands from index at on.
#[derive(Clone, Copy)]
struct Shown {
    letters: [u8; START_MAX],
    n: usize,
    at: usize,
    len: usize,
}

// Whether there is no order.
fn is_none(o: Order) -> bool
    ensures { result ≡ none o }
{
    match o {
        Order::Nothing => true,
        Order::Standby => false,
        Order::Configure {
            at: _,
            len: _,
            ldro: _,
        } => false,
        Order::Transmit {
            at: _,
            len: _,
            listen: _,
        } => false,
        Order::Receive => false,
    }
}

// Whether an answer is plain: taken, with nothing written and no order.
pub fn is_plain(a: Reply) -> bool
    ensures { result ≡ plain a }
{
    if a.number != 0 {
        return false;
    }
    if a.written != 0 {
        return false;
    }
    let o = a.order;
    is_none(o)
}

// How an order is shown.
fn shows(o: Order) -> Shown
    ensures n_in_bounds { result.n ≤ length result.letters }
    ensures by_index { (m : List ℕ) → take result.n result.letters ++ hex (take result.len (drop result.at m)) ≡ order_text o m }
{
    match o {
        Order::Nothing => Shown {
            letters: *b"none        ",
            n: 4,
            at: 0,
            len: 0,
        },
        Order::Standby => Shown {
            letters: *b"standby     ",
            n: 7,
            at: 0,
            len: 0,
        },
        Order::Configure { at, len, ldro } => {
            if ldro {
                return Shown {
                    letters: *b"configure/1/",
                    n: 12,
                    at,
                    len,
                };
            }
            Shown {
                letters: *b"configure/0/",
                n: 12,
                at,
                len,
            }
        }
        Order::Transmit { at, len, listen } => {
            if listen {
                return Shown {
                    letters: *b"transmit/1/ ",
                    n: 11,
                    at,
                    len,
                };
            }
            Shown {
                letters: *b"transmit/0/ ",
                n: 11,
                at,
                len,
            }
        }
        Order::Receive => Shown {
            letters: *b"receive     ",
            n: 7,
            at: 0,
            len: 0,
        },
    }
}

// Writes an order, with the bytes that it names in the memory of commands.
fn put_order(o: Order, commands: &[u8], dst: &mut [u8], from: usize) -> usize
    requires { from + length (order_text o commands.now) ≤ length dst.old }
    ensures value { result ≡ from + length (order_text o commands.now) }
    ensures dst_after { dst.new ≡ lay from (order_text o commands.now) dst.old }
{
    let s = shows(o);
    let n = s.n;
    let letters = s.letters;
    let named = text::put(&letters[..n], dst, from);
    text::hex(buffer::part(commands, s.at, s.len), dst, named)
}

// Writes bytes, or that there are none.
fn put_bytes(bytes: &[u8], dst: &mut [u8], from: usize) -> usize
    requires { from + length (bytes_text bytes.now) ≤ length dst.old }
    ensures value { result ≡ from + length (bytes_text bytes.now) }
    ensures dst_after { dst.new ≡ lay from (bytes_text bytes.now) dst.old }
{
    if bytes.len() == 0 {
        return text::put(b"-", dst, from);
    }
    text::hex(bytes, dst, from)
}

// Writes the last column, and ends the line.
fn put_end(bytes: &[u8], dst: &mut [u8], from: usize) -> usize
    requires { from + length (line_end bytes.now) ≤ length dst.old }
    ensures value { result ≡ from + length (line_end bytes.now) }
    ensures dst_after { dst.new ≡ lay from (line_end bytes.now) dst.old }
{
    let space = text::put(b" ", dst, from);
    let end = put_bytes(bytes, dst, space);
    text::put(b"\n", dst, end)
}

// Writes a column that is a number, and the space after it.
fn put_column(n: u64, dst: &mut [u8], from: usize) -> usize
    requires { from + length (number_column n) ≤ length dst.old }
    ensures value { result ≡ from + length (number_column n) }
    ensures dst_after { dst.new ≡ lay from (number_column n) dst.old }
{
    let end = text::decimal(n, dst, from);
    text::put(b" ", dst, end)
}

// Writes the line of the event with index k.
fn put_line(k: u64, a: Reply, commands: &[u8], out: &[u8], dst: &mut [u8], from: usize) -> usize
    requires { from + length (trace_line k a commands.now out.now) ≤ length dst.old }
    ensures value { result ≡ from + length (trace_line k a commands.now out.now) }
    ensures dst_after { dst.new ≡ lay from (trace_line k a commands.now out.now) dst.old }
{
    let index = put_column(k, dst, from);
    let number = put_column(a.number as u64, dst, index);
    let o = a.order;
    let ordered = put_order(o, commands, dst, number);
    put_end(buffer::part(out, 0, a.written), dst, ordered)
}

// Writes the line of the event with index k, if its answer is not plain: out has what the event
// wrote, and commands is the memory of commands.
pub fn event(k: u64, a: Reply, commands: &[u8], out: &[u8], dst: &mut [u8], from: usize) -> usize
    requires { from + length (event_text k a commands.now out.now) ≤ length dst.old }
    ensures value { result ≡ from + length (event_text k a commands.now out.now) }
    ensures dst_after { dst.new ≡ lay from (event_text k a commands.now out.now) dst.old }
{
    if is_plain(a) {
        return from;
    }
    put_line(k, a, commands, out, dst, from)
}

// Writes a line of a name and a number.
fn put_count(name: &[u8], n: u64, dst: &mut [u8], from: usize) -> usize
    requires { from + length (count_line name.now n) ≤ length dst.old }
    ensures value { result ≡ from + length (count_line name.now n) }
    ensures dst_after { dst.new ≡ lay from (count_line name.now n) dst.old }
{
    let named = text::put(name, dst, from);
    let number = text::decimal(n, dst, named);
    text::put(b"\n", dst, number)
}

// Writes that the line with number n, from 1, is bad.
pub fn bad_line(n: u64, dst: &mut [u8], from: usize) -> usize
    requires { from + length (bad_line n) ≤ length dst.old }
    ensures value { result ≡ from + length (bad_line n) }
    ensures dst_after { dst.new ≡ lay from (bad_line n) dst.old }
{
    put_count(b"bad line ", n, dst, from)
}

// Writes the last line: how many events there were.
pub fn events(n: u64, dst: &mut [u8], from: usize) -> usize
    requires { from + length (events_line n) ≤ length dst.old }
    ensures value { result ≡ from + length (events_line n) }
    ensures dst_after { dst.new ≡ lay from (events_line n) dst.old }
{
    put_count(b"events ", n, dst, from)
}
