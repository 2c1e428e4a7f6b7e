// The trace, line by line. What a line has is the crate trace's.
use crate::event::ROOM_MAX;
use control::Reply;
use slot::COMMANDS;

// The longest line: two numbers, an order with all of the memory of commands in hexadecimal, so much
// output, and what stands between them.
const TRACE_LINE: usize = 17700;
// The longest of the last lines.
const LAST: usize = 32;

// Writes the first n bytes of text.
fn flush(rt: &(impl Print + Eprint), text: &[u8], n: usize) {
    if rt.write_all(buffer::part(text, 0, n)).is_err() {
        let _ = eprint!(rt; "replay: write failed\n");
    }
}

// Writes the line of an event, unless its answer is plain.
pub(crate) fn note(
    rt: &(impl Print + Eprint),
    index: u64,
    a: Reply,
    commands: &[u8; COMMANDS],
    out: &[u8; ROOM_MAX],
) {
    if trace::is_plain(a) {
        return;
    }
    let mut text = [0u8; TRACE_LINE];
    let n = trace::event(index, a, commands, out, &mut text, 0);
    flush(rt, &text, n);
}

// Writes that a line of the script is bad.
pub(crate) fn bad_line(rt: &(impl Print + Eprint), n: u64) {
    let mut text = [0u8; LAST];
    let k = trace::bad_line(n, &mut text, 0);
    flush(rt, &text, k);
}

// Writes how many events there were.
pub(crate) fn events(rt: &(impl Print + Eprint), n: u64) {
    let mut text = [0u8; LAST];
    let k = trace::events(n, &mut text, 0);
    flush(rt, &text, k);
}
