// A line of the table: its frame is written from the fields, as a body and as a frame, and each is
// held to P's bytes; then it is read on the other side. What is printed says what was the same, and
// what DIFFERS.
use crate::item::Item;
use crate::{item, side, table, text};
use cobs::FULL;
use command::Command;
use frame::FRAME_MAX;

// The TX of C.3.2, what each takes on the wire and in P's text, and the tag of the first. The packets
// are A, B and C.
const BATCH: u8 = 3;

const TX_FRAME: usize = 9;

const TX_TEXT: usize = 27;

const FIRST: u16 = 0x0064;

// How many frames there were, how many were P's bytes, and how many were read back.
#[derive(Clone, Copy, Default)]
pub(crate) struct Score {
    frames: u32,
    same: u32,
    back: u32,
}

impl Score {
    // One frame more.
    fn counted(self, is_same: bool, is_back: bool) -> Score {
        Score {
            frames: self.frames.wrapping_add(1),
            same: self.same.wrapping_add(is_same as u32),
            back: self.back.wrapping_add(is_back as u32),
        }
    }

    // Prints the last line.
    pub(crate) fn print(self, rt: &impl Print) {
        let Score { frames, same, back } = self;
        let _ = print!(rt; "{frames} frames, {same} as in P, {back} read back\n");
    }
}

// Takes a line.
pub(crate) fn line(rt: &impl Print, s: Score, line: &[u8]) -> Score {
    let mut memory = [0u8; FRAME_MAX];
    let n = table::put(table::column(line, table::BYTES_COLUMN), &mut memory);
    let bytes = buffer::part(&memory, 0, n);
    match table::kind(line) {
        Some(b'c' | b'a' | b'w') => framed(rt, s, line, bytes),
        Some(b'f') => unwritten(rt, s, line, bytes),
        Some(b'b') => batch(rt, s, line),
        _ => s,
    }
}

// A frame: written, held to P's bytes, and read back.
fn framed(rt: &impl Print, s: Score, line: &[u8], bytes: &[u8]) -> Score {
    let item = item::of_line(table::kind(line), table::fields(line));
    let tag = table::tag(line);
    let mut memory = [0u8; FRAME_MAX];
    let len = side::write(item, tag, bytes, &mut memory);
    let frame = buffer::part(&memory, 0, len);
    let is_frame = text::shows(table::column(line, table::FRAME_COLUMN), frame);
    let is_body = is_body(item, tag, bytes, table::column(line, table::BODY_COLUMN));
    let is_read = side::is_read(item, tag, bytes, run(frame));
    print_line(rt, line, frame);
    print_verdicts(rt, is_frame, is_body, is_read);
    let is_refused = print_refusals(rt, item, line, bytes, frame);
    text::put(rt, b"\n");
    s.counted(is_frame & is_body, is_read & is_refused)
}

// Whether P's text shows the body of an item.
fn is_body(item: Item, tag: u16, bytes: &[u8], shown: &[u8]) -> bool {
    let mut memory = [0u8; FRAME_MAX];
    let len = side::build(item, tag, bytes, &mut memory);
    text::shows(shown, buffer::part(&memory, 0, len))
}

// A frame without its zero.
fn run(frame: &[u8]) -> &[u8] {
    frame.split_last().map_or(frame, |(_, run)| run)
}

// Whether reader and writer of commands refuse a wrong command with its number.
fn print_refusals(rt: &impl Print, item: Item, line: &[u8], payload: &[u8], frame: &[u8]) -> bool {
    let Item::Wrong { kind, number } = item else {
        return true;
    };
    let is_unread = print_refusal(rt, ", reader", side::read_number(run(frame)), number);
    let got = side::write_number(kind, table::tag(line), payload);
    is_unread & print_refusal(rt, ", writer", got, number)
}

// Fields that make no right command: the writer refuses them with the line's number.
fn unwritten(rt: &impl Print, s: Score, line: &[u8], bytes: &[u8]) -> Score {
    let c = item::command(table::fields(line));
    let got = side::command_number(c, table::tag(line), bytes);
    print_head(rt, line);
    let number = table::number(table::column(line, table::BODY_COLUMN));
    print_refusal(rt, " from its fields: writer", got, number);
    text::put(rt, b"\n");
    s
}

// C.3.2: three TX in a single transport write, one after the other.
fn batch(rt: &impl Print, s: Score, line: &[u8]) -> Score {
    let shown = table::column(line, table::FRAME_COLUMN);
    text::put(rt, table::column(line, table::LABEL_COLUMN));
    let mut is_same = true;
    let mut is_read = true;
    for i in 0..BATCH {
        let tx = Item::Command(Command::Tx { flags: 0 });
        let tag = FIRST + i as u16;
        let packet = [b'A' + i];
        let mut memory = [0u8; TX_FRAME];
        let len = side::write(tx, tag, &packet, &mut memory);
        let frame = buffer::part(&memory, 0, len);
        text::print(rt, frame);
        is_same &= text::shows(buffer::part(shown, i as usize * TX_TEXT, TX_TEXT), frame);
        is_read &= side::is_read(tx, tag, &packet, run(frame));
    }
    print_batch(rt, is_same, is_read);
    s
}

// Whether the frames and what was read back are the same.
fn print_batch(rt: &impl Print, is_same: bool, is_read: bool) {
    print_verdict(rt, " frames", is_same);
    print_verdict(rt, ", read back", is_read);
    text::put(rt, b"\n");
}

// The start of a line: the example with its message, and the tag.
fn print_head(rt: &impl Print, line: &[u8]) {
    text::put(rt, table::column(line, table::LABEL_COLUMN));
    text::put(rt, b" ");
    text::put(rt, table::column(line, table::TAG_COLUMN));
}

// The line of a frame, up to its bytes; one that is longer than a full group by its ends.
fn print_line(rt: &impl Print, line: &[u8], frame: &[u8]) {
    print_head(rt, line);
    if FULL < frame.len() {
        print_ends(rt, frame);
        return;
    }
    text::print(rt, frame);
}

// Whether the frame, the body and what was read back are the same.
fn print_verdicts(rt: &impl Print, is_frame: bool, is_body: bool, is_read: bool) {
    print_verdict(rt, " frame", is_frame);
    print_verdict(rt, ", body", is_body);
    print_verdict(rt, ", read back", is_read);
}

// The first and the last bytes of a long frame, and its length.
fn print_ends(rt: &impl Print, frame: &[u8]) {
    text::print(rt, buffer::part(frame, 0, 8));
    text::put(rt, b" ..");
    text::print(rt, buffer::from(frame, FULL));
    let _ = print!(rt; ", {} bytes,", frame.len());
}

// Whether something is the same.
fn print_verdict(rt: &impl Print, what: &str, is_same: bool) {
    let verdict = if is_same { "same" } else { "DIFFERS" };
    let _ = print!(rt; "{what} {verdict}");
}

// The number with which something is refused, and whether it is the right one.
fn print_refusal(rt: &impl Print, what: &str, got: u8, number: u64) -> bool {
    let _ = print!(rt; "{what} refuses {got}");
    if got as u64 != number {
        text::put(rt, b" DIFFERS");
        return false;
    }
    true
}
