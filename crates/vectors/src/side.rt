// The two sides of the wire: an item is written as a body and as a frame, and read on the other side.
use crate::fields;
use crate::item::Item;
use answer::{Answer, Answered};
use command::{Asked, Command};
use frame::{FRAME_MAX, Opened, PAYLOAD, Written};
use kind::Name;
use status::TAKEN;
use wellformed::Kinds;

// How many bytes were written: none where the writer refused.
fn written(w: Written) -> usize {
    match w {
        Written::Done(n) => n,
        Written::Refused(_) => 0,
    }
}

// The number of what a writer answered.
fn number_of(w: Written) -> u8 {
    match w {
        Written::Done(_) => TAKEN,
        Written::Refused(r) => status::refusal_number(r),
    }
}

// Writes the body of an item, and answers how long it is.
pub(crate) fn build(item: Item, tag: u16, bytes: &[u8], memory: &mut [u8]) -> usize {
    match item {
        Item::Command(c) => written(compose::build_command(c, tag, bytes, memory)),
        Item::Answer { answer, name: _ } => written(compose::build_answer(
            answer, tag, bytes, memory,
        )),
        Item::Wrong { kind, number: _ } => written(frame::build(kind, tag, bytes, memory)),
    }
}

// Writes the frame of an item, and answers how long it is.
pub(crate) fn write(item: Item, tag: u16, bytes: &[u8], memory: &mut [u8]) -> usize {
    match item {
        Item::Command(c) => written(compose::write_command(c, tag, bytes, memory)),
        Item::Answer { answer, name: _ } => written(compose::write_answer(
            answer, tag, bytes, memory,
        )),
        Item::Wrong { kind, number: _ } => written(frame::write(kind, tag, bytes, memory)),
    }
}

// Whether the other side reads this item in a run.
pub(crate) fn is_read(item: Item, tag: u16, bytes: &[u8], run: &[u8]) -> bool {
    match item {
        Item::Command(c) => is_command(c, tag, bytes, run),
        Item::Answer { answer, name } => is_answer(answer, name, tag, bytes, run),
        Item::Wrong { kind, number: _ } => is_wrong(kind, tag, bytes, run),
    }
}

// Whether the device reads this command.
fn is_command(c: Command, tag: u16, bytes: &[u8], run: &[u8]) -> bool {
    let mut memory = [0u8; FRAME_MAX];
    let mut number = 0;
    let mut kind = 0;
    let mut t = 0;
    let payload = reader::read(
        Kinds::Commands,
        run,
        &mut memory,
        &mut number,
        &mut kind,
        &mut t,
    );
    if number != TAKEN {
        return false;
    }
    let Asked::Command(d) = command::read_command(kind, payload) else {
        return false;
    };
    (t == tag) & fields::same_command(c, d) & fields::command_has(d, payload, bytes)
}

// Whether the host reads this answer.
fn is_answer(a: Answer, name: Name, tag: u16, bytes: &[u8], run: &[u8]) -> bool {
    let mut memory = [0u8; FRAME_MAX];
    let mut number = 0;
    let mut kind = 0;
    let mut t = 0;
    let payload = reader::read(
        Kinds::Answers(name),
        run,
        &mut memory,
        &mut number,
        &mut kind,
        &mut t,
    );
    if number != TAKEN {
        return false;
    }
    let Answered::Answer(d) = answer::read_answer(kind, name, payload) else {
        return false;
    };
    (t == tag) & fields::same_answer(a, d) & fields::answer_has(d, payload, bytes)
}

// Whether a frame, whatever message it holds, has this type, tag and payload.
fn is_wrong(kind: u8, tag: u16, payload: &[u8], run: &[u8]) -> bool {
    let mut memory = [0u8; FRAME_MAX];
    let opened = frame::open(run, &mut memory);
    let Opened::Body {
        kind: k,
        tag: t,
        len,
    } = opened
    else {
        return false;
    };
    let is_payload = check::same(buffer::part(&memory, PAYLOAD, len), payload);
    (k == kind) & (t == tag) & is_payload
}

// The number that the reader of commands answers.
pub(crate) fn read_number(run: &[u8]) -> u8 {
    let mut memory = [0u8; FRAME_MAX];
    let mut number = 0;
    let mut kind = 0;
    let mut tag = 0;
    reader::read(
        Kinds::Commands,
        run,
        &mut memory,
        &mut number,
        &mut kind,
        &mut tag,
    );
    number
}

// The number that the writer of commands answers to a type and a payload.
pub(crate) fn write_number(kind: u8, tag: u16, payload: &[u8]) -> u8 {
    let mut memory = [0u8; FRAME_MAX];
    number_of(writer::write(Kinds::Commands, kind, tag, payload, &mut memory))
}

// The number that it answers to the fields of a command.
pub(crate) fn command_number(c: Command, tag: u16, bytes: &[u8]) -> u8 {
    let mut memory = [0u8; FRAME_MAX];
    number_of(compose::write_command(c, tag, bytes, &mut memory))
}
