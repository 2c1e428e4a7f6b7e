// Frames: a body of type, tag, payload and check value, encoded and ended by a zero; and a run, what
// stands before a frame's zero, opened: its body, or why it is none. P 2, with the choices of 01 "Bytes
// on the wire" and "Numbers that come back".
#![tactic(auto)]

ghost use Rattle.std.specs.Prelude.{◌≡◌, ◌≤◌, length};
ghost use Rattle.buffer.specs.Lay.{lay};
ghost use Rattle.cobs.specs.Answers.{encoded_max};
ghost use Rattle.frame.specs.Body.{covered, body};
ghost use Rattle.frame.specs.Reading.{open_body, open_answer, open_left, unpack_left, opened_result};
ghost use Rattle.frame.specs.Writing.{build_answer, build_left, frame_answer, frame_left, written_result};

use cobs::{BODY_MAX, Decoded, ENCODED_MAX};
use status::Refusal;

// What a body has beside its payload: type, tag and check value.
pub const OVERHEAD: usize = 5;
// Where the payload stands in a body.
pub const PAYLOAD: usize = 3;
// The longest payload: a body has 280 bytes at most.
pub const PAYLOAD_MAX: usize = 275;
// The longest frame: a body of that length encoded, and the zero.
pub const FRAME_MAX: usize = ENCODED_MAX + 1;
// The bytes of a check value.
pub const CHECK_SIZE: usize = 2;

// What writing answers.
#[derive(Clone, Copy)]
pub enum Written {
    // So many bytes were written.
    Done(usize),
    // Nothing was.
    Refused(Refusal),
}

// What reading a run answers.
#[derive(Clone, Copy)]
pub enum Opened {
    // A body, with so many bytes of payload.
    Body { kind: u8, tag: u16, len: usize },
    // No body that is taken.
    Refused(Refusal),
}

// Builds a body in dst.
pub fn build(kind: u8, tag: u16, payload: &[u8], dst: &mut [u8]) -> Written
    ensures result_value { written_result result ≡ written_result (build_answer payload.now (length dst.old)) }
    ensures dst_after { dst.new ≡ build_left kind tag payload.now dst.old }
{
    let n = payload.len();
    if PAYLOAD_MAX < n {
        return Written::Refused(Refusal::Length);
    }
    if dst.len() < n + OVERHEAD {
        return Written::Refused(Refusal::Short);
    }
    build_into(kind, tag, payload, dst);
    Written::Done(n + OVERHEAD)
}

// Writes a body: what the check value covers, and the check value.
fn build_into(kind: u8, tag: u16, payload: &[u8], dst: &mut [u8])
    requires { length (body kind tag payload.now) ≤ length dst.old }
    ensures { dst.new ≡ lay 0 (body kind tag payload.now) dst.old }
{
    cover_into(kind, tag, payload, dst);
    let end = PAYLOAD + payload.len();
    let check = scalar::bytes_of_u16(crc16::crc16(&dst[..end]));
    buffer::copy(&check, dst, end);
}

// Writes what the check value covers: type, tag and payload.
fn cover_into(kind: u8, tag: u16, payload: &[u8], dst: &mut [u8])
    requires { length (covered kind tag payload.now) ≤ length dst.old }
    ensures { dst.new ≡ lay 0 (covered kind tag payload.now) dst.old }
{
    dst[0] = kind;
    let t = scalar::bytes_of_u16(tag);
    buffer::copy(&t, dst, 1);
    buffer::copy(payload, dst, PAYLOAD);
}

// Writes a whole frame to dst: the body encoded, and the zero that ends it.
pub fn write(kind: u8, tag: u16, payload: &[u8], dst: &mut [u8]) -> Written
    ensures result_value { written_result result ≡ written_result (frame_answer (body kind tag payload.now) (length dst.old)) }
    ensures dst_after { dst.new ≡ frame_left (body kind tag payload.now) dst.old }
{
    let n = payload.len();
    if PAYLOAD_MAX < n {
        return Written::Refused(Refusal::Length);
    }
    let size = n + OVERHEAD;
    if dst.len() < cobs::worst(size as u16) + 1 {
        return Written::Refused(Refusal::Short);
    }
    let mut memory = [0u8; BODY_MAX];
    build_into(kind, tag, payload, &mut memory);
    let end = cobs::encode_into(&memory[..size], dst);
    dst[end] = 0;
    Written::Done(end + 1)
}

// Reads a run, a frame without its zero, into lent memory, whatever message it holds.
pub fn open(run: &[u8], dst: &mut [u8]) -> Opened
    ensures result_value { opened_result result ≡ opened_result (open_answer run.now (length dst.old)) }
    ensures dst_after { dst.new ≡ open_left run.now dst.old }
{
    let mut memory = [0u8; ENCODED_MAX];
    let opened = unpack(run, dst.len(), &mut memory);
    let Opened::Body { kind, tag, len } = opened else {
        return opened;
    };
    buffer::copy(&memory[..len + OVERHEAD], dst, 0);
    Opened::Body { kind, tag, len }
}

// Looks at a run for so much room, with its body in working memory. Internal, for
// readers that refuse a body for further reasons before they write a byte.
pub fn unpack(run: &[u8], room: usize, memory: &mut [u8]) -> Opened
    requires { encoded_max ≤ length memory.old }
    ensures value { result ≡ open_answer run.now room }
    ensures memory_after { memory.new ≡ unpack_left run.now room memory.old }
{
    if ENCODED_MAX < run.len() {
        return Opened::Refused(Refusal::Length);
    }
    if room < run.len() {
        return Opened::Refused(Refusal::Short);
    }
    let decoded = cobs::decode(run, memory);
    let Decoded::Done(n) = decoded else {
        return Opened::Refused(Refusal::Stuff);
    };
    open_body(&memory[..n])
}

// Looks at a body: its length, then its check value.
fn open_body(body: &[u8]) -> Opened
    ensures { result ≡ open_body body.now }
{
    let len = body.len();
    if len < OVERHEAD {
        return Opened::Refused(Refusal::Length);
    }
    if BODY_MAX < len {
        return Opened::Refused(Refusal::Length);
    }
    let end = len - CHECK_SIZE;
    if crc16::crc16(&body[..end]) == scalar::u16_at(body, end) {
        return Opened::Body {
            kind: body[0],
            tag: scalar::u16_at(body, 1),
            len: len - OVERHEAD,
        };
    }
    Opened::Refused(Refusal::Check)
}
