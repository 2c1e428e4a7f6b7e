// What a host calls, with answers of numbers alone: 01's number, a count or a struct of fields.
#![tactic(auto)]

ghost use Rattle.std.specs.Prelude.{◌≡◌, ◌≤◌, length};
ghost use Rattle.status.specs.Numbers.{TAKEN};
ghost use Rattle.status.specs.Result.{value_or};
ghost use Rattle.cobs.specs.Decoding.{decoded};
ghost use Rattle.cobs.specs.Answers.{encode_answer, encode_left, encoded_result, decode_answer, decode_left, decoded_result};
ghost use Rattle.frame.specs.Writing.{written_result};
ghost use Rattle.frame.specs.Reading.{opened_result, open_answer, open_left};
ghost use Rattle.rx.specs.Rx.{rx_size};
ghost use Rattle.answer.specs.Answers.{tx_done_size};
ghost use Rattle.reader.specs.Reading.{receive_answer, receive_left};
ghost use Rattle.writer.specs.Writing.{write_answer, write_left};
ghost use Rattle.airtime.specs.Airtime.{airtime};
ghost use Rattle.ffi_host.specs.Reports.{name_in, message_report, rx_fields, rx_report, tx_done_fields, tx_done_report};

use airtime::{Duration, Transmission};
use cobs::{Decoded, Encoded};
use frame::{Opened, PAYLOAD, Written};
use kind::{GET_INFO, Name, SET_CONFIG};
use rx::RX_SIZE;
use status::{AIR, LENGTH, SHORT, STUFF, TAKEN, WIDE};
use wellformed::Kinds;

// Encodes src into dst, and stores the count of bytes in written.
pub fn cobs_encode(src: &[u8], dst: &mut [u8], written: &mut usize) -> u8
    ensures value { result ≡ (encoded_result (encode_answer src.now (length dst.old))).number }
    ensures dst_after { dst.new ≡ encode_left src.now dst.old }
    ensures written_after { written.new
        ≡ value_or (encoded_result (encode_answer src.now (length dst.old))).value written.old }
{
    match cobs::encode(src, dst) {
        Encoded::Done(n) => {
            *written = n;
            TAKEN
        }
        Encoded::Short => SHORT,
        Encoded::Length => LENGTH,
    }
}

// Decodes src into dst, and stores the count of bytes in written.
pub fn cobs_decode(src: &[u8], dst: &mut [u8], written: &mut usize) -> u8
    ensures value { result ≡ (decoded_result (decode_answer src.now (length dst.old))).number }
    ensures dst_after { dst.new ≡ decode_left src.now dst.old }
    ensures written_after { written.new
        ≡ value_or (decoded_result (decode_answer src.now (length dst.old))).value written.old }
{
    match cobs::decode(src, dst) {
        Decoded::Done(n) => {
            *written = n;
            TAKEN
        }
        Decoded::Short => SHORT,
        Decoded::Stuff => STUFF,
        Decoded::Length => LENGTH,
    }
}

// Writes the frame of a command from its type, tag and payload, and stores the count of bytes in
// written.
pub fn write_command(kind: u8, tag: u16, payload: &[u8], dst: &mut [u8], written: &mut usize) -> u8
    ensures value { result ≡ (written_result (write_answer Kinds.Commands kind tag payload.now (length dst.old))).number }
    ensures dst_after { dst.new ≡ write_left Kinds.Commands kind tag payload.now dst.old }
    ensures written_after { written.new
        ≡ value_or (written_result (write_answer Kinds.Commands kind tag payload.now (length dst.old))).value written.old }
{
    match writer::write(Kinds::Commands, kind, tag, payload, dst) {
        Written::Done(n) => {
            *written = n;
            TAKEN
        }
        Written::Refused(r) => status::refusal_number(r),
    }
}

// What a frame says of its message, for C: struct donglora_message.
#[repr(C)]
#[derive(Clone, Copy)]
pub struct MessageReport {
    pub number: u8,
    pub kind: u8,
    pub tag: u16,
    pub payload_len: usize,
}

// Reads a frame of whatever type and tag, and puts its body at the start of body.
pub fn read_frame(run: &[u8], body: &mut [u8]) -> MessageReport
    ensures value { result ≡ message_report (opened_result (open_answer run.now (length body.old))) }
    ensures body_after { body.new ≡ open_left run.now body.old }
{
    match frame::open(run, body) {
        Opened::Body {
            kind: k,
            tag: t,
            len: n,
        } => MessageReport {
            number: TAKEN,
            kind: k,
            tag: t,
            payload_len: n,
        },
        Opened::Refused(r) => MessageReport {
            number: status::refusal_number(r),
            kind: 0,
            tag: 0,
            payload_len: 0,
        },
    }
}

// The command that a number names, where an OK is read.
fn name_of(command: u8) -> Name
    ensures { result ≡ name_in command }
{
    if command == GET_INFO {
        return Name::GetInfo;
    }
    if command == SET_CONFIG {
        return Name::SetConfig;
    }
    Name::Ping
}

// Reads the frame of an answer, where an OK is that to a command, and puts its body at the start of
// body.
pub fn read_answer(command: u8, run: &[u8], body: &mut [u8]) -> MessageReport
    ensures value { result ≡ message_report (opened_result (receive_answer (Kinds.Answers (name_in command)) run.now (length body.old))) }
    ensures body_after { body.new ≡ receive_left (Kinds.Answers (name_in command)) run.now body.old }
{
    let name = name_of(command);
    match reader::receive(Kinds::Answers(name), run, body) {
        Opened::Body { kind, tag, len } => MessageReport {
            number: TAKEN,
            kind,
            tag,
            payload_len: len,
        },
        Opened::Refused(r) => MessageReport {
            number: status::refusal_number(r),
            kind: 0,
            tag: 0,
            payload_len: 0,
        },
    }
}

// What an RX says, for C: struct donglora_rx.
#[repr(C)]
#[derive(Clone, Copy)]
pub struct RxReport {
    pub number: u8,
    pub rssi: i16,
    pub snr: i16,
    pub freq_err: i32,
    pub timestamp_us: u64,
    pub crc_valid: u8,
    pub packets_dropped: u16,
    pub origin: u8,
    pub packet_len: usize,
}

// Reads the frame of an RX, and puts its body at the start of body.
pub fn read_rx(run: &[u8], body: &mut [u8]) -> RxReport
    ensures value { result ≡ rx_report (opened_result (receive_answer Kinds.Rx run.now (length body.old))) (decoded run.now) }
    ensures body_after { body.new ≡ receive_left Kinds.Rx run.now body.old }
{
    match reader::receive(Kinds::Rx, run, body) {
        Opened::Body {
            kind: _,
            tag: _,
            len,
        } => rx_report(&body[PAYLOAD..PAYLOAD + len]),
        Opened::Refused(r) => RxReport {
            number: status::refusal_number(r),
            rssi: 0,
            snr: 0,
            freq_err: 0,
            timestamp_us: 0,
            crc_valid: 0,
            packets_dropped: 0,
            origin: 0,
            packet_len: 0,
        },
    }
}

// What the payload of an RX says.
fn rx_report(payload: &[u8]) -> RxReport
    requires { rx_size ≤ length payload.now }
    ensures { result ≡ rx_fields TAKEN payload.now }
{
    let m = rx::rx_of(payload);
    RxReport {
        number: TAKEN,
        rssi: m.rssi,
        snr: m.snr,
        freq_err: m.freq_err,
        timestamp_us: m.timestamp_us,
        crc_valid: m.crc_valid,
        packets_dropped: m.packets_dropped,
        origin: m.origin,
        packet_len: payload.len() - RX_SIZE,
    }
}

// What a TX_DONE says, for C: struct donglora_tx_done.
#[repr(C)]
#[derive(Clone, Copy)]
pub struct TxDoneReport {
    pub number: u8,
    pub tag: u16,
    pub result: u8,
    pub airtime_us: u32,
}

// Reads the frame of a TX_DONE, and puts its body at the start of body.
pub fn read_tx_done(run: &[u8], body: &mut [u8]) -> TxDoneReport
    ensures value { result
        ≡ tx_done_report (opened_result (receive_answer Kinds.TxDone run.now (length body.old))) (decoded run.now) }
    ensures body_after { body.new ≡ receive_left Kinds.TxDone run.now body.old }
{
    match reader::receive(Kinds::TxDone, run, body) {
        Opened::Body { kind: _, tag, len } => tx_done_report(tag, &body[PAYLOAD..PAYLOAD + len]),
        Opened::Refused(r) => TxDoneReport {
            number: status::refusal_number(r),
            tag: 0,
            result: 0,
            airtime_us: 0,
        },
    }
}

// What the payload of a TX_DONE says.
fn tx_done_report(tag: u16, payload: &[u8]) -> TxDoneReport
    requires { tx_done_size ≤ length payload.now }
    ensures { result ≡ tx_done_fields TAKEN tag payload.now }
{
    let airtime_us = scalar::u32_at(payload, 1);
    TxDoneReport {
        number: TAKEN,
        tag,
        result: payload[0],
        airtime_us,
    }
}

// The time on air of a packet, stored in us.
pub fn airtime(air: Transmission, us: &mut u32) -> u8
    ensures value { result ≡ (airtime air).number }
    ensures us_after { us.new ≡ value_or (airtime air).value us.old }
{
    match airtime::airtime(air) {
        Duration::Us(n) => {
            *us = n;
            TAKEN
        }
        Duration::Air => AIR,
        Duration::Wide => WIDE,
    }
}
