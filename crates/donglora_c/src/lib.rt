// What C programs call; include/donglora.h is its other side. Each function is one call of the function of
// its name in crate donglora, with the same contract.
#![tactic(auto)]

ghost use Rattle.std.specs.Prelude.{◌≡◌, length};
ghost use Rattle.status.specs.Result.{value_or};
ghost use Rattle.crc16.specs.Crc.{crc_of};
ghost use Rattle.cobs.specs.Decoding.{decoded};
ghost use Rattle.cobs.specs.Answers.{encode_answer, encode_left, encoded_result, decode_answer, decode_left, decoded_result};
ghost use Rattle.frame.specs.Writing.{written_result};
ghost use Rattle.frame.specs.Reading.{opened_result, open_answer, open_left};
ghost use Rattle.reader.specs.Reading.{receive_answer, receive_left};
ghost use Rattle.writer.specs.Writing.{write_answer, write_left};
ghost use Rattle.airtime.specs.Airtime.{airtime};
ghost use Rattle.ffi_host.specs.Reports.{name_in, message_report, rx_report, tx_done_report};

mod event;
mod tags;

use airtime::Transmission;
use ffi_host::{MessageReport, RxReport, TxDoneReport};
use wellformed::Kinds;

// The check value of src.
#[unsafe(no_mangle)]
pub extern "C" fn donglora_crc16(src: &[u8]) -> u16
    ensures { result ≡ crc_of src.now }
{
    donglora::donglora_crc16(src)
}

// Encodes src into dst, and stores the count of bytes in written.
#[unsafe(no_mangle)]
pub extern "C" fn donglora_cobs_encode(src: &[u8], dst: &mut [u8], written: &mut usize) -> u8
    ensures value { result ≡ (encoded_result (encode_answer src.now (length dst.old))).number }
    ensures dst_after { dst.new ≡ encode_left src.now dst.old }
    ensures written_after { written.new
        ≡ value_or (encoded_result (encode_answer src.now (length dst.old))).value written.old }
{
    donglora::donglora_cobs_encode(src, dst, written)
}

// Decodes src into dst, and stores the count of bytes in written.
#[unsafe(no_mangle)]
pub extern "C" fn donglora_cobs_decode(src: &[u8], dst: &mut [u8], written: &mut usize) -> u8
    ensures value { result ≡ (decoded_result (decode_answer src.now (length dst.old))).number }
    ensures dst_after { dst.new ≡ decode_left src.now dst.old }
    ensures written_after { written.new
        ≡ value_or (decoded_result (decode_answer src.now (length dst.old))).value written.old }
{
    donglora::donglora_cobs_decode(src, dst, written)
}

// Writes the frame of a command from its type, tag and payload, and stores the count of bytes in
// written.
#[unsafe(no_mangle)]
pub extern "C" fn donglora_write_command(
    kind: u8,
    tag: u16,
    payload: &[u8],
    dst: &mut [u8],
    written: &mut usize,
) -> u8
    ensures value { result ≡ (written_result (write_answer Kinds.Commands kind tag payload.now (length dst.old))).number }
    ensures dst_after { dst.new ≡ write_left Kinds.Commands kind tag payload.now dst.old }
    ensures written_after { written.new
        ≡ value_or (written_result (write_answer Kinds.Commands kind tag payload.now (length dst.old))).value written.old }
{
    donglora::donglora_write_command(kind, tag, payload, dst, written)
}

// Reads a frame of whatever type and tag, and puts its body at the start of body.
#[unsafe(no_mangle)]
pub extern "C" fn donglora_read_frame(run: &[u8], body: &mut [u8]) -> MessageReport
    ensures value { result ≡ message_report (opened_result (open_answer run.now (length body.old))) }
    ensures body_after { body.new ≡ open_left run.now body.old }
{
    donglora::donglora_read_frame(run, body)
}

// Reads the frame of an answer, where an OK is that to a command, and puts its body at the start of
// body.
#[unsafe(no_mangle)]
pub extern "C" fn donglora_read_answer(command: u8, run: &[u8], body: &mut [u8]) -> MessageReport
    ensures value { result ≡ message_report (opened_result (receive_answer (Kinds.Answers (name_in command)) run.now (length body.old))) }
    ensures body_after { body.new ≡ receive_left (Kinds.Answers (name_in command)) run.now body.old }
{
    donglora::donglora_read_answer(command, run, body)
}

// Reads the frame of an RX, and puts its body at the start of body.
#[unsafe(no_mangle)]
pub extern "C" fn donglora_read_rx(run: &[u8], body: &mut [u8]) -> RxReport
    ensures value { result ≡ rx_report (opened_result (receive_answer Kinds.Rx run.now (length body.old))) (decoded run.now) }
    ensures body_after { body.new ≡ receive_left Kinds.Rx run.now body.old }
{
    donglora::donglora_read_rx(run, body)
}

// Reads the frame of a TX_DONE, and puts its body at the start of body.
#[unsafe(no_mangle)]
pub extern "C" fn donglora_read_tx_done(run: &[u8], body: &mut [u8]) -> TxDoneReport
    ensures value { result
        ≡ tx_done_report (opened_result (receive_answer Kinds.TxDone run.now (length body.old))) (decoded run.now) }
    ensures body_after { body.new ≡ receive_left Kinds.TxDone run.now body.old }
{
    donglora::donglora_read_tx_done(run, body)
}

// The time on air of a packet, stored in us.
#[unsafe(no_mangle)]
pub extern "C" fn donglora_airtime(air: Transmission, us: &mut u32) -> u8
    ensures value { result ≡ (airtime air).number }
    ensures us_after { us.new ≡ value_or (airtime air).value us.old }
{
    donglora::donglora_airtime(air, us)
}
