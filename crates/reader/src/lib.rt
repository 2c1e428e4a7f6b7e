// Messages read from frames: 01 "Numbers that come back". The host reads answers, the device reads
// commands.
#![tactic(auto)]

ghost use Rattle.std.specs.Prelude.{◌≡◌, length};
ghost use Rattle.cobs.specs.Decoding.{decoded};
ghost use Rattle.frame.specs.Reading.{opened_result};
ghost use Rattle.reader.specs.Reading.{receive_answer, receive_left, kind_by, tag_by, part_by};

use cobs::ENCODED_MAX;
use frame::{OVERHEAD, Opened, PAYLOAD};
use status::TAKEN;
use wellformed::{Checked, Kinds};

// Reads a run, a frame without its zero, into lent memory. A refusal leaves every byte of it.
pub fn receive(kinds: Kinds, run: &[u8], dst: &mut [u8]) -> Opened
    ensures result_value { opened_result result ≡ opened_result (receive_answer kinds run.now (length dst.old)) }
    ensures dst_after { dst.new ≡ receive_left kinds run.now dst.old }
{
    let mut memory = [0u8; ENCODED_MAX];
    let opened = frame::unpack(run, dst.len(), &mut memory);
    let Opened::Body { kind, tag, len } = opened else {
        return opened;
    };
    let fits = wellformed::fits_read(kinds, kind, &memory[PAYLOAD..PAYLOAD + len]);
    if let Checked::Refused(r) = wellformed::check(kinds, kind, tag, fits) {
        return Opened::Refused(r);
    }
    buffer::copy(&memory[..len + OVERHEAD], dst, 0);
    Opened::Body { kind, tag, len }
}

// Reads a run into lent memory, and hands back the payload as a part of that memory. The number,
// the type and the tag come back beside it; a refusal hands back an empty part and leaves type and
// tag.
pub fn read<'a>(
    kinds: Kinds,
    run: &[u8],
    dst: &'a mut [u8],
    number: &mut u8,
    kind: &mut u8,
    tag: &mut u16,
) -> &'a mut [u8]
    ensures result_value { result.now ≡ part_by (opened_result (receive_answer kinds run.now (length dst.old))).value (decoded run.now) }
    ensures number_after { number.new ≡ (opened_result (receive_answer kinds run.now (length dst.old))).number }
    ensures kind_after { kind.new
        ≡ kind_by (opened_result (receive_answer kinds run.now (length dst.old))).value kind.old }
    ensures tag_after { tag.new ≡ tag_by (opened_result (receive_answer kinds run.now (length dst.old))).value tag.old }
{
    match receive(kinds, run, dst) {
        Opened::Body {
            kind: k,
            tag: t,
            len,
        } => {
            *number = TAKEN;
            *kind = k;
            *tag = t;
            &mut dst[PAYLOAD..PAYLOAD + len]
        }
        Opened::Refused(r) => {
            *number = status::refusal_number(r);
            &mut dst[..0]
        }
    }
}
