// Commands and answers, as values, written as bodies and frames: 01 "Numbers that come back". The
// host writes commands, the device writes answers.
#![tactic(auto)]

ghost use Rattle.std.specs.Prelude.{◌≡◌, cond, length};
ghost use Rattle.frame.specs.Writing.{written_result};
ghost use Rattle.kind.specs.Kinds.{tag_wrong};
ghost use Rattle.command.specs.Commands.{command_bytes, command_kind};
ghost use Rattle.answer.specs.Answers.{answer_bytes, answer_kind, answer_name};
ghost use Rattle.writer.specs.Writing.{body_answer, body_left, write_answer, write_left};

use answer::Answer;
use command::Command;
use frame::Written;
use info::INFO_SIZE;
use kind::PACKET_MAX;
use status::Refusal;
use wellformed::Kinds;

// The longest payload that a packet's bytes may be put into, the longest of variable length: an OK to
// GET_INFO, with its fields and one more before them.
const MEMORY: usize = INFO_SIZE + 1 + PACKET_MAX;

// Builds the body of a command, with its bytes of variable length.
pub fn build_command(c: Command, tag: u16, bytes: &[u8], dst: &mut [u8]) -> Written
    ensures result_value { written_result result
        ≡ written_result (body_answer Kinds.Commands (command_kind c) tag (command_bytes c bytes.now) (length dst.old)) }
    ensures dst_after { dst.new ≡ body_left Kinds.Commands (command_kind c) tag (command_bytes c bytes.now) dst.old }
{
    let kind = command::command_kind(c);
    if PACKET_MAX < bytes.len() {
        return too_long(kind, tag);
    }
    let mut memory = [0u8; MEMORY];
    let n = command::put_command(c, bytes, &mut memory);
    writer::build(Kinds::Commands, kind, tag, &memory[..n], dst)
}

// Writes the frame of a command, with its bytes of variable length.
pub fn write_command(c: Command, tag: u16, bytes: &[u8], dst: &mut [u8]) -> Written
    ensures result_value { written_result result
        ≡ written_result (write_answer Kinds.Commands (command_kind c) tag (command_bytes c bytes.now) (length dst.old)) }
    ensures dst_after { dst.new ≡ write_left Kinds.Commands (command_kind c) tag (command_bytes c bytes.now) dst.old }
{
    let kind = command::command_kind(c);
    if PACKET_MAX < bytes.len() {
        return too_long(kind, tag);
    }
    let mut memory = [0u8; MEMORY];
    let n = command::put_command(c, bytes, &mut memory);
    writer::write(Kinds::Commands, kind, tag, &memory[..n], dst)
}

// Builds the body of an answer, with its bytes of variable length.
pub fn build_answer(a: Answer, tag: u16, bytes: &[u8], dst: &mut [u8]) -> Written
    ensures result_value { written_result result
        ≡ written_result (body_answer (Kinds.Answers (answer_name a)) (answer_kind a) tag (answer_bytes a bytes.now) (length dst.old)) }
    ensures dst_after { dst.new ≡ body_left (Kinds.Answers (answer_name a)) (answer_kind a) tag (answer_bytes a bytes.now) dst.old }
{
    let kind = answer::answer_kind(a);
    if PACKET_MAX < bytes.len() {
        return too_long(kind, tag);
    }
    let name = answer::answer_name(a);
    let mut memory = [0u8; MEMORY];
    let n = payload::put_answer(a, bytes, &mut memory);
    writer::build(Kinds::Answers(name), kind, tag, &memory[..n], dst)
}

// Writes the frame of an answer, with its bytes of variable length.
pub fn write_answer(a: Answer, tag: u16, bytes: &[u8], dst: &mut [u8]) -> Written
    ensures result_value { written_result result
        ≡ written_result (write_answer (Kinds.Answers (answer_name a)) (answer_kind a) tag (answer_bytes a bytes.now) (length dst.old)) }
    ensures dst_after { dst.new ≡ write_left (Kinds.Answers (answer_name a)) (answer_kind a) tag (answer_bytes a bytes.now) dst.old }
{
    let kind = answer::answer_kind(a);
    if PACKET_MAX < bytes.len() {
        return too_long(kind, tag);
    }
    let name = answer::answer_name(a);
    let mut memory = [0u8; MEMORY];
    let n = payload::put_answer(a, bytes, &mut memory);
    writer::write(Kinds::Answers(name), kind, tag, &memory[..n], dst)
}

// What writing answers where the bytes are too long for any message: TAG, then FORM.
fn too_long(kind: u8, tag: u16) -> Written
    ensures { result ≡ Written.Refused (cond (tag_wrong kind tag) Refusal.Tag Refusal.Form) }
{
    if kind::tag_wrong(kind, tag) {
        return Written::Refused(Refusal::Tag);
    }
    Written::Refused(Refusal::Form)
}
