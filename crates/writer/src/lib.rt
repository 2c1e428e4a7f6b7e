// Messages written as bodies and frames, by type, tag and payload: 01 "Numbers that come back".
#![tactic(auto)]

ghost use Rattle.std.specs.Prelude.{◌≡◌, length};
ghost use Rattle.frame.specs.Writing.{written_result};
ghost use Rattle.writer.specs.Writing.{body_answer, body_left, write_answer, write_left};

use frame::Written;
use wellformed::{Checked, Kinds};

// Builds the body of a message from its type, tag and payload.
pub fn build(kinds: Kinds, kind: u8, tag: u16, payload: &[u8], dst: &mut [u8]) -> Written
    ensures result_value { written_result result ≡ written_result (body_answer kinds kind tag payload.now (length dst.old)) }
    ensures dst_after { dst.new ≡ body_left kinds kind tag payload.now dst.old }
{
    let fits = wellformed::fits_written(kinds, kind, payload);
    match wellformed::check(kinds, kind, tag, fits) {
        Checked::Good => frame::build(kind, tag, payload, dst),
        Checked::Refused(r) => Written::Refused(r),
    }
}

// Writes the frame of a message from its type, tag and payload.
pub fn write(kinds: Kinds, kind: u8, tag: u16, payload: &[u8], dst: &mut [u8]) -> Written
    ensures result_value { written_result result ≡ written_result (write_answer kinds kind tag payload.now (length dst.old)) }
    ensures dst_after { dst.new ≡ write_left kinds kind tag payload.now dst.old }
{
    let fits = wellformed::fits_written(kinds, kind, payload);
    match wellformed::check(kinds, kind, tag, fits) {
        Checked::Good => frame::write(kind, tag, payload, dst),
        Checked::Refused(r) => Written::Refused(r),
    }
}
