// The device's messages on the wire: each is written as a frame to lent output, from an index on.
// Internal: callers prove that there is room.
#![tactic(auto)]

ghost use Rattle.std.specs.Prelude.{◌+◌, ◌≤◌, length};
ghost use Rattle.cobs.specs.Encoding.{worst};
ghost use Rattle.frame.specs.Body.{overhead, payload_max};
ghost use Rattle.device.specs.Messages.{frame, seen, ok, err, tx_done};
ghost use Rattle.emit.specs.Emitting.{ok_room, err_room, done_room, Writes};

use frame::Written;
use kind::{ERR, OK, TX_DONE};

// Writes a frame to out, from index at on, and answers where it ends.
pub fn write(kind: u8, tag: u16, payload: &[u8], out: &mut [u8], at: usize) -> usize
    requires payload_len_bound { length payload.now ≤ payload_max }
    requires overhead_in_bounds { at + (worst (length payload.now + overhead) + 1) ≤ length out.old }
    ensures { Writes (frame kind tag payload.now) out.old at result out.new }
{
    match frame::write(kind, tag, payload, &mut out[at..]) {
        Written::Done(n) => at + n,
        Written::Refused(_) => at,
    }
}

// OK without a payload: P 6.7.
pub fn write_ok(tag: u16, out: &mut [u8], at: usize) -> usize
    requires { at + ok_room ≤ length out.old }
    ensures { Writes (seen (ok tag)) out.old at result out.new }
{
    write(OK, tag, &[], out, at)
}

// ERR: P 6.8.
pub fn write_err(code: u16, tag: u16, out: &mut [u8], at: usize) -> usize
    requires { at + err_room ≤ length out.old }
    ensures { Writes (seen (err code tag)) out.old at result out.new }
{
    let payload = scalar::bytes_of_u16(code);
    write(ERR, tag, &payload, out, at)
}

// TX_DONE: P 6.10.
pub fn write_tx_done(res: u8, airtime: u32, tag: u16, out: &mut [u8], at: usize) -> usize
    requires { at + done_room ≤ length out.old }
    ensures { Writes (seen (tx_done res airtime tag)) out.old at result out.new }
{
    let payload = payload::tx_done_bytes(res, airtime);
    write(TX_DONE, tag, &payload, out, at)
}
