// Power-up, and the events of the host's side, for callers that keep the state in words: byte, tick,
// disconnect, request.
#![tactic(auto)]

ghost use Rattle.std.specs.Prelude.{◌≡◌};
ghost use Rattle.session.specs.Session.{tick_out, disconnect_out};
ghost use Rattle.ffi_device.specs.Calls.{first_dongle, state_call, byte_call, request_call};

use inbox::PACKETS;
use link::RUN_MAX;
use packed::{ANSWER, CONTROL};
use slot::COMMANDS;

// Power-up: the first state, and memories filled with zero.
pub fn power_up(
    control: &mut [u64; CONTROL],
    run: &mut [u8; RUN_MAX],
    commands: &mut [u8; COMMANDS],
    packets: &mut [u8; PACKETS],
)
    ensures { first_dongle
        ≡ record { control = control.exit.now; run = run.new; commands = commands.new; packets = packets.new } }
{
    *control = packed::control_words(control::power_up());
    *run = [0; RUN_MAX];
    *commands = [0; COMMANDS];
    *packets = [0; PACKETS];
}

// A byte from the host. Nearly every byte only joins the run: that way is apart, and short.
pub fn byte(
    control: &mut [u64; CONTROL],
    b: u8,
    run: &mut [u8; RUN_MAX],
    commands: &mut [u8; COMMANDS],
    out: &mut [u8],
    answer: &mut [u64; ANSWER],
)
    ensures { byte_call b (record { control = control.entry.now; run = run.old; commands = commands.old; out = out.old })
        ≡ record {
          control = control.exit.now;
          run = run.new;
          commands = commands.new;
          out = out.new;
          answer = answer.new;
        } }
{
    if b == 0 {
        let d = packed::device_of(control);
        let a = link::zero(d, run, commands, out);
        packed::store(a, control, answer);
        return;
    }
    let d = packed::device_of(control);
    let a = link::join(d, b, run, out.len());
    packed::store(a, control, answer);
}

// A millisecond has passed.
pub fn tick(control: &mut [u64; CONTROL], room: usize, answer: &mut [u64; ANSWER])
    ensures { state_call tick_out (record { control = control.entry.now; room = room })
        ≡ record { control = control.exit.now; answer = answer.new } }
{
    let d = packed::device_of(control);
    let a = session::tick(d, room);
    packed::store(a, control, answer);
}

// The host is gone.
pub fn disconnect(control: &mut [u64; CONTROL], room: usize, answer: &mut [u64; ANSWER])
    ensures { state_call disconnect_out (record { control = control.entry.now; room = room })
        ≡ record { control = control.exit.now; answer = answer.new } }
{
    let d = packed::device_of(control);
    let a = session::disconnect(d, room);
    packed::store(a, control, answer);
}

// The host can take a packet.
pub fn request(
    control: &mut [u64; CONTROL],
    packets: &mut [u8; PACKETS],
    out: &mut [u8],
    answer: &mut [u64; ANSWER],
)
    ensures { request_call (record { control = control.entry.now; packets = packets.old; out = out.old })
        ≡ record { control = control.exit.now; packets = packets.new; out = out.new; answer = answer.new } }
{
    let d = packed::device_of(control);
    let a = inbox::request(d, packets, out);
    packed::store(a, control, answer);
}
