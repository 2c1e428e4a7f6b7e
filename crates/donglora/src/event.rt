// Power-up and the ten events, for C: each is the function of its name in crate ffi_device or ffi_radio, with
// the same contract.
ghost use Rattle.std.specs.Prelude.{◌≡◌};
ghost use Rattle.outcome.specs.Outcomes.{clear_out, busy_out, sent_out, fault_out, configured_out};
ghost use Rattle.session.specs.Session.{tick_out, disconnect_out};
ghost use Rattle.inbox.specs.Packets.{received_packet};
ghost use Rattle.ffi_device.specs.Calls.{first_dongle, state_call, byte_call, outcome_call, packet_call, request_call};
ghost use Rattle.ffi_radio.specs.PacketStatus.{status_in};

use ffi_radio::PacketReport;
use inbox::PACKETS;
use link::RUN_MAX;
use packed::{ANSWER, CONTROL};
use slot::COMMANDS;

// Power-up: the first state, and memories filled with zero.
pub fn donglora_power_up(
    control: &mut [u64; CONTROL],
    run: &mut [u8; RUN_MAX],
    commands: &mut [u8; COMMANDS],
    packets: &mut [u8; PACKETS],
)
    ensures { first_dongle
        ≡ record { control = control.new; run = run.new; commands = commands.new; packets = packets.new } }
{
    ffi_device::power_up(control, run, commands, packets);
}

// A byte from the host.
pub fn donglora_byte(
    control: &mut [u64; CONTROL],
    b: u8,
    run: &mut [u8; RUN_MAX],
    commands: &mut [u8; COMMANDS],
    out: &mut [u8],
    answer: &mut [u64; ANSWER],
)
    ensures { byte_call b (record { control = control.old; run = run.old; commands = commands.old; out = out.old })
        ≡ record {
          control = control.new;
          run = run.new;
          commands = commands.new;
          out = out.new;
          answer = answer.new;
        } }
{
    ffi_device::byte(control, b, run, commands, out, answer);
}

// A millisecond has passed.
pub fn donglora_tick(control: &mut [u64; CONTROL], room: usize, answer: &mut [u64; ANSWER])
    ensures { state_call tick_out (record { control = control.old; room = room })
        ≡ record { control = control.new; answer = answer.new } }
{
    ffi_device::tick(control, room, answer);
}

// The host is gone.
pub fn donglora_disconnect(control: &mut [u64; CONTROL], room: usize, answer: &mut [u64; ANSWER])
    ensures { state_call disconnect_out (record { control = control.old; room = room })
        ≡ record { control = control.new; answer = answer.new } }
{
    ffi_device::disconnect(control, room, answer);
}

// The channel is clear.
pub fn donglora_clear(control: &mut [u64; CONTROL], room: usize, answer: &mut [u64; ANSWER])
    ensures { state_call clear_out (record { control = control.old; room = room })
        ≡ record { control = control.new; answer = answer.new } }
{
    ffi_radio::clear(control, room, answer);
}

// The channel is busy.
pub fn donglora_busy(
    control: &mut [u64; CONTROL],
    commands: &[u8; COMMANDS],
    out: &mut [u8],
    answer: &mut [u64; ANSWER],
)
    ensures { outcome_call busy_out (record { control = control.old; commands = commands.now; out = out.old })
        ≡ record { control = control.new; out = out.new; answer = answer.new } }
{
    ffi_radio::busy(control, commands, out, answer);
}

// The TX has been sent, with its airtime in us.
pub fn donglora_sent(
    control: &mut [u64; CONTROL],
    airtime: u32,
    commands: &[u8; COMMANDS],
    out: &mut [u8],
    answer: &mut [u64; ANSWER],
)
    ensures { outcome_call (sent_out airtime) (record { control = control.old; commands = commands.now; out = out.old })
        ≡ record { control = control.new; out = out.new; answer = answer.new } }
{
    ffi_radio::sent(control, airtime, commands, out, answer);
}

// The radio is configured.
pub fn donglora_configured(
    control: &mut [u64; CONTROL],
    commands: &[u8; COMMANDS],
    out: &mut [u8],
    answer: &mut [u64; ANSWER],
)
    ensures { outcome_call configured_out (record { control = control.old; commands = commands.now; out = out.old })
        ≡ record { control = control.new; out = out.new; answer = answer.new } }
{
    ffi_radio::configured(control, commands, out, answer);
}

// The radio has failed.
pub fn donglora_fault(
    control: &mut [u64; CONTROL],
    commands: &[u8; COMMANDS],
    out: &mut [u8],
    answer: &mut [u64; ANSWER],
)
    ensures { outcome_call fault_out (record { control = control.old; commands = commands.now; out = out.old })
        ≡ record { control = control.new; out = out.new; answer = answer.new } }
{
    ffi_radio::fault(control, commands, out, answer);
}

// A packet was received.
pub fn donglora_packet(
    control: &mut [u64; CONTROL],
    heard: PacketReport,
    bytes: &[u8],
    packets: &mut [u8; PACKETS],
    room: usize,
    answer: &mut [u64; ANSWER],
)
    ensures { packet_call (received_packet (status_in heard) bytes.now)
        (record { control = control.old; packets = packets.old; room = room })
        ≡ record { control = control.new; packets = packets.new; answer = answer.new } }
{
    ffi_radio::packet(control, heard, bytes, packets, room, answer);
}

// The host can take a packet.
pub fn donglora_request(
    control: &mut [u64; CONTROL],
    packets: &mut [u8; PACKETS],
    out: &mut [u8],
    answer: &mut [u64; ANSWER],
)
    ensures { request_call (record { control = control.old; packets = packets.old; out = out.old })
        ≡ record { control = control.new; packets = packets.new; out = out.new; answer = answer.new } }
{
    ffi_device::request(control, packets, out, answer);
}
