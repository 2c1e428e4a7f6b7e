// The events of the radio's side, for callers that keep the state in words: its outcomes, and a packet
// that was received.
#![tactic(auto)]

ghost use Rattle.std.specs.Prelude.{◌≡◌};
ghost use Rattle.outcome.specs.Outcomes.{clear_out, busy_out, sent_out, fault_out, configured_out};
ghost use Rattle.inbox.specs.Packets.{received_packet};
ghost use Rattle.ffi_device.specs.Calls.{state_call, outcome_call, packet_call};
ghost use Rattle.ffi_radio.specs.PacketStatus.{status_in};

use inbox::{PACKETS, PacketStatus};
use packed::{ANSWER, CONTROL};
use slot::COMMANDS;

// The status of a received packet, for C: struct donglora_packet_status.
#[repr(C)]
#[derive(Clone, Copy)]
pub struct PacketReport {
    pub rssi: i16,
    pub snr: i16,
    pub freq_err: i32,
    pub timestamp_us: u64,
    pub crc_valid: u8,
}

// The status of a received packet.
fn status_of(h: PacketReport) -> PacketStatus
    ensures { result ≡ status_in h }
{
    PacketStatus {
        rssi: h.rssi,
        snr: h.snr,
        freq_err: h.freq_err,
        timestamp_us: h.timestamp_us,
        crc_valid: h.crc_valid != 0,
    }
}

// The channel is clear.
pub fn clear(control: &mut [u64; CONTROL], room: usize, answer: &mut [u64; ANSWER])
    ensures { state_call clear_out (record { control = control.entry.now; room = room })
        ≡ record { control = control.exit.now; answer = answer.new } }
{
    let d = packed::device_of(control);
    let a = outcome::clear(d, room);
    packed::store(a, control, answer);
}

// The channel is busy.
pub fn busy(
    control: &mut [u64; CONTROL],
    commands: &[u8; COMMANDS],
    out: &mut [u8],
    answer: &mut [u64; ANSWER],
)
    ensures { outcome_call busy_out (record { control = control.entry.now; commands = commands.now; out = out.old })
        ≡ record { control = control.exit.now; out = out.new; answer = answer.new } }
{
    let d = packed::device_of(control);
    let a = outcome::busy(d, commands, out);
    packed::store(a, control, answer);
}

// The TX has been sent, with its airtime in us.
pub fn sent(
    control: &mut [u64; CONTROL],
    airtime: u32,
    commands: &[u8; COMMANDS],
    out: &mut [u8],
    answer: &mut [u64; ANSWER],
)
    ensures { outcome_call (sent_out airtime) (record { control = control.entry.now; commands = commands.now; out = out.old })
        ≡ record { control = control.exit.now; out = out.new; answer = answer.new } }
{
    let d = packed::device_of(control);
    let a = outcome::sent(d, airtime, commands, out);
    packed::store(a, control, answer);
}

// The radio is configured.
pub fn configured(
    control: &mut [u64; CONTROL],
    commands: &[u8; COMMANDS],
    out: &mut [u8],
    answer: &mut [u64; ANSWER],
)
    ensures { outcome_call configured_out (record { control = control.entry.now; commands = commands.now; out = out.old })
        ≡ record { control = control.exit.now; out = out.new; answer = answer.new } }
{
    let d = packed::device_of(control);
    let a = outcome::configured(d, commands, out);
    packed::store(a, control, answer);
}

// The radio has failed.
pub fn fault(
    control: &mut [u64; CONTROL],
    commands: &[u8; COMMANDS],
    out: &mut [u8],
    answer: &mut [u64; ANSWER],
)
    ensures { outcome_call fault_out (record { control = control.entry.now; commands = commands.now; out = out.old })
        ≡ record { control = control.exit.now; out = out.new; answer = answer.new } }
{
    let d = packed::device_of(control);
    let a = outcome::fault(d, commands, out);
    packed::store(a, control, answer);
}

// A packet was received.
pub fn packet(
    control: &mut [u64; CONTROL],
    heard: PacketReport,
    bytes: &[u8],
    packets: &mut [u8; PACKETS],
    room: usize,
    answer: &mut [u64; ANSWER],
)
    ensures { packet_call (received_packet (status_in heard) bytes.now)
        (record { control = control.entry.now; packets = packets.old; room = room })
        ≡ record { control = control.exit.now; packets = packets.new; answer = answer.new } }
{
    let d = packed::device_of(control);
    let h = status_of(heard);
    let a = inbox::packet(d, h, bytes, packets, room);
    packed::store(a, control, answer);
}
