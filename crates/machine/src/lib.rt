// The device in code as one function: any of the ten events, with the state and its memories.
#![tactic(auto)]

ghost use Rattle.std.specs.Prelude.{◌≡◌};
ghost use Rattle.control.specs.Control.{reply_numbers};
ghost use Rattle.machine.specs.Machine.{event_of, leaves};

use control::{Device, Reply};
use inbox::{PACKETS, PacketStatus};
use link::RUN_MAX;
use slot::COMMANDS;

// The events: 01 "The tally behind demand 3". Sent has the airtime in us; a packet's bytes are lent
// beside it.
#[derive(Clone, Copy)]
pub enum Event {
    Byte(u8),
    Tick,
    Clear,
    Busy,
    Sent(u32),
    Configured,
    Fault,
    Packet(PacketStatus),
    Request,
    Disconnect,
}

// An event: bytes are those of a packet, and no other event looks at them.
pub fn step(
    d: Device,
    e: Event,
    bytes: &[u8],
    run: &mut [u8; RUN_MAX],
    commands: &mut [u8; COMMANDS],
    packets: &mut [u8; PACKETS],
    out: &mut [u8],
) -> Reply
    ensures { leaves
        (record { device = d; run = run.old; commands = commands.old; packets = packets.old })
        (record { event = event_of e bytes.now; out = out.old })
        ≡ record {
          device = result.device;
          answer = reply_numbers result;
          run = run.new;
          commands = commands.new;
          packets = packets.new;
          out = out.new;
        } }
{
    let room = out.len();
    match e {
        Event::Byte(b) => {
            return link::byte(d, b, run, commands, out);
        }
        Event::Tick => {
            return session::tick(d, room);
        }
        Event::Clear => {
            return outcome::clear(d, room);
        }
        Event::Busy => {
            return outcome::busy(d, commands, out);
        }
        Event::Sent(airtime) => {
            return outcome::sent(d, airtime, commands, out);
        }
        Event::Configured => {
            return outcome::configured(d, commands, out);
        }
        Event::Fault => {
            return outcome::fault(d, commands, out);
        }
        Event::Packet(h) => {
            return inbox::packet(d, h, bytes, packets, room);
        }
        Event::Request => {
            return inbox::request(d, packets, out);
        }
        Event::Disconnect => {
            return session::disconnect(d, room);
        }
    }
}
