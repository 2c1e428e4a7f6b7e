// The memory of the commands that were taken and are not done, in slots: sixteen for TX, and one for
// the SET_CONFIG that waits or runs. Internal to the events.
#![tactic(auto)]

ghost use Rattle.std.specs.Prelude.{◌≡◌, ◌+◌, ◌≤◌, ◌<◌, length, get_or};
ghost use Rattle.buffer.specs.Lay.{lay};
ghost use Rattle.slot.specs.Slots.{kept_max, payload_offset, setting, slot_bytes, command_kept};

use board::TX_MAX;
use command::FLAGS_SIZE;
use kind::PACKET_MAX;

// The longest payload that is kept, a TX's: its flags and a packet.
pub const KEPT_MAX: usize = FLAGS_SIZE + PACKET_MAX;
// Where the tag and the payload stand in a slot, after the payload's length less one.
pub const TAG_AT: usize = 1;

pub const PAYLOAD_AT: usize = 3;

pub const SLOT_SIZE: usize = PAYLOAD_AT + KEPT_MAX;
// The slot of the SET_CONFIG, after those of the TX.
pub const SETTING: usize = TX_MAX;
// The memory of commands: seventeen slots.
pub const COMMANDS: usize = (SETTING + 1) * SLOT_SIZE;

// Puts a command into a slot.
pub fn keep(slot: usize, tag: u16, payload: &[u8], commands: &mut [u8; COMMANDS])
    requires slot_le_setting { slot ≤ setting }
    requires in_bounds { (1 ≤ length payload.now) × (length payload.now ≤ kept_max) }
    ensures { commands.new ≡ command_kept commands.old slot tag payload.now }
{
    put(slot * SLOT_SIZE, tag, payload, commands);
}

// Writes a command to memory, from index at on.
fn put(at: usize, tag: u16, payload: &[u8], memory: &mut [u8])
    requires payload_in_bounds { at + (payload_offset + length payload.now) ≤ length memory.old }
    requires in_bounds { (1 ≤ length payload.now) × (length payload.now ≤ kept_max) }
    ensures { memory.new ≡ lay at (slot_bytes tag payload.now) memory.old }
{
    let t = scalar::bytes_of_u16(tag);
    memory[at] = (payload.len() - 1) as u8;
    buffer::copy(&t, memory, at + TAG_AT);
    buffer::copy(payload, memory, at + PAYLOAD_AT);
}

// The length that stands at an index.
pub fn len_at(commands: &[u8], at: usize) -> usize
    requires { at < length commands.now }
    ensures { (result ≡ get_or commands.now at 0) × (result ≤ 255) }
{
    commands[at] as usize
}
