// Two of the ten events, reception: packet and request. 01 "What each event does".
#![tactic(auto)]

ghost use Rattle.std.specs.Prelude.{◌≡◌, ◌+◌, ◌≤◌, ◌<◌, [], length};
ghost use Rattle.buffer.specs.Lay.{lay};
ghost use Rattle.kind.specs.Kinds as K;
ghost use Rattle.device.specs.Messages.{frame, rx_value};
ghost use Rattle.device.specs.Messages as M;
ghost use Rattle.board.specs.Board.{ring_max};
ghost use Rattle.device.specs.Events.{cut, room_min};
ghost use Rattle.emit.specs.Emitting.{Writes};
ghost use Rattle.inbox.specs.Packets.{held_size, packets_size, held_bytes, packet_kept, counted, rx_payload_at, received_packet, more, packet_out, request_out};
ghost use Rattle.inbox.specs.Packets.{PacketTaken, RequestTaken};

use board::RING_MAX;
use control::{Device, Inbox, Order, ROOM_MIN, Reply};
use kind::{PACKET_MAX, RX};
use rx::{PACKETS_DROPPED, RX_SIZE, Rx};
use status::{PLACE, ROOM};

// How many packets are held, as a byte.
const RING: u8 = RING_MAX as u8;
// The slot of a packet: its length, RX's fields, and up to 255 bytes.
pub const HELD_SIZE: usize = 1 + RX_SIZE + PACKET_MAX;
// The memory of packets: 64 slots.
pub const PACKETS: usize = RING_MAX * HELD_SIZE;
// The highest drop count.
const DROPS_MAX: u16 = 65535;

// The status of a received packet, beside its bytes: RX's values, without those that the device
// adds.
#[derive(Clone, Copy)]
pub struct PacketStatus {
    pub rssi: i16,
    pub snr: i16,
    pub freq_err: i32,
    pub timestamp_us: u64,
    pub crc_valid: bool,
}

// A packet was received: its bytes go into the ring. It writes nothing, and asks only for the room
// that an event's output must have.
pub fn packet(
    d: Device,
    h: PacketStatus,
    bytes: &[u8],
    packets: &mut [u8; PACKETS],
    room: usize,
) -> Reply
    ensures { PacketTaken (packet_out room (received_packet h bytes.now) packets.old d) result packets.new }
{
    if room < ROOM_MIN {
        return control::refuse(d, ROOM);
    }
    let i = d.inbox;
    let air = d.air;
    let radio = air.radio;
    if i.receiving & control::is_free(radio) {
        let slot = (i.first as usize + i.held as usize) % RING_MAX;
        keep(slot, h, bytes, packets);
        let e = control::with_inbox(d, more(i));
        return control::accept(e, 0, Order::Nothing);
    }
    control::refuse(d, PLACE)
}

// One packet more.
fn more(i: Inbox) -> Inbox
    ensures { result ≡ more i }
{
    let held = i.held as usize;
    if held < RING_MAX {
        return Inbox {
            receiving: i.receiving,
            first: i.first,
            held: i.held + 1,
            drops: i.drops,
        };
    }
    let first = (i.first % RING + 1) % RING;
    if i.drops < DROPS_MAX {
        return Inbox {
            receiving: i.receiving,
            first,
            held: i.held,
            drops: i.drops + 1,
        };
    }
    Inbox {
        receiving: i.receiving,
        first,
        held: i.held,
        drops: DROPS_MAX,
    }
}

// Puts a packet into a slot; one over 255 bytes is cut.
fn keep(slot: usize, h: PacketStatus, bytes: &[u8], packets: &mut [u8; PACKETS])
    requires { slot < ring_max }
    ensures { packets.new ≡ packet_kept packets.old slot (cut (received_packet h bytes.now)) }
{
    let at = slot * HELD_SIZE;
    if PACKET_MAX < bytes.len() {
        let mut wrong = h;
        wrong.crc_valid = false;
        put(at, wrong, &bytes[..PACKET_MAX], packets);
        return;
    }
    put(at, h, bytes, packets);
}

// Yes or no as a byte.
fn yes(b: bool) -> u8
    ensures { result ≡ M.yes b }
{
    if b {
        return 1;
    }
    0
}

// RX's values of what was heard, without a drop count.
fn fields_of(h: PacketStatus) -> Rx
    ensures { result ≡ rx_value (received_packet h []) 0 }
{
    Rx {
        rssi: h.rssi,
        snr: h.snr,
        freq_err: h.freq_err,
        timestamp_us: h.timestamp_us,
        crc_valid: yes(h.crc_valid),
        packets_dropped: 0,
        origin: 0,
    }
}

// Writes a packet to memory, from index at on.
fn put(at: usize, h: PacketStatus, bytes: &[u8], memory: &mut [u8])
    requires bytes_len_bound { length bytes.now ≤ K.packet_max }
    requires held_size_in_bounds { at + held_size ≤ length memory.old }
    ensures { memory.new ≡ lay at (held_bytes (received_packet h bytes.now)) memory.old }
{
    let fields = rx::rx_bytes(fields_of(h));
    memory[at] = bytes.len() as u8;
    buffer::copy(&fields, memory, at + 1);
    buffer::copy(bytes, memory, at + 1 + RX_SIZE);
}

// The host asks for a packet: the oldest is delivered with the drop count.
pub fn request(d: Device, packets: &mut [u8; PACKETS], out: &mut [u8]) -> Reply
    ensures { RequestTaken (request_out (length out.old) packets.old d)
        out.old result out.new packets.new }
{
    if out.len() < ROOM_MIN {
        return control::refuse(d, ROOM);
    }
    let i = d.inbox;
    let held = i.held;
    if held == 0 {
        return control::accept(d, 0, Order::Nothing);
    }
    let slot = (i.first % RING) as usize;
    let w = deliver(slot, i.drops, packets, out);
    let first = ((slot + 1) % RING_MAX) as u8;
    let inbox = Inbox {
        receiving: i.receiving,
        first,
        held: held - 1,
        drops: 0,
    };
    let e = control::with_inbox(d, inbox);
    control::accept(e, w, Order::Nothing)
}

// Writes the RX in a slot, with the drop count put into it, and answers where it ends.
fn deliver(slot: usize, drops: u16, packets: &mut [u8], out: &mut [u8]) -> usize
    requires slot_lt_ring_max { slot < ring_max }
    requires packets_len { length packets.old ≡ packets_size }
    requires room_min_in_bounds { room_min ≤ length out.old }
    ensures packets_after { packets.new ≡ counted packets.old slot drops }
    ensures writes { Writes (frame K.RX 0 (rx_payload_at (counted packets.old slot drops) slot)) out.old 0 result out.new }
{
    let at = slot * HELD_SIZE;
    let n = packets[at] as usize;
    let count = scalar::bytes_of_u16(drops);
    let first = at + 1;
    buffer::copy(&count, packets, first + PACKETS_DROPPED);
    emit::write(RX, 0, &packets[first..first + RX_SIZE + n], out, 0)
}
