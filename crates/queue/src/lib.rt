// The commands that were taken and are not done: the TX that are with the radio or wait, and the
// SET_CONFIG that waits or runs. Internal to the events.
#![tactic(auto)]

ghost use Rattle.std.specs.Prelude.{◌≡◌, ◌+◌, ◌*◌, ◌≤◌, ◌<◌, min, length};
ghost use Rattle.board.specs.Board.{tx_max};
ghost use Rattle.control.specs.Control.{Gives, done_at};
ghost use Rattle.emit.specs.Emitting.{frames_bytes, done_room};
ghost use Rattle.buffer.specs.Lay.{lay};
ghost use Rattle.queue.specs.Queue.{cancel_room, listens, begun, start, waiting_tags, cancels, ldro_at, begin, after_tx};

use board::TX_MAX;
use command::FLAGS_SIZE;
use control::{Air, Device, Mode, Order, Radio, Taken};
use kind::CANCELLED;
use modulation::{BW, PARAMS, SF};
use slot::{COMMANDS, PAYLOAD_AT, SETTING, SLOT_SIZE, TAG_AT};

// Where the packet stands in the slot of a TX, after its flags.
const PACKET_AT: usize = PAYLOAD_AT + FLAGS_SIZE;
// Where sf and bw stand in the payload of a SET_CONFIG.
const SF_AT: usize = PARAMS + SF;

const BW_AT: usize = PARAMS + BW;

// Whether a TX listens first.
fn listens(mode: Mode, flags: u8) -> bool
    ensures { result ≡ listens mode flags }
{
    match mode {
        Mode::Unconfigured => false,
        Mode::Lora => flags == 0,
        Mode::Fsk => false,
    }
}

// The radio with a TX that has started.
fn begun(listen: bool, tag: u16) -> Radio
    ensures { result ≡ begun listen tag }
{
    if listen {
        return Radio::Listening(tag);
    }
    Radio::OnAir(tag)
}

// The TX in a slot starts; so many wait in the slots after it.
pub fn start(d: Device, slot: usize, waiting: u8, commands: &[u8; COMMANDS], at: usize) -> Taken
    requires { slot < tx_max }
    ensures { result ≡ done_at at (start commands.now slot waiting d) }
{
    let base = slot * SLOT_SIZE;
    let len = slot::len_at(commands, base);
    let tag = scalar::u16_at(commands, base + TAG_AT);
    let mode = d.mode;
    let listen = listens(mode, commands[base + PAYLOAD_AT]);
    let radio = begun(listen, tag);
    let first = ((slot + 1) % TX_MAX) as u8;
    let air = Air {
        radio,
        pending: false,
        first,
        waiting,
    };
    let e = control::with_air(d, air);
    let order = Order::Transmit {
        at: base + PACKET_AT,
        len,
        listen,
    };
    control::done(e, at, order)
}

// Writes a TX_DONE 2 for each of n waiting TX, from a slot on, and answers where they end.
fn cancel(slot: usize, n: usize, commands: &[u8; COMMANDS], out: &mut [u8], at: usize) -> usize
    requires { (slot < tx_max) × (at + done_room * n ≤ length out.old) }
    ensures value { result ≡ at + length (frames_bytes (cancels (waiting_tags commands.now slot n))) }
    ensures out_after { out.new ≡ lay at (frames_bytes (cancels (waiting_tags commands.now slot n))) out.old }
{
    let mut k = slot;
    let mut left = n;
    let mut w = at;
    while 0 < left {
        let tag = scalar::u16_at(commands, k * SLOT_SIZE + TAG_AT);
        w = emit::write_tx_done(CANCELLED, 0, tag, out, w);
        k = (k + 1) % TX_MAX;
        left -= 1;
    }
    w
}

// So many TX wait: sixteen at most.
fn bounded(n: u8) -> usize
    ensures { result ≡ min n tx_max }
{
    let waiting = n as usize;
    if TX_MAX < waiting {
        return TX_MAX;
    }
    waiting
}

// LDRO of the SET_CONFIG.
fn ldro(commands: &[u8; COMMANDS]) -> bool
    ensures { result ≡ ldro_at commands.now }
{
    let at = SETTING * SLOT_SIZE + PAYLOAD_AT;
    let id = commands[at];
    if id == modulation::LORA {
        return board::slow(commands[at + SF_AT], commands[at + BW_AT]);
    }
    false
}

// The waiting TX are cancelled, and the radio is configured.
pub fn configure(d: Device, commands: &[u8; COMMANDS], out: &mut [u8], at: usize) -> Taken
    requires { at + cancel_room ≤ length out.old }
    ensures { Gives (begin commands.now d) out.old at result out.new }
{
    let was = d.air;
    let first = was.first;
    let slot = first as usize % TX_MAX;
    let n = bounded(was.waiting);
    let w = cancel(slot, n, commands, out, at);
    let air = Air {
        radio: Radio::Configuring,
        pending: false,
        first,
        waiting: 0,
    };
    let e = control::with_air(d, air);
    let base = SETTING * SLOT_SIZE;
    let len = slot::len_at(commands, base);
    let order = Order::Configure {
        at: base + PAYLOAD_AT,
        len: len + 1,
        ldro: ldro(commands),
    };
    control::done(e, w, order)
}

// What comes after a TX.
pub fn after_tx(d: Device, commands: &[u8; COMMANDS], out: &mut [u8], at: usize) -> Taken
    requires { at + cancel_room ≤ length out.old }
    ensures { Gives (after_tx commands.now d) out.old at result out.new }
{
    let was = d.air;
    if was.pending {
        return configure(d, commands, out, at);
    }
    let first = was.first;
    let waiting = was.waiting;
    if 0 < waiting {
        let slot = first as usize % TX_MAX;
        return start(d, slot, waiting - 1, commands, at);
    }
    let air = Air {
        radio: Radio::Free,
        pending: false,
        first,
        waiting: 0,
    };
    let receiving = d.inbox.receiving;
    let e = control::with_air(d, air);
    control::done(e, at, control::idle(receiving))
}
