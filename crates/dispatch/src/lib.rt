// A command that was received: judged, and carried out. 01 "A run of bytes becomes a frame", steps 2
// to 7, and "What each event does".
#![tactic(auto)]

ghost use Rattle.std.specs.Prelude.{◌≡◌, ◌≤◌, ◌<◌, length};
ghost use Rattle.board.specs.Board.{tx_max};
ghost use Rattle.device.specs.Events.{room_min};
ghost use Rattle.device.specs.Events as E;
ghost use Rattle.control.specs.Control.{Gives, unconfigured};
ghost use Rattle.slot.specs.Slots.{kept_max};
ghost use Rattle.dispatch.specs.Commands.{CommandTaken, open#, on_tx, on_set, turned, at_once, dispatched};

use board::TX_MAX;
use control::{Air, Device, Mode, Order, Radio, Taken};
use kind::{CANCELLED, GET_INFO, OK, RX_START, RX_STOP, SET_CONFIG, TX};
use slot::{COMMANDS, SETTING};

// A frame with a type, a tag and a payload: what draws an ERR does nothing else. Internal: callers
// prove that there is room.
pub fn dispatch(
    d: Device,
    kind: u8,
    tag: u16,
    payload: &[u8],
    commands: &mut [u8; COMMANDS],
    out: &mut [u8],
) -> Taken
    requires { room_min ≤ length out.old }
    ensures { CommandTaken (dispatched kind tag payload.now commands.old d)
        out.old result out.new commands.new }
{
    let mode = d.mode;
    let air = d.air;
    let unconfigured = is_unconfigured(mode);
    let count = count_open(air);
    let code = validation::error_code(unconfigured, count, kind, payload);
    if code != validation::NO_ERROR {
        let w = emit::write_err(code, tag, out, 0);
        return control::done(d, w, Order::Nothing);
    }
    if kind == TX {
        return tx(d, tag, payload, commands, out);
    }
    if kind == SET_CONFIG {
        return set_config(d, tag, payload, commands, out);
    }
    at_once(d, kind, tag, out)
}

// A TX that is taken.
fn tx(d: Device, tag: u16, payload: &[u8], commands: &mut [u8; COMMANDS], out: &mut [u8]) -> Taken
    requires room_min_in_bounds { room_min ≤ length out.old }
    requires in_bounds { (1 ≤ length payload.now) × (length payload.now ≤ kept_max) }
    requires air_bound { open# d.air < tx_max }
    ensures { CommandTaken (on_tx tag payload.now commands.old d) out.old result out.new commands.new }
{
    let was = d.air;
    let radio = was.radio;
    let waiting = was.waiting;
    let slot = (was.first as usize + waiting as usize) % TX_MAX;
    slot::keep(slot, tag, payload, commands);
    let w = emit::write_ok(tag, out, 0);
    if control::is_free(radio) {
        return queue::start(d, slot, waiting, commands, w);
    }
    let more = waiting + 1;
    let air = Air {
        radio,
        pending: was.pending,
        first: was.first,
        waiting: more,
    };
    let e = control::with_air(d, air);
    control::done(e, w, Order::Nothing)
}

// A SET_CONFIG that is taken. Its OK comes when the radio is configured.
fn set_config(
    d: Device,
    tag: u16,
    payload: &[u8],
    commands: &mut [u8; COMMANDS],
    out: &mut [u8],
) -> Taken
    requires room_min_in_bounds { room_min ≤ length out.old }
    requires in_bounds { (1 ≤ length payload.now) × (length payload.now ≤ kept_max) }
    ensures { CommandTaken (on_set tag payload.now commands.old d) out.old result out.new commands.new }
{
    slot::keep(SETTING, tag, payload, commands);
    let held = d.inbox;
    let emptied = control::empty_ring(held);
    let e = control::with_inbox(d, emptied);
    let was = d.air;
    let radio = was.radio;
    match radio {
        Radio::Listening(t) => {
            let w = emit::write_tx_done(CANCELLED, 0, t, out, 0);
            return queue::configure(e, commands, out, w);
        }
        Radio::OnAir(_) | Radio::Orphan => {
            let air = Air {
                radio,
                pending: true,
                first: was.first,
                waiting: was.waiting,
            };
            let f = control::with_air(e, air);
            return control::done(f, 0, Order::Nothing);
        }
        _ => {
            return queue::configure(e, commands, out, 0);
        }
    }
}

// A command that is answered at once.
fn at_once(d: Device, kind: u8, tag: u16, out: &mut [u8]) -> Taken
    requires { room_min ≤ length out.old }
    ensures { Gives (at_once kind tag d) out.old 0 result out.new }
{
    if kind == RX_START {
        return turn(d, true, tag, out);
    }
    if kind == RX_STOP {
        return turn(d, false, tag, out);
    }
    if kind == GET_INFO {
        let info = board::info();
        let w = emit::write(OK, tag, &info, out, 0);
        return control::done(d, w, Order::Nothing);
    }
    let w = emit::write_ok(tag, out, 0);
    control::done(d, w, Order::Nothing)
}

// Whether a device is UNCONFIGURED.
fn is_unconfigured(m: Mode) -> bool
    ensures { result ≡ unconfigured m }
{
    match m {
        Mode::Unconfigured => true,
        Mode::Lora => false,
        Mode::Fsk => false,
    }
}

// How many TX are open: with the radio, and waiting.
fn count_open(a: Air) -> usize
    ensures { result ≡ open# a }
{
    let n = a.waiting as usize;
    let radio = a.radio;
    match radio {
        Radio::Free => n,
        Radio::Listening(_) => 1 + n,
        Radio::OnAir(_) => 1 + n,
        Radio::Orphan => n,
        Radio::Configuring => n,
    }
}

// RX_START and RX_STOP: receiving is turned on or off.
fn turn(d: Device, on: bool, tag: u16, out: &mut [u8]) -> Taken
    requires { room_min ≤ length out.old }
    ensures { Gives (turned on tag d) out.old 0 result out.new }
{
    let was = d.inbox;
    let air = d.air;
    let radio = air.radio;
    let w = emit::write_ok(tag, out, 0);
    let inbox = control::with_receiving(was, on);
    let e = control::with_inbox(d, inbox);
    if control::is_free(radio) & changed(on, was.receiving) {
        return control::done(e, w, control::idle(on));
    }
    control::done(e, w, Order::Nothing)
}

// Whether turning receiving on or off is a change.
fn changed(on: bool, was: bool) -> bool
    ensures { result ≡ E.changed on was }
{
    if on {
        return !was;
    }
    was
}
