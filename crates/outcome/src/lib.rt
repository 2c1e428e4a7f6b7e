// Five of the ten events, outcomes of the radio: clear, busy, sent, configured, fault.
// 01 "What each event does".
#![tactic(auto)]

ghost use Rattle.std.specs.Prelude.{◌≡◌, ◌≤◌, length};
ghost use Rattle.buffer.specs.Lay.{lay};
ghost use Rattle.device.specs.Events.{room_min};
ghost use Rattle.emit.specs.Emitting.{frames_bytes, Writes};
ghost use Rattle.control.specs.Control.{Gives, Returns, Replies};
ghost use Rattle.outcome.specs.Outcomes.{clear_out, busy_out, sent_out, mode_of, rearmed, ok_configured, in_force, configured_out};
ghost use Rattle.outcome.specs.Outcomes.{fault_frames, lost, failed, fault_out};

use answer::CONFIGURED_SIZE;
use control::{Device, Mode, Order, ROOM_MIN, Radio, Reply, Taken};
use kind::{APPLIED, CANCELLED, CHANNEL_BUSY, ERADIO, MINE, OK, TRANSMITTED};
use slot::{COMMANDS, KEPT_MAX, PAYLOAD_AT, SETTING, SLOT_SIZE, TAG_AT};
use status::{PLACE, ROOM};

// The OK to SET_CONFIG: result and owner, and the payload that was kept.
const OK_MAX: usize = CONFIGURED_SIZE + KEPT_MAX;

// The channel is clear: what listened is on air.
pub fn clear(d: Device, room: usize) -> Reply
    ensures { Returns (clear_out room d) result }
{
    if room < ROOM_MIN {
        return control::refuse(d, ROOM);
    }
    let was = d.air;
    let radio = was.radio;
    if let Radio::Listening(t) = radio {
        let air = control::with_radio(was, Radio::OnAir(t));
        let e = control::with_air(d, air);
        return control::accept(e, 0, Order::Nothing);
    }
    control::refuse(d, PLACE)
}

// The channel is busy: what listened is reported.
pub fn busy(d: Device, commands: &[u8; COMMANDS], out: &mut [u8]) -> Reply
    ensures { Replies (busy_out (length out.old) commands.now d) out.old result out.new }
{
    if out.len() < ROOM_MIN {
        return control::refuse(d, ROOM);
    }
    let was = d.air;
    let radio = was.radio;
    if let Radio::Listening(tag) = radio {
        let w = emit::write_tx_done(CHANNEL_BUSY, 0, tag, out, 0);
        return control::take(queue::after_tx(d, commands, out, w));
    }
    control::refuse(d, PLACE)
}

// What was on air has been sent, with its airtime in us: it is reported, unless it is an orphan.
pub fn sent(d: Device, airtime: u32, commands: &[u8; COMMANDS], out: &mut [u8]) -> Reply
    ensures { Replies (sent_out airtime (length out.old) commands.now d) out.old result out.new }
{
    if out.len() < ROOM_MIN {
        return control::refuse(d, ROOM);
    }
    let was = d.air;
    let radio = was.radio;
    match radio {
        Radio::OnAir(t) => {
            let w = emit::write_tx_done(TRANSMITTED, airtime, t, out, 0);
            return control::take(queue::after_tx(d, commands, out, w));
        }
        Radio::Orphan => {
            return control::take(queue::after_tx(d, commands, out, 0));
        }
        _ => {
            return control::refuse(d, PLACE);
        }
    }
}

// The radio is configured.
pub fn configured(d: Device, commands: &[u8; COMMANDS], out: &mut [u8]) -> Reply
    ensures { Replies (configured_out (length out.old) commands.now d) out.old result out.new }
{
    if out.len() < ROOM_MIN {
        return control::refuse(d, ROOM);
    }
    let was = d.air;
    let radio = was.radio;
    if let Radio::Configuring = radio {
        return control::take(in_force(d, commands, out));
    }
    control::refuse(d, PLACE)
}

// The configuration is in force and its OK is written, or its session has ended.
fn in_force(d: Device, commands: &[u8; COMMANDS], out: &mut [u8]) -> Taken
    requires { room_min ≤ length out.old }
    ensures { Gives (in_force d.link.session commands.now d) out.old 0 result out.new }
{
    let was = d.air;
    let air = control::with_radio(was, Radio::Free);
    let link = d.link;
    if link.session {
        let w = write_configured(commands, out);
        let mode = mode_of(commands[SETTING * SLOT_SIZE + PAYLOAD_AT]);
        let inbox = d.inbox;
        let order = rearm(inbox.receiving);
        let e = Device {
            mode,
            link,
            air,
            inbox,
        };
        return control::done(e, w, order);
    }
    let e = control::with_air(d, air);
    control::done(e, 0, Order::Standby)
}

// The mode that a modulation puts the device in.
fn mode_of(id: u8) -> Mode
    ensures { result ≡ mode_of id }
{
    if id == modulation::LORA {
        return Mode::Lora;
    }
    Mode::Fsk
}

// A radio that was receiving receives again.
fn rearm(receiving: bool) -> Order
    ensures { result ≡ rearmed receiving }
{
    if receiving {
        return Order::Receive;
    }
    Order::Nothing
}

// Writes the OK to the SET_CONFIG.
fn write_configured(commands: &[u8; COMMANDS], out: &mut [u8]) -> usize
    requires { room_min ≤ length out.old }
    ensures { Writes (ok_configured commands.now) out.old 0 result out.new }
{
    let base = SETTING * SLOT_SIZE;
    let len = slot::len_at(commands, base);
    let tag = scalar::u16_at(commands, base + TAG_AT);
    let current = buffer::part(commands, base + PAYLOAD_AT, len + 1);
    let mut payload = [0u8; OK_MAX];
    payload[0] = APPLIED;
    payload[1] = MINE;
    buffer::copy(current, &mut payload, CONFIGURED_SIZE);
    emit::write(OK, tag, &payload[..CONFIGURED_SIZE + len + 1], out, 0)
}

// The radio has failed.
pub fn fault(d: Device, commands: &[u8; COMMANDS], out: &mut [u8]) -> Reply
    ensures { Replies (fault_out (length out.old) commands.now d) out.old result out.new }
{
    if out.len() < ROOM_MIN {
        return control::refuse(d, ROOM);
    }
    let was = d.air;
    let radio = was.radio;
    match radio {
        Radio::Listening(t) => {
            return control::take(lost(d, t, commands, out));
        }
        Radio::OnAir(t) => {
            return control::take(lost(d, t, commands, out));
        }
        Radio::Configuring => {
            return control::take(failed(d, commands, out));
        }
        _ => {
            let link = d.link;
            let w = write_fault(link.session, 0, out);
            return control::take(queue::after_tx(d, commands, out, w));
        }
    }
}

// Writes an ERR(ERADIO) in an open session, and answers where it ends.
fn write_fault(session: bool, tag: u16, out: &mut [u8]) -> usize
    requires { room_min ≤ length out.old }
    ensures value { result ≡ length (frames_bytes (fault_frames session tag)) }
    ensures out_after { out.new ≡ lay 0 (frames_bytes (fault_frames session tag)) out.old }
{
    if session {
        return emit::write_err(ERADIO, tag, out, 0);
    }
    0
}

// The TX with the radio is lost.
fn lost(d: Device, tag: u16, commands: &[u8; COMMANDS], out: &mut [u8]) -> Taken
    requires { room_min ≤ length out.old }
    ensures { Gives (lost tag commands.now d) out.old 0 result out.new }
{
    let link = d.link;
    let w = write_fault(link.session, 0, out);
    let v = emit::write_tx_done(CANCELLED, 0, tag, out, w);
    queue::after_tx(d, commands, out, v)
}

// The SET_CONFIG has failed, and receiving ends.
fn failed(d: Device, commands: &[u8; COMMANDS], out: &mut [u8]) -> Taken
    requires { room_min ≤ length out.old }
    ensures { Gives (failed commands.now d) out.old 0 result out.new }
{
    let was = d.air;
    let air = control::with_radio(was, Radio::Free);
    let tag = scalar::u16_at(commands, SETTING * SLOT_SIZE + TAG_AT);
    let link = d.link;
    let inbox = control::with_receiving(d.inbox, false);
    let w = write_fault(link.session, tag, out);
    let e = Device {
        mode: Mode::Unconfigured,
        link,
        air,
        inbox,
    };
    control::done(e, w, Order::Standby)
}
