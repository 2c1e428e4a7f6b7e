// Two of the ten events, by which a session ends: tick and disconnect. 01 "What each event does".
#![tactic(auto)]

ghost use Rattle.std.specs.Prelude.{◌≡◌};
ghost use Rattle.control.specs.Control.{done_at, Returns};
ghost use Rattle.session.specs.Session.{ended, end_session, tick_out, disconnect_out};

use control::{Air, Device, Link, Mode, Order, ROOM_MIN, Radio, Reply, Taken};
use status::ROOM;

// The tick that makes the liveness count this ends the session.
const TICKS_MAX: u16 = 1000;

// A millisecond. It writes nothing, and asks only for the room that an event's output must have.
pub fn tick(d: Device, room: usize) -> Reply
    ensures { Returns (tick_out room d) result }
{
    if room < ROOM_MIN {
        return control::refuse(d, ROOM);
    }
    let link = d.link;
    let air = d.air;
    if link.session & !control::is_stalled(air) {
        let ticks = link.ticks;
        if TICKS_MAX - 1 <= ticks {
            return control::take(end_session(d));
        }
        let next = Link {
            session: true,
            ticks: ticks + 1,
            run: link.run,
        };
        let e = control::with_link(d, next);
        return control::accept(e, 0, Order::Nothing);
    }
    control::accept(d, 0, Order::Nothing)
}

// The host is gone. It writes nothing.
pub fn disconnect(d: Device, room: usize) -> Reply
    ensures { Returns (disconnect_out room d) result }
{
    if room < ROOM_MIN {
        return control::refuse(d, ROOM);
    }
    let link = d.link;
    if link.session {
        return control::take(end_session(d));
    }
    let next = Link {
        session: false,
        ticks: link.ticks,
        run: 0,
    };
    let e = control::with_link(d, next);
    control::accept(e, 0, Order::Nothing)
}

// What a session's end leaves of the radio.
fn ended(r: Radio) -> Radio
    ensures { result ≡ ended r }
{
    match r {
        Radio::Free => Radio::Free,
        Radio::Listening(_) => Radio::Free,
        Radio::OnAir(_) => Radio::Orphan,
        Radio::Orphan => Radio::Orphan,
        Radio::Configuring => Radio::Configuring,
    }
}

// A session's end.
fn end_session(d: Device) -> Taken
    ensures { result ≡ done_at 0 (end_session d) }
{
    let was = d.air;
    let before = was.radio;
    let radio = ended(before);
    let inbox = control::end_reception(d.inbox);
    let link = Link {
        session: false,
        ticks: 0,
        run: 0,
    };
    let air = Air {
        radio,
        pending: false,
        first: was.first,
        waiting: 0,
    };
    let e = Device {
        mode: Mode::Unconfigured,
        link,
        air,
        inbox,
    };
    if control::is_free(radio) {
        return control::done(e, 0, Order::Standby);
    }
    control::done(e, 0, Order::Nothing)
}
