// The device's state and its answers, and the steps that all events share.
#![tactic(auto)]

ghost use Rattle.std.specs.Prelude.{◌≡◌};
ghost use Rattle.control.specs.Control.{power_up, with_link, with_air, with_inbox, with_radio, with_receiving, ring_emptied, reception_ended, stalled, idle};
ghost use Rattle.control.specs.Control as C;
ghost use Rattle.status.specs.Numbers as N;

use frame::FRAME_MAX;
use status::TAKEN;

// The least output that an event takes, the longest frame: 01 "Numbers that come back", ROOM.
pub const ROOM_MIN: usize = FRAME_MAX;

// UNCONFIGURED, or the modulation of the configuration in force. Of the rest of it nothing is
// needed any more.
#[derive(Clone, Copy)]
pub enum Mode {
    Unconfigured,
    Lora,
    Fsk,
}

// What the radio does: 01 "What each event does". The SET_CONFIG that it is being configured with
// stands in the memory of commands.
#[derive(Clone, Copy)]
pub enum Radio {
    Free,
    // It waits for a clear channel, to send the TX with this tag.
    Listening(u16),
    // It sends it.
    OnAir(u16),
    // It sends one whose session has ended.
    Orphan,
    Configuring,
}

// The host's side: whether a session is open, the liveness count in ms, and how long the run is.
// The run's bytes stand in the memory of the run; one that is too long has length 283.
#[derive(Clone, Copy)]
pub struct Link {
    pub session: bool,
    pub ticks: u16,
    pub run: u16,
}

// The radio's side: the radio, whether a SET_CONFIG waits, and the TX that wait: the slot of the
// oldest, and how many. Their bytes stand in the memory of commands.
#[derive(Clone, Copy)]
pub struct Air {
    pub radio: Radio,
    pub pending: bool,
    pub first: u8,
    pub waiting: u8,
}

// Reception: whether it is on, the slot of the oldest packet, how many are held, and the drop
// count. Their bytes stand in the memory of packets.
#[derive(Clone, Copy)]
pub struct Inbox {
    pub receiving: bool,
    pub first: u8,
    pub held: u8,
    pub drops: u16,
}

// The device's state, beside its three memories.
#[derive(Clone, Copy)]
pub struct Device {
    pub mode: Mode,
    pub link: Link,
    pub air: Air,
    pub inbox: Inbox,
}

// The order to the radio. Two of them name bytes in the memory of commands, len of them from index
// at on: a modulation with its parameters, and a packet.
#[derive(Clone, Copy)]
pub enum Order {
    Nothing,
    Standby,
    Configure { at: usize, len: usize, ldro: bool },
    Transmit { at: usize, len: usize, listen: bool },
    Receive,
}

// What an event does that is taken: the next state, how many bytes of the output were written, and
// the order.
#[derive(Clone, Copy)]
pub struct Taken {
    pub device: Device,
    pub written: usize,
    pub order: Order,
}

// What an event answers: 01's number too.
#[derive(Clone, Copy)]
pub struct Reply {
    pub device: Device,
    pub number: u8,
    pub written: usize,
    pub order: Order,
}

// The state at power-up.
pub fn power_up() -> Device
    ensures { result ≡ power_up }
{
    let link = Link {
        session: false,
        ticks: 0,
        run: 0,
    };
    let air = Air {
        radio: Radio::Free,
        pending: false,
        first: 0,
        waiting: 0,
    };
    let inbox = Inbox {
        receiving: false,
        first: 0,
        held: 0,
        drops: 0,
    };
    Device {
        mode: Mode::Unconfigured,
        link,
        air,
        inbox,
    }
}

// What is done, with so many bytes written.
pub fn done(d: Device, written: usize, order: Order) -> Taken
    ensures { result ≡ record { device = d; written = written; order = order } }
{
    Taken {
        device: d,
        written,
        order,
    }
}

// An event that is taken, by what it does.
pub fn take(t: Taken) -> Reply
    ensures { result ≡ record { device = t.device; number = N.TAKEN; written = t.written; order = t.order } }
{
    let device = t.device;
    let order = t.order;
    accept(device, t.written, order)
}

// The same, part by part.
pub fn accept(d: Device, count: usize, given: Order) -> Reply
    ensures { result ≡ record { device = d; number = N.TAKEN; written = count; order = given } }
{
    Reply {
        device: d,
        number: TAKEN,
        written: count,
        order: given,
    }
}

// An event that is refused.
pub fn refuse(d: Device, number: u8) -> Reply
    ensures { result ≡ record { device = d; number = number; written = 0; order = Order.Nothing } }
{
    Reply {
        device: d,
        number,
        written: 0,
        order: Order::Nothing,
    }
}

// A state with a new link.
pub fn with_link(d: Device, next: Link) -> Device
    ensures { result ≡ with_link d next }
{
    let mode = d.mode;
    let air = d.air;
    let inbox = d.inbox;
    Device {
        mode,
        link: next,
        air,
        inbox,
    }
}

// A state with a new radio's side.
pub fn with_air(d: Device, next: Air) -> Device
    ensures { result ≡ with_air d next }
{
    let mode = d.mode;
    let link = d.link;
    let inbox = d.inbox;
    Device {
        mode,
        link,
        air: next,
        inbox,
    }
}

// A state with a new reception.
pub fn with_inbox(d: Device, next: Inbox) -> Device
    ensures { result ≡ with_inbox d next }
{
    let mode = d.mode;
    let link = d.link;
    let air = d.air;
    Device {
        mode,
        link,
        air,
        inbox: next,
    }
}

// A radio's side with a new radio.
pub fn with_radio(a: Air, radio: Radio) -> Air
    ensures { result ≡ with_radio a radio }
{
    Air {
        radio,
        pending: a.pending,
        first: a.first,
        waiting: a.waiting,
    }
}

// Reception with receiving turned on or off.
pub fn with_receiving(i: Inbox, on: bool) -> Inbox
    ensures { result ≡ with_receiving i on }
{
    Inbox {
        receiving: on,
        first: i.first,
        held: i.held,
        drops: i.drops,
    }
}

// Whether the radio does nothing.
pub fn is_free(r: Radio) -> bool
    ensures { result ≡ C.free? r }
{
    match r {
        Radio::Free => true,
        Radio::Listening(_) => false,
        Radio::OnAir(_) => false,
        Radio::Orphan => false,
        Radio::Configuring => false,
    }
}

// Whether it is being configured.
fn is_configuring(r: Radio) -> bool
    ensures { result ≡ C.runs? r }
{
    match r {
        Radio::Free => false,
        Radio::Listening(_) => false,
        Radio::OnAir(_) => false,
        Radio::Orphan => false,
        Radio::Configuring => true,
    }
}

// Whether a SET_CONFIG waits or runs.
pub fn is_stalled(a: Air) -> bool
    ensures { result ≡ stalled a }
{
    let radio = a.radio;
    a.pending | is_configuring(radio)
}

// The order when there is nothing to send.
pub fn idle(receiving: bool) -> Order
    ensures { result ≡ idle receiving }
{
    if receiving {
        return Order::Receive;
    }
    Order::Standby
}

// What a SET_CONFIG leaves of reception: nothing is held, and receiving goes on.
pub fn empty_ring(held: Inbox) -> Inbox
    ensures { result ≡ ring_emptied held }
{
    Inbox {
        receiving: held.receiving,
        first: held.first,
        held: 0,
        drops: 0,
    }
}

// What a session's end leaves of it: nothing is held, and receiving is off.
pub fn end_reception(was: Inbox) -> Inbox
    ensures { result ≡ reception_ended was }
{
    Inbox {
        receiving: false,
        first: was.first,
        held: 0,
        drops: 0,
    }
}
