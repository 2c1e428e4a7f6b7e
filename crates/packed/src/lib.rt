// The device's state and its answers as words of 64 bits, for callers that know no enums.
#![tactic(auto)]

ghost use Rattle.std.specs.Prelude.{◌≡◌, ◌+◌, ◌*◌, ◌%◌};
ghost use Rattle.device.specs.Messages.{yes};
ghost use Rattle.control.specs.Control.{order_number, reply_numbers};
ghost use Rattle.packed.specs.Words.{mode_number, mode_in, radio_number, radio_tag, radio_in, low_bit, link_word};
ghost use Rattle.packed.specs.Words.{link_in, air_word, air_in, inbox_word, inbox_in, control_words, device_in};

use control::{Air, Device, Inbox, Link, Mode, Order, Radio, Reply};

// How many words a state takes: one for each of its parts.
pub const CONTROL: usize = 4;
// How many words an answer takes.
pub const ANSWER: usize = 7;

// Yes or no as a number.
fn flag(b: bool) -> u32
    ensures { result ≡ yes b }
{
    if b {
        return 1;
    }
    0
}

// The lowest bit of a word, as yes or no.
fn is_odd(w: u64) -> bool
    ensures { result ≡ low_bit w }
{
    w % 2 == 1
}

// The lowest 8 bits.
fn low8(w: u64) -> u8
    ensures { result ≡ w % 0x100 }
{
    (w % 0x100) as u8
}

// The lowest 16 bits.
fn low16(w: u64) -> u16
    ensures { result ≡ w % 0x10000 }
{
    (w % 0x10000) as u16
}

// A word by its two halves, each worked out in 32 bits: one register of a small processor.
fn word(low: u32, high: u32) -> u64
    ensures { result ≡ low + high * 0x100000000 }
{
    low as u64 + high as u64 * 0x100000000
}

// The mode as a number.
fn mode_number(m: Mode) -> u64
    ensures { result ≡ mode_number m }
{
    match m {
        Mode::Unconfigured => 0,
        Mode::Lora => 1,
        Mode::Fsk => 2,
    }
}

// The mode that a number stands for.
fn mode_of(n: u64) -> Mode
    ensures { result ≡ mode_in n }
{
    if 1 < n {
        return Mode::Fsk;
    }
    if n == 1 {
        return Mode::Lora;
    }
    Mode::Unconfigured
}

// What the radio does, as a number.
fn radio_number(r: Radio) -> u32
    ensures { result ≡ radio_number r }
{
    match r {
        Radio::Free => 0,
        Radio::Listening(_) => 1,
        Radio::OnAir(_) => 2,
        Radio::Orphan => 3,
        Radio::Configuring => 4,
    }
}

// The tag of the TX that it has.
fn radio_tag(r: Radio) -> u16
    ensures { result ≡ radio_tag r }
{
    match r {
        Radio::Free => 0,
        Radio::Listening(t) => t,
        Radio::OnAir(t) => t,
        Radio::Orphan => 0,
        Radio::Configuring => 0,
    }
}

// What the radio does, by a number and a tag.
fn radio_of(n: u64, tag: u16) -> Radio
    ensures { result ≡ radio_in n tag }
{
    if n == 0 {
        return Radio::Free;
    }
    if n == 1 {
        return Radio::Listening(tag);
    }
    if n == 2 {
        return Radio::OnAir(tag);
    }
    if n == 3 {
        return Radio::Orphan;
    }
    Radio::Configuring
}

// The host's side as a word.
fn link_word(l: Link) -> u64
    ensures { result ≡ link_word l }
{
    word(flag(l.session) + l.ticks as u32 * 0x10000, l.run as u32)
}

// The host's side that a word stands for.
fn link_of(w: u64) -> Link
    ensures { result ≡ link_in w }
{
    Link {
        session: is_odd(w),
        ticks: low16(w / 0x10000),
        run: low16(w / 0x100000000),
    }
}

// The radio's side as a word.
fn air_word(a: Air) -> u64
    ensures { result ≡ air_word a }
{
    let radio = a.radio;
    word(
        radio_number(radio) + radio_tag(radio) as u32 * 0x10000,
        flag(a.pending) + a.first as u32 * 0x100 + a.waiting as u32 * 0x10000,
    )
}

// The radio's side that a word stands for.
fn air_of(w: u64) -> Air
    ensures { result ≡ air_in w }
{
    let radio = radio_of(w % 0x10000, low16(w / 0x10000));
    Air {
        radio,
        pending: is_odd(w / 0x100000000),
        first: low8(w / 0x10000000000),
        waiting: low8(w / 0x1000000000000),
    }
}

// Reception as a word. Most events leave it as it was, and of one sum the compiler sees that.
fn inbox_word(i: Inbox) -> u64
    ensures { result ≡ inbox_word i }
{
    flag(i.receiving) as u64
        + i.first as u64 * 0x10000
        + i.held as u64 * 0x100000000
        + i.drops as u64 * 0x1000000000000
}

// The reception that a word stands for.
fn inbox_of(w: u64) -> Inbox
    ensures { result ≡ inbox_in w }
{
    Inbox {
        receiving: is_odd(w),
        first: low8(w / 0x10000),
        held: low8(w / 0x100000000),
        drops: low16(w / 0x1000000000000),
    }
}

// The state that some words stand for, whatever they hold.
pub fn device_of(w: &[u64; CONTROL]) -> Device
    ensures { result ≡ device_in w.now }
{
    let mode = mode_of(w[0]);
    let link = link_of(w[1]);
    let air = air_of(w[2]);
    let inbox = inbox_of(w[3]);
    Device {
        mode,
        link,
        air,
        inbox,
    }
}

// A state as words.
pub fn control_words(d: Device) -> [u64; CONTROL]
    ensures { result ≡ control_words d }
{
    let mode = d.mode;
    let link = d.link;
    let air = d.air;
    let inbox = d.inbox;
    [
        mode_number(mode),
        link_word(link),
        air_word(air),
        inbox_word(inbox),
    ]
}

// The order as a number.
fn order_number(o: Order) -> u64
    ensures { result ≡ order_number o }
{
    match o {
        Order::Nothing => 0,
        Order::Standby => 1,
        Order::Configure {
            at: _,
            len: _,
            ldro: _,
        } => 2,
        Order::Transmit {
            at: _,
            len: _,
            listen: _,
        } => 3,
        Order::Receive => 4,
    }
}

// An answer as words: its number, the count of bytes written, and the order with its values. The
// state in it has words of its own.
fn answer_words(a: Reply) -> [u64; ANSWER]
    ensures { result ≡ reply_numbers a }
{
    let number = a.number as u64;
    let written = a.written as u64;
    let o = a.order;
    let order = order_number(o);
    if let Order::Configure { at, len, ldro } = o {
        let on = flag(ldro) as u64;
        return [number, written, order, at as u64, len as u64, on, 0];
    }
    if let Order::Transmit { at, len, listen } = o {
        let first = flag(listen) as u64;
        return [number, written, order, at as u64, len as u64, 0, first];
    }
    [number, written, order, 0, 0, 0, 0]
}

// Stores an answer, and the state in it.
pub fn store(a: Reply, control: &mut [u64; CONTROL], answer: &mut [u64; ANSWER])
    ensures control_after { control.new ≡ control_words a.device }
    ensures answer_after { answer.new ≡ reply_numbers a }
{
    let d = a.device;
    *control = control_words(d);
    *answer = answer_words(a);
}
