// The events in loops, for measuring: standard input has a letter, which work, and a decimal number,
// how many rounds. What it prints is how many bytes the events wrote, and for b how many were in the
// runs, modulo a million.
//
// b: 255 bytes that are not zero, and a disconnect     t: 999 ticks, and a PING
// p: a PING                                            x: a TX with 255 bytes, and its sent
// k: a packet of 255 bytes is taken                    d: it is taken and delivered
#![tactic(auto)]

ghost use Rattle.std.specs.Prelude.{◌≡◌, ◌<◌, length};

use command::Command;
use control::{Device, ROOM_MIN, Reply};
use frame::Written;
use inbox::{PACKETS, PacketStatus};
use link::RUN_MAX;
use modulation::{Lora, Modulation};
use slot::COMMANDS;
use std::io::Read;

// The most bytes of the input.
const INPUT: usize = 4096;
// Bytes are counted modulo this.
const MANY: usize = 1000000;

// A state, and how many bytes the events have written.
#[derive(Clone, Copy)]
struct Count {
    device: Device,
    written: usize,
}

// One event more.
fn add(c: Count, a: Reply) -> Count {
    let device = a.device;
    Count {
        device,
        written: (c.written % MANY + a.written % MANY) % MANY,
    }
}

// Writes the frame of a command, and answers how long it is.
fn frame_of(command: Command, bytes: &[u8], out: &mut [u8]) -> usize {
    match compose::write_command(command, 1, bytes, out) {
        Written::Done(n) => n,
        Written::Refused(_) => 0,
    }
}

// Some bytes from the host.
fn feed(
    c: Count,
    bytes: &[u8],
    run: &mut [u8; RUN_MAX],
    commands: &mut [u8; COMMANDS],
    out: &mut [u8],
) -> Count {
    let mut e = c;
    let mut i = 0;
    while i < bytes.len() {
        let b = bytes[i];
        i += 1;
        e = add(e, link::byte(e.device, b, run, commands, out));
    }
    e
}

// 999 ticks.
fn ticks(c: Count) -> Count {
    let mut e = c;
    let mut i: usize = 0;
    while i < 999 {
        i += 1;
        e = add(e, session::tick(e.device, ROOM_MIN));
    }
    e
}

// A disconnect, with the bytes of the run counted before it.
fn leave(c: Count) -> Count {
    let link = c.device.link;
    let a = session::disconnect(c.device, ROOM_MIN);
    let device = a.device;
    Count {
        device,
        written: (c.written % MANY + link.run as usize) % MANY,
    }
}

// A packet is taken.
fn hear(c: Count, bytes: &[u8], packets: &mut [u8; PACKETS]) -> Count {
    let status = PacketStatus {
        rssi: -820,
        snr: 95,
        freq_err: -125,
        timestamp_us: 4242,
        crc_valid: true,
    };
    let a = inbox::packet(c.device, status, bytes, packets, ROOM_MIN);
    add(c, a)
}

// One round of the work that a letter names: ping and tx are frames, and bytes has 255 bytes.
fn round(
    what: u8,
    c: Count,
    ping: &[u8],
    tx: &[u8],
    bytes: &[u8],
    run: &mut [u8; RUN_MAX],
    commands: &mut [u8; COMMANDS],
    packets: &mut [u8; PACKETS],
    out: &mut [u8],
) -> Count {
    match what {
        b'b' => {
            let e = feed(c, bytes, run, commands, out);
            return leave(e);
        }
        b't' => {
            let e = ticks(c);
            return feed(e, ping, run, commands, out);
        }
        b'p' => {
            return feed(c, ping, run, commands, out);
        }
        b'x' => {
            let e = feed(c, tx, run, commands, out);
            let a = outcome::sent(e.device, 1000, commands, out);
            return add(e, a);
        }
        b'k' => {
            return hear(c, bytes, packets);
        }
        _ => {
            let e = hear(c, bytes, packets);
            let a = inbox::request(e.device, packets, out);
            return add(e, a);
        }
    }
}

// So many rounds.
fn rounds(
    what: u8,
    n: usize,
    c: Count,
    ping: &[u8],
    tx: &[u8],
    bytes: &[u8],
    run: &mut [u8; RUN_MAX],
    commands: &mut [u8; COMMANDS],
    packets: &mut [u8; PACKETS],
    out: &mut [u8],
) -> Count {
    let mut e = c;
    let mut i = 0;
    while i < n {
        i += 1;
        e = round(what, e, ping, tx, bytes, run, commands, packets, out);
    }
    e
}

// The value of a digit.
fn digit(b: u8) -> usize
    ensures { result < 48 }
{
    (b % b'0') as usize
}

// The number in decimal digits, with six of them kept before the last.
fn number(digits: &[u8]) -> usize {
    let mut n = 0;
    let mut i = 0;
    while i < digits.len() {
        let b = digits[i];
        i += 1;
        if (b'0' <= b) & (b <= b'9') {
            n = n % MANY * 10 + digit(b);
        }
    }
    n
}

// 255 bytes that are not zero.
fn bytes() -> [u8; 255]
    ensures { 255 ≡ length result }
{
    let mut all = [0u8; 255];
    let mut i = 0;
    while i < 255 {
        all[i] = (i % 251 + 1) as u8;
        i += 1;
    }
    all
}

// P C.2.3: its SET_CONFIG.
fn configuration() -> Command {
    Command::SetConfig(Modulation::Lora(Lora {
        freq_hz: 868100000,
        sf: 7,
        bw: 7,
        cr: 0,
        preamble_len: 8,
        sync_word: 0x1424,
        tx_power_dbm: 14,
        header_mode: 0,
        payload_crc: 1,
        iq_invert: 0,
    }))
}

// A command from the host.
fn send(
    c: Count,
    command: Command,
    run: &mut [u8; RUN_MAX],
    commands: &mut [u8; COMMANDS],
    out: &mut [u8],
) -> Count {
    let mut frame = [0u8; ROOM_MIN];
    let n = frame_of(command, &[], &mut frame);
    feed(c, buffer::part(&frame, 0, n), run, commands, out)
}

// All but b have a configured device that receives.
fn ready(
    what: u8,
    c: Count,
    run: &mut [u8; RUN_MAX],
    commands: &mut [u8; COMMANDS],
    out: &mut [u8],
) -> Count {
    if what == b'b' {
        return c;
    }
    let e = send(c, configuration(), run, commands, out);
    let a = outcome::configured(e.device, commands, out);
    send(add(e, a), Command::RxStart, run, commands, out)
}

// So many rounds of some work.
fn work(what: u8, n: usize) -> usize {
    let mut run = [0u8; RUN_MAX];
    let mut commands = [0u8; COMMANDS];
    let mut packets = [0u8; PACKETS];
    let mut out = [0u8; ROOM_MIN];
    let mut ping = [0u8; ROOM_MIN];
    let mut tx = [0u8; ROOM_MIN];
    let all = bytes();
    let pings = frame_of(Command::Ping, &[], &mut ping);
    let txs = frame_of(Command::Tx { flags: 1 }, &all, &mut tx);
    let mut c = Count {
        device: control::power_up(),
        written: 0,
    };
    c = ready(what, c, &mut run, &mut commands, &mut out);
    c = rounds(
        what,
        n,
        c,
        buffer::part(&ping, 0, pings),
        buffer::part(&tx, 0, txs),
        &all,
        &mut run,
        &mut commands,
        &mut packets,
        &mut out,
    );
    c.written
}

fn main(rt: HostRuntime) {
    let mut input = [0u8; INPUT];
    let k = match rt.stdin().read(&mut input) {
        Ok(n) => n,
        Err(_) => 0,
    };
    let n = work(input[0], number(&input[..k]));
    println!(rt; "{n}").is_ok();
}
