// One of the ten events: byte. 01 "A run of bytes becomes a frame".
#![tactic(auto)]

ghost use Rattle.std.specs.Prelude.{◌≡◌, ◌≤◌, ◌<◌, [], length, take};
ghost use Rattle.device.specs.Frames as F;
ghost use Rattle.device.specs.Events.{room_min};
ghost use Rattle.control.specs.Control.{Gives, Returns};
ghost use Rattle.dispatch.specs.Commands.{CommandTaken, on_received};
ghost use Rattle.link.specs.Link.{ByteTaken, byte_out, join_out, longer, stored, on_zero};

use cobs::ENCODED_MAX;
use control::{Device, Link, Order, ROOM_MIN, Reply, Taken};
use frame::{Opened, PAYLOAD};
use kind::EFRAME;
use slot::COMMANDS;
use status::{ROOM, STALL};

// The longest run that can be a frame.
pub const RUN_MAX: usize = ENCODED_MAX;
// The length of a run that is longer.
const TOO_LONG: u16 = RUN_MAX as u16 + 1;

// A byte from the host.
pub fn byte(
    d: Device,
    b: u8,
    run: &mut [u8; RUN_MAX],
    commands: &mut [u8; COMMANDS],
    out: &mut [u8],
) -> Reply
    ensures { ByteTaken (byte_out (length out.old) b run.old commands.old d)
        out.old result out.new run.new commands.new }
{
    if b == 0 {
        return zero(d, run, commands, out);
    }
    join(d, b, run, out.len())
}

// A byte that is zero: it ends the run.
pub fn zero(d: Device, run: &[u8; RUN_MAX], commands: &mut [u8; COMMANDS], out: &mut [u8]) -> Reply
    ensures { ByteTaken (byte_out (length out.old) 0 run.now commands.old d)
        out.old result out.new run.now commands.new }
{
    if out.len() < ROOM_MIN {
        return control::refuse(d, ROOM);
    }
    let air = d.air;
    if control::is_stalled(air) {
        return control::refuse(d, STALL);
    }
    control::take(end_run(d, run, commands, out))
}

// A byte that is not: it joins the run, and nothing is written. Internal: callers have
// tested that it is not zero.
pub fn join(d: Device, b: u8, run: &mut [u8; RUN_MAX], room: usize) -> Reply
    requires { 0 < b }
    ensures returns { Returns (join_out room b run.old d).gives result }
    ensures run_after { run.new ≡ (join_out room b run.old d).run }
{
    if room < ROOM_MIN {
        return control::refuse(d, ROOM);
    }
    let air = d.air;
    if control::is_stalled(air) {
        return control::refuse(d, STALL);
    }
    let link = d.link;
    let next = Link {
        session: link.session,
        ticks: link.ticks,
        run: keep(link.run, b, run),
    };
    let e = control::with_link(d, next);
    control::accept(e, 0, Order::Nothing)
}

// Puts a byte at index at of the run, and answers how long the run is then.
fn keep(at: u16, b: u8, run: &mut [u8; RUN_MAX]) -> u16
    ensures value { result ≡ longer at }
    ensures run_after { run.new ≡ stored at b run.old }
{
    let k = at as usize;
    if k < RUN_MAX {
        run[k] = b;
        return at + 1;
    }
    TOO_LONG
}

// A zero ends the run.
fn end_run(d: Device, run: &[u8; RUN_MAX], commands: &mut [u8; COMMANDS], out: &mut [u8]) -> Taken
    requires { room_min ≤ length out.old }
    ensures { CommandTaken (on_zero run.now commands.old d) out.old result out.new commands.new }
{
    let was = d.link;
    let n = was.run as usize;
    if n == 0 {
        return control::done(d, 0, Order::Nothing);
    }
    let next = Link {
        session: true,
        ticks: 0,
        run: 0,
    };
    let e = control::with_link(d, next);
    if RUN_MAX < n {
        return damaged(e, out);
    }
    receive(e, run, n, commands, out)
}

// The run is the first n bytes of run.
fn receive(d: Device, run: &[u8], n: usize, commands: &mut [u8; COMMANDS], out: &mut [u8]) -> Taken
    requires n_in_bounds { n ≤ length run.now }
    requires room_min_in_bounds { room_min ≤ length out.old }
    ensures { CommandTaken
        (on_received (F.received (take n run.now)) commands.old d)
        out.old result out.new commands.new }
{
    let mut memory = [0u8; ENCODED_MAX];
    let opened = frame::unpack(&run[..n], ENCODED_MAX, &mut memory);
    let Opened::Body { kind, tag, len } = opened else {
        return damaged(d, out);
    };
    if tag == 0 {
        return damaged(d, out);
    }
    dispatch::dispatch(d, kind, tag, &memory[PAYLOAD..PAYLOAD + len], commands, out)
}

// A run that is no frame.
fn damaged(d: Device, out: &mut [u8]) -> Taken
    requires { room_min ≤ length out.old }
    ensures { Gives (on_received F.damaged [] d).done out.old 0 result out.new }
{
    let w = emit::write_err(EFRAME, 0, out, 0);
    control::done(d, w, Order::Nothing)
}
