// The six commands and their payloads: P 6.1 to 6.6.
#![tactic(auto)]

ghost use Rattle.std.specs.Prelude.{◌≡◌, true, ◌≤◌, length};
ghost use Rattle.buffer.specs.Lay.{lay};
ghost use Rattle.form.specs.Forms.{exactly};
ghost use Rattle.command.specs.Commands.{asked_result, command_form, command_of, command_bytes, command_kind, packet_of, read_command, tx_bytes, tx_form};

use form::Form;
use kind::{GET_INFO, PACKET_MAX, PING, RX_START, RX_STOP, SET_CONFIG, TX};
use modulation::Modulation;
use status::Refusal;

// The bytes of a TX's flags, before its packet: P 6.4.
pub const FLAGS_SIZE: usize = 1;
// The highest flags: bit 0 is skip_cad, and the rest is reserved.
pub const FLAGS_MAX: u8 = 1;

// A command. The bytes of variable length stay beside it, in the caller's memory: a TX's packet and
// an FSK configuration's sync word.
#[derive(Clone, Copy)]
pub enum Command {
    Ping,
    GetInfo,
    SetConfig(Modulation),
    Tx { flags: u8 },
    RxStart,
    RxStop,
}

// What reading a payload answers.
#[derive(Clone, Copy)]
pub enum Asked {
    Command(Command),
    Refused(Refusal),
}

// Reads a payload of some type as a command.
pub fn read_command(kind: u8, payload: &[u8]) -> Asked
    ensures { asked_result result ≡ asked_result (read_command kind payload.now) }
{
    if kind::is_command(kind) {
        if form::exactly(command_form(kind, payload), payload.len()) {
            return Asked::Command(command_of(kind, payload));
        }
        return Asked::Refused(Refusal::Form);
    }
    Asked::Refused(Refusal::Type)
}

// The command in a payload of its form.
fn command_of(kind: u8, payload: &[u8]) -> Command
    requires { exactly (command_form kind payload.now) (length payload.now) ≡ true }
    ensures { result ≡ command_of kind payload.now }
{
    if kind == PING {
        return Command::Ping;
    }
    if kind == GET_INFO {
        return Command::GetInfo;
    }
    if kind == SET_CONFIG {
        return Command::SetConfig(modulation::config_of(payload));
    }
    if kind == TX {
        return Command::Tx { flags: payload[0] };
    }
    if kind == RX_START {
        return Command::RxStart;
    }
    Command::RxStop
}

// The form of a command's payload.
pub fn command_form(kind: u8, payload: &[u8]) -> Form
    ensures { result ≡ command_form kind payload.now }
{
    if kind == SET_CONFIG {
        return modulation::config_form(payload);
    }
    if kind == TX {
        return tx_form(payload);
    }
    Form::Size(0)
}

// The form of a TX's payload.
fn tx_form(payload: &[u8]) -> Form
    ensures { result ≡ tx_form payload.now }
{
    if payload.len() < FLAGS_SIZE + 1 {
        return Form::Wrong;
    }
    if FLAGS_SIZE + PACKET_MAX < payload.len() {
        return Form::Wrong;
    }
    if FLAGS_MAX < payload[0] {
        return Form::Wrong;
    }
    Form::Size(payload.len())
}

// The packet in a TX's payload.
pub fn packet(payload: &[u8]) -> &[u8]
    ensures { result.now ≡ packet_of payload.now }
{
    buffer::from(payload, FLAGS_SIZE)
}

// The type of a command.
pub fn command_kind(c: Command) -> u8
    ensures { result ≡ command_kind c }
{
    match c {
        Command::Ping => PING,
        Command::GetInfo => GET_INFO,
        Command::SetConfig(_) => SET_CONFIG,
        Command::Tx { flags: _ } => TX,
        Command::RxStart => RX_START,
        Command::RxStop => RX_STOP,
    }
}

// Writes the payload of a command with its bytes, and returns its length. Internal: callers prove
// that there is room.
pub fn put_command(c: Command, bytes: &[u8], dst: &mut [u8]) -> usize
    requires { length (command_bytes c bytes.now) ≤ length dst.old }
    ensures value { result ≡ length (command_bytes c bytes.now) }
    ensures dst_after { dst.new ≡ lay 0 (command_bytes c bytes.now) dst.old }
{
    match c {
        Command::SetConfig(m) => modulation::put_config(m, bytes, dst, 0),
        Command::Tx { flags } => put_tx(flags, bytes, dst),
        _ => {
            buffer::copy(bytes, dst, 0);
            bytes.len()
        }
    }
}

// Writes the payload of a TX.
fn put_tx(flags: u8, packet: &[u8], dst: &mut [u8]) -> usize
    requires { length (tx_bytes flags packet.now) ≤ length dst.old }
    ensures value { result ≡ length (tx_bytes flags packet.now) }
    ensures dst_after { dst.new ≡ lay 0 (tx_bytes flags packet.now) dst.old }
{
    dst[0] = flags;
    buffer::copy(packet, dst, FLAGS_SIZE);
    FLAGS_SIZE + packet.len()
}
