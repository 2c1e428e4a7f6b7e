// The numbers of messages: the ten types, and which tags each may have (P 4; 01 "Numbers that come
// back", 8 and 9), error codes, results, and the longest packet.
#![tactic(auto)]

ghost use Rattle.std.specs.Prelude.{◌≡◌};
ghost use Rattle.kind.specs.Kinds.{is_command, is_answer, tag_wrong};

// From the host to the device: the six commands.
pub const PING: u8 = 0x01;

pub const GET_INFO: u8 = 0x02;

pub const SET_CONFIG: u8 = 0x03;

pub const TX: u8 = 0x04;

pub const RX_START: u8 = 0x05;

pub const RX_STOP: u8 = 0x06;

// From the device to the host: the four answers.
pub const OK: u8 = 0x80;

pub const ERR: u8 = 0x81;

pub const RX: u8 = 0xC0;

pub const TX_DONE: u8 = 0xC1;

// The code of an ERR: P 7.
pub const EPARAM: u16 = 0x0001;

pub const ELENGTH: u16 = 0x0002;

pub const ENOTCONFIGURED: u16 = 0x0003;

pub const EMODULATION: u16 = 0x0004;

pub const EUNKNOWN_CMD: u16 = 0x0005;

pub const EBUSY: u16 = 0x0006;

pub const ERADIO: u16 = 0x0101;

pub const EFRAME: u16 = 0x0102;

// The result of a TX_DONE: P 6.10.
pub const TRANSMITTED: u8 = 0;

pub const CHANNEL_BUSY: u8 = 1;

pub const CANCELLED: u8 = 2;

// The result and the owner in an OK to SET_CONFIG: P 6.3, for a device that has one client.
pub const APPLIED: u8 = 0;

pub const MINE: u8 = 1;

// The longest packet of a TX or an RX: P 6.4 and 6.9.
pub const PACKET_MAX: usize = 255;

// The commands by their names: an OK is read as the answer to one of them.
#[derive(Clone, Copy)]
pub enum Name {
    Ping,
    GetInfo,
    SetConfig,
    Tx,
    RxStart,
    RxStop,
}

// Whether a type is a command.
pub fn is_command(kind: u8) -> bool
    ensures { result ≡ is_command kind }
{
    (PING <= kind) & (kind <= RX_STOP)
}

// Whether a type is an answer.
pub fn is_answer(kind: u8) -> bool
    ensures { result ≡ is_answer kind }
{
    (kind == OK) | ((kind == ERR) | ((kind == RX) | (kind == TX_DONE)))
}

// Whether a tag is not one for this type.
pub fn tag_wrong(kind: u8, tag: u16) -> bool
    ensures { result ≡ tag_wrong kind tag }
{
    if is_command(kind) | ((kind == OK) | (kind == TX_DONE)) {
        return tag == 0;
    }
    if kind == RX {
        return tag != 0;
    }
    false
}
