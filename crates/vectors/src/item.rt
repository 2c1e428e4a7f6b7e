// A message by its numbers in the table: its type, the type of the command that an answer answers,
// and P's fields in their order; but an OK to SET_CONFIG has its result and owner last.
use crate::table::FIELDS_MAX;
use answer::{Answer, Configured};
use command::Command;
use info::Info;
use kind::Name;
use modulation::{Lora, Modulation};
use rx::Rx;

// A number modulo what a byte holds.
fn byte(x: u64) -> u8 {
    (x % 0x100) as u8
}

// A number modulo what two bytes hold.
fn half(x: u64) -> u16 {
    (x % 0x10000) as u16
}

// A number modulo what four bytes hold.
fn word(x: u64) -> u32 {
    (x % 0x100000000) as u32
}

// What a line is about.
#[derive(Clone, Copy)]
pub(crate) enum Item {
    // From the host to the device.
    Command(Command),
    // From the device to the host; an OK is that to the command of this name.
    Answer { answer: Answer, name: Name },
    // A frame of this type that is no right command, and the number that refuses it.
    Wrong { kind: u8, number: u64 },
}

// The item of a line of some kind.
pub(crate) fn of_line(kind: Option<u8>, f: [u64; FIELDS_MAX]) -> Item {
    match kind {
        Some(b'c') => Item::Command(command(f)),
        Some(b'a') => Item::Answer {
            answer: answer(f),
            name: name(f[1]),
        },
        _ => Item::Wrong {
            kind: byte(f[0]),
            number: f[1],
        },
    }
}

pub(crate) fn command(f: [u64; FIELDS_MAX]) -> Command {
    match byte(f[0]) {
        kind::PING => Command::Ping,
        kind::GET_INFO => Command::GetInfo,
        kind::SET_CONFIG => Command::SetConfig(lora(f)),
        kind::TX => Command::Tx { flags: byte(f[2]) },
        kind::RX_START => Command::RxStart,
        _ => Command::RxStop,
    }
}

fn name(x: u64) -> Name {
    match byte(x) {
        kind::PING => Name::Ping,
        kind::GET_INFO => Name::GetInfo,
        kind::SET_CONFIG => Name::SetConfig,
        kind::TX => Name::Tx,
        kind::RX_START => Name::RxStart,
        _ => Name::RxStop,
    }
}

fn answer(f: [u64; FIELDS_MAX]) -> Answer {
    match byte(f[0]) {
        kind::ERR => Answer::Err { code: half(f[2]) },
        kind::RX => Answer::Rx(rx(f)),
        kind::TX_DONE => Answer::TxDone {
            result: byte(f[2]),
            airtime_us: word(f[3]),
        },
        _ => ok(f),
    }
}

fn ok(f: [u64; FIELDS_MAX]) -> Answer {
    match byte(f[1]) {
        kind::GET_INFO => Answer::Info(info(f)),
        kind::SET_CONFIG => Answer::Configured(Configured {
            result: byte(f[12]),
            owner: byte(f[13]),
            current: lora(f),
        }),
        _ => Answer::Ok,
    }
}

fn lora(f: [u64; FIELDS_MAX]) -> Modulation {
    Modulation::Lora(Lora {
        freq_hz: word(f[2]),
        sf: byte(f[3]),
        bw: byte(f[4]),
        cr: byte(f[5]),
        preamble_len: half(f[6]),
        sync_word: half(f[7]),
        tx_power_dbm: byte(f[8]).cast_signed(),
        header_mode: byte(f[9]),
        payload_crc: byte(f[10]),
        iq_invert: byte(f[11]),
    })
}

fn rx(f: [u64; FIELDS_MAX]) -> Rx {
    Rx {
        rssi: half(f[2]).cast_signed(),
        snr: half(f[3]).cast_signed(),
        freq_err: word(f[4]).cast_signed(),
        timestamp_us: f[5],
        crc_valid: byte(f[6]),
        packets_dropped: half(f[7]),
        origin: byte(f[8]),
    }
}

fn info(f: [u64; FIELDS_MAX]) -> Info {
    Info {
        proto_major: byte(f[2]),
        proto_minor: byte(f[3]),
        fw_major: byte(f[4]),
        fw_minor: byte(f[5]),
        fw_patch: byte(f[6]),
        radio_chip_id: half(f[7]),
        capability_bitmap: f[8],
        supported_sf_bitmap: half(f[9]),
        supported_bw_bitmap: half(f[10]),
        max_payload_bytes: half(f[11]),
        rx_queue_capacity: half(f[12]),
        tx_queue_capacity: half(f[13]),
        freq_min_hz: word(f[14]),
        freq_max_hz: word(f[15]),
        tx_power_min_dbm: byte(f[16]).cast_signed(),
        tx_power_max_dbm: byte(f[17]).cast_signed(),
        mcu_uid_len: byte(f[18]),
        radio_uid_len: byte(f[19]),
    }
}
