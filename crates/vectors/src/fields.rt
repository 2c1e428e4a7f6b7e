// Whether two messages have the same fields, and a payload the same bytes of variable length.
use answer::{Answer, CONFIGURED_SIZE, Configured};
use command::Command;
use info::Info;
use modulation::{Lora, Modulation};
use rx::Rx;

// Whether two commands are the same.
pub(crate) fn same_command(a: Command, b: Command) -> bool {
    match a {
        Command::Ping => if let Command::Ping = b { true } else { false },
        Command::GetInfo => if let Command::GetInfo = b {
            true
        } else {
            false
        },
        Command::SetConfig(m) => is_config(b, m),
        Command::Tx { flags } => is_tx(b, flags),
        Command::RxStart => if let Command::RxStart = b {
            true
        } else {
            false
        },
        Command::RxStop => if let Command::RxStop = b { true } else { false },
    }
}

fn is_config(c: Command, m: Modulation) -> bool {
    let Command::SetConfig(k) = c else {
        return false;
    };
    same_modulation(k, m)
}

fn is_tx(c: Command, flags: u8) -> bool {
    let Command::Tx { flags: f } = c else {
        return false;
    };
    f == flags
}

// Whether the bytes of variable length in a command's payload are these.
pub(crate) fn command_has(c: Command, payload: &[u8], bytes: &[u8]) -> bool {
    match c {
        Command::SetConfig(_) => check::same(modulation::sync_word(payload), bytes),
        Command::Tx { flags: _ } => check::same(command::packet(payload), bytes),
        Command::Ping => check::same(payload, bytes),
        Command::GetInfo => check::same(payload, bytes),
        Command::RxStart => check::same(payload, bytes),
        Command::RxStop => check::same(payload, bytes),
    }
}

// Whether two answers are the same.
pub(crate) fn same_answer(a: Answer, b: Answer) -> bool {
    match a {
        Answer::Ok => if let Answer::Ok = b { true } else { false },
        Answer::Info(m) => is_info(b, m),
        Answer::Configured(m) => is_configured(b, m),
        Answer::Err { code } => is_err(b, code),
        Answer::Rx(m) => is_rx(b, m),
        Answer::TxDone { result, airtime_us } => is_tx_done(b, result, airtime_us),
    }
}

fn is_info(a: Answer, m: Info) -> bool {
    let Answer::Info(k) = a else {
        return false;
    };
    same_board(k, m) & same_limits(k, m)
}

fn is_configured(a: Answer, m: Configured) -> bool {
    let Answer::Configured(k) = a else {
        return false;
    };
    let x = k.current;
    let y = m.current;
    (k.result == m.result) & (k.owner == m.owner) & same_modulation(x, y)
}

fn is_err(a: Answer, code: u16) -> bool {
    let Answer::Err { code: c } = a else {
        return false;
    };
    c == code
}

fn is_rx(a: Answer, m: Rx) -> bool {
    let Answer::Rx(k) = a else {
        return false;
    };
    same_rx(k, m)
}

fn is_tx_done(a: Answer, res: u8, airtime_us: u32) -> bool {
    let Answer::TxDone {
        result: r,
        airtime_us: t,
    } = a
    else {
        return false;
    };
    (r == res) & (t == airtime_us)
}

// Whether the bytes of variable length in an answer's payload are these.
pub(crate) fn answer_has(a: Answer, payload: &[u8], bytes: &[u8]) -> bool {
    match a {
        Answer::Ok => check::same(payload, bytes),
        Answer::Info(m) => has_uids(payload, m.mcu_uid_len as usize, bytes),
        Answer::Configured(_) => {
            let config = buffer::from(payload, CONFIGURED_SIZE);
            check::same(modulation::sync_word(config), bytes)
        }
        Answer::Err { code: _ } => bytes.len() == 0,
        Answer::Rx(_) => check::same(rx::packet(payload), bytes),
        Answer::TxDone {
            result: _,
            airtime_us: _,
        } => bytes.len() == 0,
    }
}

// Whether the uids are these, the first one of len bytes.
fn has_uids(payload: &[u8], len: usize, uids: &[u8]) -> bool {
    let is_mcu = check::same(info::mcu_uid(payload), buffer::part(uids, 0, len));
    is_mcu & check::same(info::radio_uid(payload), buffer::from(uids, len))
}

// Whether two modulations are the same LoRa: P's examples have no other.
fn same_modulation(a: Modulation, b: Modulation) -> bool {
    let Modulation::Lora(x) = a else {
        return false;
    };
    let Modulation::Lora(y) = b else {
        return false;
    };
    same_lora(x, y)
}

fn same_lora(a: Lora, b: Lora) -> bool {
    (a.freq_hz == b.freq_hz)
        & (a.sf == b.sf)
        & (a.bw == b.bw)
        & (a.cr == b.cr)
        & (a.preamble_len == b.preamble_len)
        & (a.sync_word == b.sync_word)
        & (a.tx_power_dbm == b.tx_power_dbm)
        & (a.header_mode == b.header_mode)
        & (a.payload_crc == b.payload_crc)
        & (a.iq_invert == b.iq_invert)
}

fn same_rx(a: Rx, b: Rx) -> bool {
    (a.rssi == b.rssi)
        & (a.snr == b.snr)
        & (a.freq_err == b.freq_err)
        & (a.timestamp_us == b.timestamp_us)
        & (a.crc_valid == b.crc_valid)
        & (a.packets_dropped == b.packets_dropped)
        & (a.origin == b.origin)
}

// The first fields of an OK to GET_INFO.
fn same_board(a: Info, b: Info) -> bool {
    (a.proto_major == b.proto_major)
        & (a.proto_minor == b.proto_minor)
        & (a.fw_major == b.fw_major)
        & (a.fw_minor == b.fw_minor)
        & (a.fw_patch == b.fw_patch)
        & (a.radio_chip_id == b.radio_chip_id)
        & (a.capability_bitmap == b.capability_bitmap)
        & (a.supported_sf_bitmap == b.supported_sf_bitmap)
        & (a.supported_bw_bitmap == b.supported_bw_bitmap)
}

// The others.
fn same_limits(a: Info, b: Info) -> bool {
    (a.max_payload_bytes == b.max_payload_bytes)
        & (a.rx_queue_capacity == b.rx_queue_capacity)
        & (a.tx_queue_capacity == b.tx_queue_capacity)
        & (a.freq_min_hz == b.freq_min_hz)
        & (a.freq_max_hz == b.freq_max_hz)
        & (a.tx_power_min_dbm == b.tx_power_min_dbm)
        & (a.tx_power_max_dbm == b.tx_power_max_dbm)
        & (a.mcu_uid_len == b.mcu_uid_len)
        & (a.radio_uid_len == b.radio_uid_len)
}
