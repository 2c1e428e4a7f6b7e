// A received packet, RX: P 6.9.
#![tactic(auto)]

ghost use Rattle.std.specs.Prelude.{◌≡◌, ◌≤◌, length};
ghost use Rattle.rx.specs.Rx.{rx_size, rx_form, rx_of, rx_packet, rx_bytes};

use form::{Form, YES};
use kind::PACKET_MAX;

// The bytes of an RX before its packet: P 6.9.
pub const RX_SIZE: usize = 20;
// Where crc_valid, packets_dropped and origin stand.
const CRC_VALID: usize = 16;

pub const PACKETS_DROPPED: usize = 17;

const ORIGIN: usize = 19;

// A received packet without its bytes: P 6.9.
#[derive(Clone, Copy)]
pub struct Rx {
    pub rssi: i16,
    pub snr: i16,
    pub freq_err: i32,
    pub timestamp_us: u64,
    pub crc_valid: u8,
    pub packets_dropped: u16,
    pub origin: u8,
}

// The form of a payload.
pub fn rx_form(payload: &[u8]) -> Form
    ensures { result ≡ rx_form payload.now }
{
    if payload.len() < RX_SIZE {
        return Form::Wrong;
    }
    if RX_SIZE + PACKET_MAX < payload.len() {
        return Form::Wrong;
    }
    let crc_valid = payload[CRC_VALID];
    if YES < crc_valid {
        return Form::Wrong;
    }
    let origin = payload[ORIGIN];
    if YES < origin {
        return Form::Wrong;
    }
    Form::Size(payload.len())
}

// The fields in a payload. Internal: callers prove that the bytes are there.
pub fn rx_of(payload: &[u8]) -> Rx
    requires { rx_size ≤ length payload.now }
    ensures { result ≡ rx_of payload.now }
{
    let rssi = scalar::i16_of(scalar::u16_at(payload, 0));
    let snr = scalar::i16_of(scalar::u16_at(payload, 2));
    let freq_err = scalar::i32_of(scalar::u32_at(payload, 4));
    let timestamp_us = scalar::u64_at(payload, 8);
    let crc_valid = payload[CRC_VALID];
    let packets_dropped = scalar::u16_at(payload, 17);
    let origin = payload[ORIGIN];
    Rx {
        rssi,
        snr,
        freq_err,
        timestamp_us,
        crc_valid,
        packets_dropped,
        origin,
    }
}

// The packet in a payload.
pub fn packet(payload: &[u8]) -> &[u8]
    ensures { result.now ≡ rx_packet payload.now }
{
    buffer::from(payload, RX_SIZE)
}

// The bytes before the packet.
pub fn rx_bytes(m: Rx) -> [u8; RX_SIZE]
    ensures { result ≡ rx_bytes m }
{
    let rssi = scalar::bytes_of_u64(scalar::u16_of(m.rssi) as u64);
    let snr = scalar::bytes_of_u64(scalar::u16_of(m.snr) as u64);
    let error = scalar::bytes_of_u64(scalar::u32_of(m.freq_err) as u64);
    let time = scalar::bytes_of_u64(m.timestamp_us);
    let lost = scalar::bytes_of_u64(m.packets_dropped as u64);
    [
        rssi.b0,
        rssi.b1,
        snr.b0,
        snr.b1,
        error.b0,
        error.b1,
        error.b2,
        error.b3,
        time.b0,
        time.b1,
        time.b2,
        time.b3,
        time.b4,
        time.b5,
        time.b6,
        time.b7,
        m.crc_valid,
        lost.b0,
        lost.b1,
        m.origin,
    ]
}
