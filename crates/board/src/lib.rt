// The board: the parameters that it takes, LDRO, and what it says of itself. Its profile is a
// definition, 01 "What the firmware covers".
#![tactic(auto)]

ghost use Rattle.std.specs.Prelude.{◌≡◌, get_or};
ghost use Rattle.info.specs.Info.{info_bytes};
ghost use Rattle.board.specs.Board.{sx1262, board_info, uids_of};
ghost use Rattle.board.specs.Ldro.{bandwidths, slow};
ghost use Rattle.board.specs.Params.{freq_good, lora_good, fsk_good, params_good};

use form::YES;
use modulation::{Fsk, Lora, Modulation, SYNC_WORD_MAX};

// The bytes of what the board says of itself: P 6.2, with eight of the MCU's uid.
pub const BOARD_INFO_SIZE: usize = 45;
// So many received packets are held, and so many TX can be open.
pub const RING_MAX: usize = 64;

pub const TX_MAX: usize = 16;
// The frequencies in Hz and the powers in dBm that it takes, both ends included.
const FREQ_MIN: u32 = 150000000;

const FREQ_MAX: u32 = 960000000;

const POWER_MIN: i8 = -9;

const POWER_MAX: i8 = 22;
// The spreading factors, and the highest bandwidth value.
const SF_MIN: u8 = 5;

const SF_MAX: u8 = 12;

const BW_MAX: u8 = 9;
// P 10.1, the highest coding rate.
pub const CR_MAX: u8 = 3;

// A bandwidth value in Hz, and 0 for what is no value.
pub fn bandwidth(bw: u8) -> u32
    ensures { result ≡ get_or bandwidths bw 0 }
{
    if BW_MAX < bw {
        return 0;
    }
    let hz: [u32; 10] = [
        7810, 10420, 15630, 20830, 31250, 41670, 62500, 125000, 250000, 500000,
    ];
    hz[bw as usize]
}

// Low data rate optimisation (LDRO) is on: a symbol takes longer than 16 ms. Above SF 12 it does at
// every bandwidth.
pub fn slow(sf: u8, bw: u8) -> bool
    ensures { result ≡ slow sf bw }
{
    if SF_MAX < sf {
        return true;
    }
    16 * bandwidth(bw) < (1000u32 << sf)
}

// Whether a frequency is in the board's range.
fn freq_good(f: u32) -> bool
    ensures { result ≡ freq_good sx1262 f }
{
    (FREQ_MIN <= f) & (f <= FREQ_MAX)
}

// Whether the board takes LoRa's parameters.
fn lora_good(m: Lora) -> bool
    ensures { result ≡ lora_good sx1262 m }
{
    let freq = freq_good(m.freq_hz);
    let power = (POWER_MIN <= m.tx_power_dbm) & (m.tx_power_dbm <= POWER_MAX);
    let sf = (SF_MIN <= m.sf) & (m.sf <= SF_MAX);
    let coding = (m.bw <= BW_MAX) & (m.cr <= CR_MAX);
    let modes = (m.header_mode <= YES) & (m.payload_crc <= YES);
    (freq & power) & ((sf & coding) & (modes & (m.iq_invert == 0)))
}

// Whether it takes FSK's.
fn fsk_good(m: Fsk) -> bool
    ensures { result ≡ fsk_good sx1262 m }
{
    freq_good(m.freq_hz) & (m.sync_word_len <= SYNC_WORD_MAX)
}

// Whether it takes a configuration: 01 "A run of bytes becomes a frame", step 6.
pub fn params_good(m: Modulation) -> bool
    ensures { result ≡ params_good sx1262 m }
{
    match m {
        Modulation::Lora(p) => lora_good(p),
        Modulation::Fsk(p) => fsk_good(p),
    }
}

// What the board says of itself: the payload of the OK to GET_INFO, P C.2.2.
pub fn info() -> [u8; BOARD_INFO_SIZE]
    ensures { result ≡ info_bytes (board_info sx1262) (uids_of sx1262) }
{
    [
        0x01, 0x00, 0x00, 0x01, 0x00, 0x02, 0x00, 0x03, 0x00, 0x01, 0x00, 0x00, 0x00, 0x00, 0x00,
        0xE0, 0x1F, 0xFF, 0x03, 0xFF, 0x00, 0x40, 0x00, 0x10, 0x00, 0x80, 0xD1, 0xF0, 0x08, 0x00,
        0x70, 0x38, 0x39, 0xF7, 0x16, 0x08, 0xDE, 0xAD, 0xBE, 0xEF, 0x01, 0x23, 0x45, 0x67, 0x00,
    ]
}
