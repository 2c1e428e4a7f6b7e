// Time on air of a LoRa packet, before it is sent: 02 §3, by the formula of Semtech's SX1276 data sheet.
#![tactic(auto)]

ghost use Rattle.std.specs.Prelude.{◌≡◌, false, ◌≤◌};
ghost use Rattle.airtime.specs.Airtime.{outside, payload_term, at_least_zero, divisor, payload_symbols, microseconds, airtime, duration_result};

use board::CR_MAX;
use form::YES;
use kind::PACKET_MAX;

// The spreading factors that the formula is for, and the highest bandwidth value. The board takes more.
const AIR_SF_MIN: u8 = 7;

const AIR_SF_MAX: u8 = 12;

const AIR_BW_MAX: u8 = 9;
// The longest time that is told, in us.
const US_MAX: u64 = 0xFFFF_FFFF;

// What the time depends on: LoRa's parameters as they are on the wire (P 10.1), and the length of the packet. For C:
// struct donglora_air.
#[repr(C)]
#[derive(Clone, Copy)]
pub struct Transmission {
    pub sf: u8,
    pub bw: u8,
    pub cr: u8,
    pub header_mode: u8,
    pub payload_crc: u8,
    pub preamble_len: u16,
    pub len: usize,
}

// The time on air in us; or that a value is none that the formula is for; or that the time is too long to be told.
#[derive(Clone, Copy)]
pub enum Duration {
    Us(u32),
    Air,
    Wide,
}

// The time on air.
pub fn airtime(air: Transmission) -> Duration
    ensures { duration_result result ≡ airtime air }
{
    if outside(air) {
        return Duration::Air;
    }
    let us = microseconds(air);
    if US_MAX < us {
        return Duration::Wide;
    }
    Duration::Us(us as u32)
}

// Whether a value is none that the formula is for. A preamble is any.
fn outside(air: Transmission) -> bool
    ensures { result ≡ outside air }
{
    let sf = (air.sf < AIR_SF_MIN) | (AIR_SF_MAX < air.sf);
    let coding = (AIR_BW_MAX < air.bw) | (CR_MAX < air.cr);
    let modes = (YES < air.header_mode) | (YES < air.payload_crc);
    sf | coding | modes | (PACKET_MAX < air.len)
}

// The payload term: in bits, and negative where the header's symbols have room for more than the packet.
fn payload_term(air: Transmission) -> i32
    requires { outside air ≡ false }
    ensures { result ≡ payload_term air }
{
    let more = 8 * air.len + 28 + 16 * (air.payload_crc as usize);
    let less = 4 * (air.sf as usize) + 20 * (air.header_mode as usize);
    (more as i32) - (less as i32)
}

// A number that is negative counts as zero.
fn at_least_zero(term: i32) -> u32
    ensures { result ≡ at_least_zero term }
{
    if term < 0 {
        return 0;
    }
    term as u32
}

// What the term is divided by: the bits of four symbols.
fn divisor(sf: u8, bw: u8) -> u32
    requires { 2 ≤ sf }
    ensures { result ≡ divisor sf bw }
{
    if board::slow(sf, bw) {
        return 4 * (sf as u32 - 2);
    }
    4 * sf as u32
}

// The symbols of the payload, past the eight that are always there.
fn payload_symbols(air: Transmission) -> u32
    requires { outside air ≡ false }
    ensures { result ≡ payload_symbols air }
{
    let bits = at_least_zero(payload_term(air));
    let d = divisor(air.sf, air.bw);
    (bits + d - 1) / d * (air.cr as u32 + 5)
}

// The time in us, however long. Rounded down once, at the end.
fn microseconds(air: Transmission) -> u64
    requires { outside air ≡ false }
    ensures { result ≡ microseconds air }
{
    let symbols = air.preamble_len as u64 + 8 + payload_symbols(air) as u64;
    let chips = (4 * symbols + 17) << air.sf;
    chips * 250000 / board::bandwidth(air.bw) as u64
}
