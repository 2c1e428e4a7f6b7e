// Why a command draws an ERR: 01 "A run of bytes becomes a frame", steps 2 to 7.
#![tactic(auto)]

ghost use Rattle.std.specs.Prelude.{◌≡◌, true, false, ◌&&◌, eqb};
ghost use Rattle.kind.specs.Kinds.{SET_CONFIG};
ghost use Rattle.board.specs.Board.{sx1262};
ghost use Rattle.board.specs.Params.{params_good};
ghost use Rattle.modulation.specs.Modulations.{config_of};
ghost use Rattle.device.specs.Frames.{needs_config, other_modulation, config_sized, sized, good, error_for};
ghost use Rattle.validation.specs.Codes.{code_of};

use board::TX_MAX;
use command::{FLAGS_MAX, FLAGS_SIZE};
use kind::{
    EBUSY, ELENGTH, EMODULATION, ENOTCONFIGURED, EPARAM, EUNKNOWN_CMD, PACKET_MAX, RX_START,
    RX_STOP, SET_CONFIG, TX,
};
use modulation::{FSK, FSK_SIZE, LORA, LORA_SIZE, PARAMS, SYNC_WORD_LEN};

// No error.
pub const NO_ERROR: u16 = 0;
// The payload of a SET_CONFIG: LoRa's whole, FSK's without the sync word, and where sync_word_len
// stands in it.
const LORA_WHOLE: usize = PARAMS + LORA_SIZE;

const FSK_LEAST: usize = PARAMS + FSK_SIZE;

const WORD_LEN_AT: usize = PARAMS + SYNC_WORD_LEN;
// The payload of a TX: flags and 1 to 255 bytes.
const TX_LEAST: usize = FLAGS_SIZE + 1;

const TX_MOST: usize = FLAGS_SIZE + PACKET_MAX;

// The code of the first error that applies, or 0: unconfigured says whether the device is UNCONFIGURED,
// and count how many TX are open.
pub fn error_code(unconfigured: bool, count: usize, kind: u8, payload: &[u8]) -> u16
    ensures { result ≡ code_of (error_for sx1262 unconfigured count kind payload.now) }
{
    if !kind::is_command(kind) {
        return EUNKNOWN_CMD;
    }
    if unconfigured & needs_config(kind) {
        return ENOTCONFIGURED;
    }
    if (kind == SET_CONFIG) & is_other_modulation(payload) {
        return EMODULATION;
    }
    if !is_sized(kind, payload) {
        return ELENGTH;
    }
    if !is_good(kind, payload) {
        return EPARAM;
    }
    if (kind == TX) & (TX_MAX <= count) {
        return EBUSY;
    }
    NO_ERROR
}

// Whether a command needs a configuration.
fn needs_config(kind: u8) -> bool
    ensures { result ≡ needs_config kind }
{
    (kind == TX) | ((kind == RX_START) | (kind == RX_STOP))
}

// Whether a payload of SET_CONFIG has a modulation that is neither LoRa nor FSK.
fn is_other_modulation(payload: &[u8]) -> bool
    ensures { result ≡ other_modulation payload.now }
{
    if payload.len() == 0 {
        return false;
    }
    let id = payload[0];
    !((id == LORA) | (id == FSK))
}

// Whether a payload of SET_CONFIG has the size that its modulation asks for.
fn is_config_sized(payload: &[u8]) -> bool
    ensures { result ≡ config_sized payload.now }
{
    let n = payload.len();
    if n == 0 {
        return false;
    }
    let id = payload[0];
    if id == LORA {
        return n == LORA_WHOLE;
    }
    if n < FSK_LEAST {
        return false;
    }
    let word = payload[WORD_LEN_AT] as usize;
    n == FSK_LEAST + word
}

// Whether a payload has a size that its type allows.
fn is_sized(kind: u8, payload: &[u8]) -> bool
    ensures { result ≡ sized kind payload.now }
{
    if kind == SET_CONFIG {
        return is_config_sized(payload);
    }
    let n = payload.len();
    if kind == TX {
        return (TX_LEAST <= n) & (n <= TX_MOST);
    }
    n == 0
}

// Whether the board takes the parameters in a payload of SET_CONFIG. A sync word that is too long
// is no configuration at all.
fn is_config_good(payload: &[u8]) -> bool
    requires payload_value { config_sized payload.now ≡ true }
    requires payload_value_2 { other_modulation payload.now ≡ false }
    ensures { result ≡ params_good sx1262 (config_of payload.now) }
{
    if !form::exactly(modulation::config_form(payload), payload.len()) {
        return false;
    }
    board::params_good(modulation::config_of(payload))
}

// Whether the values in a payload are good.
fn is_good(kind: u8, payload: &[u8]) -> bool
    requires payload_value { sized kind payload.now ≡ true }
    requires payload_value_2 { (eqb kind SET_CONFIG && other_modulation payload.now) ≡ false }
    ensures { result ≡ good sx1262 kind payload.now }
{
    if kind == SET_CONFIG {
        return is_config_good(payload);
    }
    if kind == TX {
        let flags = payload[0];
        return flags <= FLAGS_MAX;
    }
    true
}
