// Modulations and their parameters: P 10. LoRa and FSK, as 01 covers them.
#![tactic(auto)]

ghost use Rattle.std.specs.Prelude.{◌≡◌, true, ◌∷◌, ◌++◌, ◌+◌, ◌≤◌, length};
ghost use Rattle.buffer.specs.Lay.{lay};
ghost use Rattle.form.specs.Forms.{at_least};
ghost use Rattle.modulation.specs.Lora.{lora_size, lora_of, lora_bytes};
ghost use Rattle.modulation.specs.Fsk.{fsk_size, fsk_of, fsk_bytes};
ghost use Rattle.modulation.specs.Modulations.{config_form, config_of, config_bytes, sync_word};

use form::Form;

// P 10: modulation_id.
pub const LORA: u8 = 1;

pub const FSK: u8 = 2;
// Where the parameters stand in the payload of a configuration, after the modulation: P 6.3.
pub const PARAMS: usize = 1;
// The bytes of LoRa's parameters, and where sf and bw stand among them: P 10.1.
pub const LORA_SIZE: usize = 15;

pub const SF: usize = 4;

pub const BW: usize = 5;
// The bytes of FSK's parameters before the sync word, and where its length stands among them: P 10.2.
pub const FSK_SIZE: usize = 16;

pub const SYNC_WORD_LEN: usize = 15;
// The longest sync word: P 10.2.
pub const SYNC_WORD_MAX: u8 = 8;

// LoRa's parameters: P 10.1.
#[derive(Clone, Copy)]
pub struct Lora {
    pub freq_hz: u32,
    pub sf: u8,
    pub bw: u8,
    pub cr: u8,
    pub preamble_len: u16,
    pub sync_word: u16,
    pub tx_power_dbm: i8,
    pub header_mode: u8,
    pub payload_crc: u8,
    pub iq_invert: u8,
}

// FSK's parameters: P 10.2. The sync word stays in the caller's bytes.
#[derive(Clone, Copy)]
pub struct Fsk {
    pub freq_hz: u32,
    pub bitrate_bps: u32,
    pub freq_dev_hz: u32,
    pub rx_bw: u8,
    pub preamble_len: u16,
    pub sync_word_len: u8,
}

// A modulation with its parameters.
#[derive(Clone, Copy)]
pub enum Modulation {
    Lora(Lora),
    Fsk(Fsk),
}

// The form of a configuration's payload.
pub fn config_form(payload: &[u8]) -> Form
    ensures { result ≡ config_form payload.now }
{
    if payload.len() == 0 {
        return Form::Wrong;
    }
    let id = payload[0];
    if id == LORA {
        return Form::Size(PARAMS + LORA_SIZE);
    }
    if id != FSK {
        return Form::Wrong;
    }
    if payload.len() < PARAMS + FSK_SIZE {
        return Form::Wrong;
    }
    let word = payload[PARAMS + SYNC_WORD_LEN];
    if SYNC_WORD_MAX < word {
        return Form::Wrong;
    }
    Form::Size(PARAMS + FSK_SIZE + word as usize)
}

// The configuration in a payload of that form. Internal, as the next: callers prove the
// form, and that there is room.
pub fn config_of(payload: &[u8]) -> Modulation
    requires { at_least (config_form payload.now) (length payload.now) ≡ true }
    ensures { result ≡ config_of payload.now }
{
    let modulation = payload[0];
    let params = &payload[PARAMS..];
    if modulation == LORA {
        return Modulation::Lora(lora_of(params));
    }
    Modulation::Fsk(fsk_of(params))
}

// The sync word in a payload, none for LoRa; what there is of it where the payload is not of that
// form.
pub fn sync_word(payload: &[u8]) -> &[u8]
    ensures { result.now ≡ sync_word payload.now }
{
    if payload.len() <= PARAMS + SYNC_WORD_LEN {
        return &payload[..0];
    }
    if payload[0] != FSK {
        return &payload[..0];
    }
    let len = payload[PARAMS + SYNC_WORD_LEN];
    buffer::part(payload, PARAMS + FSK_SIZE, len as usize)
}

// Writes the payload of a configuration, with the bytes of its sync word, from index at on, and
// answers where it ends.
pub fn put_config(m: Modulation, word: &[u8], dst: &mut [u8], at: usize) -> usize
    requires { at + length (config_bytes m word.now) ≤ length dst.old }
    ensures value { result ≡ at + length (config_bytes m word.now) }
    ensures dst_after { dst.new ≡ lay at (config_bytes m word.now) dst.old }
{
    match m {
        Modulation::Lora(params) => {
            let bytes = lora_bytes(params);
            put_parts(LORA, &bytes, word, dst, at)
        }
        Modulation::Fsk(params) => {
            let bytes = fsk_bytes(params);
            put_parts(FSK, &bytes, word, dst, at)
        }
    }
}

// Writes a modulation, its parameters and a sync word, from index at on.
fn put_parts(id: u8, params: &[u8], word: &[u8], dst: &mut [u8], at: usize) -> usize
    requires { at + length (id ∷ (params.now ++ word.now)) ≤ length dst.old }
    ensures value { result ≡ at + length (id ∷ (params.now ++ word.now)) }
    ensures dst_after { dst.new ≡ lay at (id ∷ (params.now ++ word.now)) dst.old }
{
    let first = at + 1;
    let second = first + params.len();
    dst[at] = id;
    buffer::copy(params, dst, first);
    buffer::copy(word, dst, second);
    second + word.len()
}

// LoRa's parameters in some bytes.
fn lora_of(params: &[u8]) -> Lora
    requires { lora_size ≤ length params.now }
    ensures { result ≡ lora_of params.now }
{
    let freq_hz = scalar::u32_at(params, 0);
    let preamble_len = scalar::u16_at(params, 7);
    let sync_word = scalar::u16_at(params, 9);
    let tx_power_dbm = scalar::i8_of(params[11]);
    Lora {
        freq_hz,
        sf: params[SF],
        bw: params[BW],
        cr: params[6],
        preamble_len,
        sync_word,
        tx_power_dbm,
        header_mode: params[12],
        payload_crc: params[13],
        iq_invert: params[14],
    }
}

// The bytes of LoRa's parameters.
fn lora_bytes(m: Lora) -> [u8; LORA_SIZE]
    ensures { result ≡ lora_bytes m }
{
    let freq = scalar::bytes_of_u64(m.freq_hz as u64);
    let preamble = scalar::bytes_of_u64(m.preamble_len as u64);
    let word = scalar::bytes_of_u64(m.sync_word as u64);
    let power = scalar::u8_of(m.tx_power_dbm);
    [
        freq.b0,
        freq.b1,
        freq.b2,
        freq.b3,
        m.sf,
        m.bw,
        m.cr,
        preamble.b0,
        preamble.b1,
        word.b0,
        word.b1,
        power,
        m.header_mode,
        m.payload_crc,
        m.iq_invert,
    ]
}

// FSK's parameters in some bytes.
fn fsk_of(params: &[u8]) -> Fsk
    requires { fsk_size ≤ length params.now }
    ensures { result ≡ fsk_of params.now }
{
    let freq_hz = scalar::u32_at(params, 0);
    let bitrate_bps = scalar::u32_at(params, 4);
    let freq_dev_hz = scalar::u32_at(params, 8);
    let preamble_len = scalar::u16_at(params, 13);
    Fsk {
        freq_hz,
        bitrate_bps,
        freq_dev_hz,
        rx_bw: params[12],
        preamble_len,
        sync_word_len: params[SYNC_WORD_LEN],
    }
}

// The bytes of FSK's parameters, without the sync word.
fn fsk_bytes(m: Fsk) -> [u8; FSK_SIZE]
    ensures { result ≡ fsk_bytes m }
{
    let freq = scalar::bytes_of_u64(m.freq_hz as u64);
    let bitrate = scalar::bytes_of_u64(m.bitrate_bps as u64);
    let deviation = scalar::bytes_of_u64(m.freq_dev_hz as u64);
    let preamble = scalar::bytes_of_u64(m.preamble_len as u64);
    [
        freq.b0,
        freq.b1,
        freq.b2,
        freq.b3,
        bitrate.b0,
        bitrate.b1,
        bitrate.b2,
        bitrate.b3,
        deviation.b0,
        deviation.b1,
        deviation.b2,
        deviation.b3,
        m.rx_bw,
        preamble.b0,
        preamble.b1,
        m.sync_word_len,
    ]
}
