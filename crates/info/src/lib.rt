// What the device says of itself, the OK to GET_INFO: P 6.2.
#![tactic(auto)]

ghost use Rattle.std.specs.Prelude.{◌≡◌, true, ◌≤◌, length};
ghost use Rattle.buffer.specs.Lay.{lay};
ghost use Rattle.scalar.specs.Scalars.{column, get};
ghost use Rattle.form.specs.Forms.{at_least};
ghost use Rattle.info.specs.Info.{info_form, info_of, mcu_uid_of, radio_uid_of, info_head, info_bytes};

use form::Form;

// The bytes of an OK to GET_INFO up to mcu_uid: P 6.2.
pub const INFO_SIZE: usize = 36;
// Where mcu_uid_len stands among them.
const MCU_UID_LEN: usize = 35;
// The longest uids: P 6.2.
const MCU_MAX: u8 = 32;

const RADIO_MAX: u8 = 16;
// What the device says of itself: P 6.2. The uids stay in the caller's bytes, mcu_uid first.
#[derive(Clone, Copy)]
pub struct Info {
    pub proto_major: u8,
    pub proto_minor: u8,
    pub fw_major: u8,
    pub fw_minor: u8,
    pub fw_patch: u8,
    pub radio_chip_id: u16,
    pub capability_bitmap: u64,
    pub supported_sf_bitmap: u16,
    pub supported_bw_bitmap: u16,
    pub max_payload_bytes: u16,
    pub rx_queue_capacity: u16,
    pub tx_queue_capacity: u16,
    pub freq_min_hz: u32,
    pub freq_max_hz: u32,
    pub tx_power_min_dbm: i8,
    pub tx_power_max_dbm: i8,
    pub mcu_uid_len: u8,
    pub radio_uid_len: u8,
}

// The form of a payload.
pub fn info_form(payload: &[u8]) -> Form
    ensures { result ≡ info_form payload.now }
{
    if payload.len() < INFO_SIZE {
        return Form::Wrong;
    }
    let mcu = payload[MCU_UID_LEN];
    if MCU_MAX < mcu {
        return Form::Wrong;
    }
    let at = INFO_SIZE + mcu as usize;
    if payload.len() < at + 1 {
        return Form::Wrong;
    }
    let radio = payload[at];
    if RADIO_MAX < radio {
        return Form::Wrong;
    }
    Form::Size(at + 1 + radio as usize)
}

// The fields in a payload of that form. Internal: callers prove the form.
pub fn info_of(payload: &[u8]) -> Info
    requires { at_least (info_form payload.now) (length payload.now) ≡ true }
    ensures { result ≡ info_of payload.now }
{
    let radio_chip_id = scalar::u16_at(payload, 5);
    let capability_bitmap = scalar::u64_at(payload, 7);
    let supported_sf_bitmap = scalar::u16_at(payload, 15);
    let supported_bw_bitmap = scalar::u16_at(payload, 17);
    let max_payload_bytes = scalar::u16_at(payload, 19);
    let rx_queue_capacity = scalar::u16_at(payload, 21);
    let tx_queue_capacity = scalar::u16_at(payload, 23);
    let freq_min_hz = scalar::u32_at(payload, 25);
    let freq_max_hz = scalar::u32_at(payload, 29);
    let tx_power_min_dbm = scalar::i8_of(payload[33]);
    let tx_power_max_dbm = scalar::i8_of(payload[34]);
    let mcu_uid_len = payload[MCU_UID_LEN];
    Info {
        proto_major: payload[0],
        proto_minor: payload[1],
        fw_major: payload[2],
        fw_minor: payload[3],
        fw_patch: payload[4],
        radio_chip_id,
        capability_bitmap,
        supported_sf_bitmap,
        supported_bw_bitmap,
        max_payload_bytes,
        rx_queue_capacity,
        tx_queue_capacity,
        freq_min_hz,
        freq_max_hz,
        tx_power_min_dbm,
        tx_power_max_dbm,
        mcu_uid_len,
        radio_uid_len: payload[INFO_SIZE + mcu_uid_len as usize],
    }
}

// The uid of the MCU in a payload; what there is of it where the payload is not of that form.
pub fn mcu_uid(payload: &[u8]) -> &[u8]
    ensures { result.now ≡ mcu_uid_of payload.now }
{
    buffer::part(payload, INFO_SIZE, byte(payload, MCU_UID_LEN) as usize)
}

// The uid of the radio, likewise.
pub fn radio_uid(payload: &[u8]) -> &[u8]
    ensures { result.now ≡ radio_uid_of payload.now }
{
    let at = INFO_SIZE + byte(payload, MCU_UID_LEN) as usize;
    buffer::part(payload, at + 1, byte(payload, at) as usize)
}

// The byte at index at, and zero past the end.
fn byte(payload: &[u8], at: usize) -> u8
    ensures { result ≡ get (column at 1) payload.now }
{
    if payload.len() <= at {
        return 0;
    }
    payload[at]
}

// Writes a payload at the start of dst, with the uids one after the other, and returns its length.
// Internal: callers prove that there is room.
pub fn put_info(m: Info, uids: &[u8], dst: &mut [u8]) -> usize
    requires { length (info_bytes m uids.now) ≤ length dst.old }
    ensures value { result ≡ length (info_bytes m uids.now) }
    ensures dst_after { dst.new ≡ lay 0 (info_bytes m uids.now) dst.old }
{
    let head = info_head(m);
    let mcu = buffer::part(uids, 0, m.mcu_uid_len as usize);
    let radio = buffer::from(uids, m.mcu_uid_len as usize);
    let at = INFO_SIZE + mcu.len();
    buffer::copy(&head, dst, 0);
    buffer::copy(mcu, dst, INFO_SIZE);
    dst[at] = m.radio_uid_len;
    buffer::copy(radio, dst, at + 1);
    at + 1 + radio.len()
}

// The bytes up to mcu_uid.
fn info_head(m: Info) -> [u8; INFO_SIZE]
    ensures { result ≡ info_head m }
{
    let chip = scalar::bytes_of_u64(m.radio_chip_id as u64);
    let cap = scalar::bytes_of_u64(m.capability_bitmap);
    let sf = scalar::bytes_of_u64(m.supported_sf_bitmap as u64);
    let bw = scalar::bytes_of_u64(m.supported_bw_bitmap as u64);
    let most = scalar::bytes_of_u64(m.max_payload_bytes as u64);
    let rx = scalar::bytes_of_u64(m.rx_queue_capacity as u64);
    let tx = scalar::bytes_of_u64(m.tx_queue_capacity as u64);
    let low = scalar::bytes_of_u64(m.freq_min_hz as u64);
    let high = scalar::bytes_of_u64(m.freq_max_hz as u64);
    let weak = scalar::u8_of(m.tx_power_min_dbm);
    let strong = scalar::u8_of(m.tx_power_max_dbm);
    [
        m.proto_major,
        m.proto_minor,
        m.fw_major,
        m.fw_minor,
        m.fw_patch,
        chip.b0,
        chip.b1,
        cap.b0,
        cap.b1,
        cap.b2,
        cap.b3,
        cap.b4,
        cap.b5,
        cap.b6,
        cap.b7,
        sf.b0,
        sf.b1,
        bw.b0,
        bw.b1,
        most.b0,
        most.b1,
        rx.b0,
        rx.b1,
        tx.b0,
        tx.b1,
        low.b0,
        low.b1,
        low.b2,
        low.b3,
        high.b0,
        high.b1,
        high.b2,
        high.b3,
        weak,
        strong,
        m.mcu_uid_len,
    ]
}
