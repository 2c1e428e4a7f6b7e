// The payload of an answer, written: P 6.7 to 6.10, with the OK's payloads of P 6.2 and 6.3.
#![tactic(auto)]

ghost use Rattle.std.specs.Prelude.{◌≡◌, ◌++◌, ◌≤◌, length};
ghost use Rattle.buffer.specs.Lay.{lay};
ghost use Rattle.answer.specs.Answers.{answer_bytes, configured_bytes, tx_done_bytes};

use answer::{Answer, CONFIGURED_SIZE, Configured, TX_DONE_SIZE};

// Writes the payload of an answer with its bytes, and returns its length. Internal: callers prove
// that there is room.
pub fn put_answer(a: Answer, bytes: &[u8], dst: &mut [u8]) -> usize
    requires { length (answer_bytes a bytes.now) ≤ length dst.old }
    ensures value { result ≡ length (answer_bytes a bytes.now) }
    ensures dst_after { dst.new ≡ lay 0 (answer_bytes a bytes.now) dst.old }
{
    match a {
        Answer::Ok => {
            buffer::copy(bytes, dst, 0);
            bytes.len()
        }
        Answer::Info(m) => info::put_info(m, bytes, dst),
        Answer::Configured(m) => put_configured(m, bytes, dst),
        Answer::Err { code } => {
            let head = scalar::bytes_of_u16(code);
            put_parts(&head, bytes, dst)
        }
        Answer::Rx(m) => {
            let head = rx::rx_bytes(m);
            put_parts(&head, bytes, dst)
        }
        Answer::TxDone { result, airtime_us } => {
            let head = tx_done_bytes(result, airtime_us);
            put_parts(&head, bytes, dst)
        }
    }
}

// Writes the payload of an OK to SET_CONFIG.
fn put_configured(m: Configured, word: &[u8], dst: &mut [u8]) -> usize
    requires { length (configured_bytes m word.now) ≤ length dst.old }
    ensures value { result ≡ length (configured_bytes m word.now) }
    ensures dst_after { dst.new ≡ lay 0 (configured_bytes m word.now) dst.old }
{
    let current = m.current;
    dst[0] = m.result;
    dst[1] = m.owner;
    modulation::put_config(current, word, dst, CONFIGURED_SIZE)
}

// The bytes of a TX_DONE.
pub fn tx_done_bytes(res: u8, airtime: u32) -> [u8; TX_DONE_SIZE]
    ensures { result ≡ tx_done_bytes res airtime }
{
    let time = scalar::bytes_of_u64(airtime as u64);
    [res, time.b0, time.b1, time.b2, time.b3]
}

// Writes fields, and bytes after them.
fn put_parts(fields: &[u8], bytes: &[u8], dst: &mut [u8]) -> usize
    requires { length (fields.now ++ bytes.now) ≤ length dst.old }
    ensures value { result ≡ length (fields.now ++ bytes.now) }
    ensures dst_after { dst.new ≡ lay 0 (fields.now ++ bytes.now) dst.old }
{
    let at = fields.len();
    buffer::copy(fields, dst, 0);
    buffer::copy(bytes, dst, at);
    at + bytes.len()
}
