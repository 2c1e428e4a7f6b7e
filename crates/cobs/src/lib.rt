// COBS ("stuffing" in 01): bytes written without a zero, so that a zero can end a frame.
// P appendix A, with the choices of 01 "Bytes on the wire".
#![tactic(auto)]

ghost use Rattle.std.specs.Prelude.{◌≡◌, false, ◌+◌, ◌≤◌, length};
ghost use Rattle.buffer.specs.Lay.{lay};
ghost use Rattle.cobs.specs.Encoding.{group, encoded, worst};
ghost use Rattle.cobs.specs.Decoding.{has_zero, whole, broken, decoded};
ghost use Rattle.cobs.specs.Answers.{encode_answer, encode_left, encoded_result, decode_answer, decode_left, decoded_result};

// The longest body: 01 "Bytes on the wire".
pub const BODY_MAX: usize = 280;
// The most that it becomes when it is encoded.
pub const ENCODED_MAX: usize = 282;
// The bytes of a full group.
pub const FULL: usize = 254;

// What encoding answers.
#[derive(Clone, Copy)]
pub enum Encoded {
    // So many bytes were written.
    Done(usize),
    // The destination is too small.
    Short,
    // The source is too long.
    Length,
}

// What decoding answers.
#[derive(Clone, Copy)]
pub enum Decoded {
    // So many bytes were written.
    Done(usize),
    // The destination is too small.
    Short,
    // The source is no encoding.
    Stuff,
    // The source is too long.
    Length,
}

// Encodes src ("stuffing" in 01) into dst.
pub fn encode(src: &[u8], dst: &mut [u8]) -> Encoded
    ensures result_value { encoded_result result ≡ encoded_result (encode_answer src.now (length dst.old)) }
    ensures dst_after { dst.new ≡ encode_left src.now dst.old }
{
    let n = src.len();
    if BODY_MAX < n {
        return Encoded::Length;
    }
    if dst.len() < worst(n as u16) {
        return Encoded::Short;
    }
    Encoded::Done(encode_into(src, dst))
}

// The most that n bytes become.
pub fn worst(n: u16) -> usize
    ensures { result ≡ worst n }
{
    let n = n as usize;
    n + n / FULL + 1
}

// Writes the encoding of src, group by group: r bytes are read and w written. Internal: callers
// prove that there is room.
pub fn encode_into(src: &[u8], dst: &mut [u8]) -> usize
    requires { worst (length src.now) ≤ length dst.old }
    ensures value { result ≡ length (encoded src.now) }
    ensures dst_after { dst.new ≡ lay 0 (encoded src.now) dst.old }
{
    let mut r = 0;
    let mut w = 0;
    loop {
        let k = copy_group(&src[r..], dst, w + 1);
        let code = k + 1;
        dst[w] = code as u8;
        r += k;
        w += code;
        if k < FULL {
            if src.len() <= r {
                return w;
            }
            r += 1;
        }
    }
}

// Copies the first group of src into dst, from index at on: the bytes up to a zero, 254 at most.
fn copy_group(src: &[u8], dst: &mut [u8], at: usize) -> usize
    requires { at + length (group src.now) ≤ length dst.old }
    ensures value { result ≡ length (group src.now) }
    ensures dst_after { dst.new ≡ lay at (group src.now) dst.old }
{
    let mut most = src.len();
    if FULL < most {
        most = FULL;
    }
    let mut i = 0;
    while i < most {
        let b = src[i];
        if b == 0 {
            return i;
        }
        dst[at + i] = b;
        i += 1;
    }
    i
}

// Decodes src ("unstuffing" in 01) into dst.
pub fn decode(src: &[u8], dst: &mut [u8]) -> Decoded
    ensures result_value { decoded_result result ≡ decoded_result (decode_answer src.now (length dst.old)) }
    ensures dst_after { dst.new ≡ decode_left src.now dst.old }
{
    if ENCODED_MAX < src.len() {
        return Decoded::Length;
    }
    if dst.len() < src.len() {
        return Decoded::Short;
    }
    if is_broken(src) {
        return Decoded::Stuff;
    }
    Decoded::Done(decode_into(src, dst))
}

// Whether src is no encoding. It is looked at whole before a byte is written.
fn is_broken(src: &[u8]) -> bool
    ensures { result ≡ broken src.now }
{
    if src.len() == 0 {
        return true;
    }
    if has_zero(src) {
        return true;
    }
    !is_whole(src)
}

// Whether src has a zero. It does not stop at the first, so that it can look at many at a time.
fn has_zero(src: &[u8]) -> bool
    ensures { result ≡ has_zero src.now }
{
    let mut found = false;
    let mut i = 0;
    while i < src.len() {
        let b = src[i];
        i += 1;
        found = found | (b == 0);
    }
    found
}

// Whether the groups of src end where it ends.
fn is_whole(src: &[u8]) -> bool
    requires { has_zero src.now ≡ false }
    ensures { result ≡ whole 0 src.now }
{
    let mut r = 0;
    while r < src.len() {
        let code = src[r] as usize;
        if src.len() - r < code {
            return false;
        }
        r += code;
    }
    true
}

// Writes the bytes that src stands for, group by group: r bytes are read and w written.
fn decode_into(src: &[u8], dst: &mut [u8]) -> usize
    requires src_value { broken src.now ≡ false }
    requires src_in_bounds { length src.now ≤ length dst.old }
    ensures value { result ≡ length (decoded src.now) }
    ensures dst_after { dst.new ≡ lay 0 (decoded src.now) dst.old }
{
    let mut r = 0;
    let mut w = 0;
    while r < src.len() {
        let code = src[r] as usize;
        let first = r + 1;
        r += code;
        buffer::copy(&src[first..r], dst, w);
        w += code - 1;
        if code != FULL + 1 {
            if r < src.len() {
                dst[w] = 0;
                w += 1;
            }
        }
    }
    w
}
