// Text in lent memory: each function writes from an index on, and answers where what it wrote ends.
// Internal: callers prove that there is room.
#![tactic(auto)]

ghost use Rattle.std.specs.Prelude.{◌≡◌, ◌+◌, ◌≤◌, ◌<◌, length};
ghost use Rattle.buffer.specs.Lay.{lay};
ghost use Rattle.text.specs.Text.{digit, decimal, hex};

// Writes some bytes as they are.
pub fn put(bytes: &[u8], dst: &mut [u8], from: usize) -> usize
    requires { from + length bytes.now ≤ length dst.old }
    ensures value { result ≡ from + length bytes.now }
    ensures dst_after { dst.new ≡ lay from bytes.now dst.old }
{
    buffer::copy(bytes, dst, from);
    from + bytes.len()
}

// Writes a number in decimal.
pub fn decimal(n: u64, dst: &mut [u8], from: usize) -> usize
    requires { from + length (decimal n) ≤ length dst.old }
    ensures value { result ≡ from + length (decimal n) }
    ensures dst_after { dst.new ≡ lay from (decimal n) dst.old }
{
    let mut digits = [0u8; 20];
    let k = io::decimal(n, &mut digits);
    put(&digits[..k], dst, from)
}

// One hexadecimal digit, in upper case.
fn digit(d: u8) -> u8
    requires { d < 16 }
    ensures { result ≡ digit d }
{
    if d < 10 {
        return b'0' + d;
    }
    b'A' + (d - 10)
}

// Writes some bytes as two hexadecimal digits each.
pub fn hex(bytes: &[u8], dst: &mut [u8], from: usize) -> usize
    requires { from + length (hex bytes.now) ≤ length dst.old }
    ensures value { result ≡ from + length (hex bytes.now) }
    ensures dst_after { dst.new ≡ lay from (hex bytes.now) dst.old }
{
    let mut at = from;
    let mut i = 0;
    while i < bytes.len() {
        let b = bytes[i];
        i += 1;
        dst[at] = digit(b / 16);
        dst[at + 1] = digit(b % 16);
        at += 2;
    }
    at
}
