// Bytes as P prints them: two digits each, with a blank between.
use crate::table;
use frame::FRAME_MAX;

// Whether P's text shows these bytes.
pub(crate) fn shows(text: &[u8], bytes: &[u8]) -> bool {
    let mut memory = [0u8; FRAME_MAX];
    let n = table::put(text, &mut memory);
    buffer::part(&memory, 0, n) == bytes
}

// Writes bytes as they are, if it can.
pub(crate) fn put(rt: &impl Print, bytes: &[u8]) {
    let _ = rt.write_all(bytes);
}

// Prints bytes, each after a blank. By their digits and not by {b:02X}, which, tried, takes three times the instructions.
pub(crate) fn print(rt: &impl Print, bytes: &[u8]) {
    let digits = b"0123456789ABCDEF";
    for b in bytes {
        put(
            rt,
            &[b' ', digits[(*b / 16) as usize], digits[(*b % 16) as usize]],
        );
    }
}
