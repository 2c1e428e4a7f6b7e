// A line of the table: columns with a bar between them, and numbers or bytes in a column.

// The columns, after what kind of line it is.
pub(crate) const LABEL_COLUMN: usize = 1;

pub(crate) const TAG_COLUMN: usize = 2;

const FIELDS_COLUMN: usize = 3;

pub(crate) const BYTES_COLUMN: usize = 4;

pub(crate) const BODY_COLUMN: usize = 5;

pub(crate) const FRAME_COLUMN: usize = 6;

// The most fields that a line has: those of the OK to GET_INFO, after two types.
pub(crate) const FIELDS_MAX: usize = 20;
// A number of more digits loses the first.
const DIGITS: u64 = 1000000000000000000;

// What kind of line it is, by its first letter.
pub(crate) fn kind(line: &[u8]) -> Option<u8> {
    line.first().copied()
}

// The column with index k; none past the last.
pub(crate) fn column(line: &[u8], k: usize) -> &[u8] {
    line.split(|b| *b == b'|').nth(k).unwrap_or(&[])
}

// The value of a digit, in upper case.
fn value(b: u8) -> u8 {
    match b {
        ..b'0' => 0,
        b'0'..b'A' => b - b'0',
        _ => b - b'A' + 10,
    }
}

// A number in decimal. A negative one is in two's complement.
pub(crate) fn number(digits: &[u8]) -> u64 {
    let mut n: u64 = 0;
    for b in digits {
        n = n % DIGITS * 10 + value(*b) as u64 % 10;
    }
    if digits.starts_with(b"-") {
        return 0u64.wrapping_sub(n);
    }
    n
}

// The numbers of a line.
pub(crate) fn fields(line: &[u8]) -> [u64; FIELDS_MAX] {
    let mut f = [0u64; FIELDS_MAX];
    let numbers = column(line, FIELDS_COLUMN).split(|b| *b == b' ');
    for (x, digits) in f.iter_mut().zip(numbers) {
        *x = number(digits);
    }
    f
}

// Puts the bytes that a text shows at the start of memory of zeros, and answers how many they are.
pub(crate) fn put(shown: &[u8], memory: &mut [u8]) -> usize {
    let mut n = 0;
    for b in shown {
        if *b != b' ' && n / 2 < memory.len() {
            memory[n / 2] = memory[n / 2] % 16 * 16 + value(*b) % 16;
            n += 1;
        }
    }
    n / 2
}

// The tag of a line.
pub(crate) fn tag(line: &[u8]) -> u16 {
    let mut bytes = [0u8; 2];
    put(column(line, TAG_COLUMN), &mut bytes);
    u16::from_be_bytes(bytes)
}
