// Numbers in a script: decimal ones, with a sign or without, and bytes in hexadecimal.
ghost use Rattle.std.specs.Prelude.{◌≡◌, ◌+◌, ◌<◌, ◌≤◌, IfSome};
ghost use Rattle.script.specs.Numbers.{decimal_in, signed_in, nibble, byte_of};

// A word as a decimal number up to most.
pub(crate) fn decimal(word: &[u8], most: u64) -> Option<u64>
    ensures value { result ≡ decimal_in most word.now }
    ensures within { IfSome result (λ n. n ≤ most) }
{
    if word.is_empty() {
        return None;
    }
    let mut n: u64 = 0;
    for c in word {
        if !c.is_ascii_digit() {
            return None;
        }
        n = n.checked_mul(10)?.checked_add((*c - b'0') as u64)?;
        if most < n {
            return None;
        }
    }
    Some(n)
}

// A word as a signed decimal number, of a type of which half the numbers are below zero. It comes in
// two's complement.
pub(crate) fn signed(word: &[u8], half: u64) -> Option<u64>
    requires { (1 ≤ half) × (half ≤ 0x80000000) }
    ensures value { result ≡ signed_in half word.now }
    ensures within { IfSome result (λ n. n < half + half) }
{
    let Some(digits) = word.strip_prefix(b"-") else {
        return decimal(word, half - 1);
    };
    match decimal(digits, half)? {
        0 => Some(0),
        n => Some(2 * half - n),
    }
}

// The value of a hexadecimal digit, in either case.
fn nibble(c: u8) -> Option<u8>
    ensures value { result ≡ nibble c }
    ensures within { IfSome result (λ d. d < 16) }
{
    match c {
        b'0'..=b'9' => Some(c - b'0'),
        b'A'..=b'F' => Some(c - b'A' + 10),
        b'a'..=b'f' => Some(c - b'a' + 10),
        _ => None,
    }
}

// A word of two hexadecimal digits as a byte.
pub(crate) fn byte_of(word: &[u8]) -> Option<u8>
    ensures { result ≡ byte_of word.now }
{
    let [high, low] = word else {
        return None;
    };
    Some(nibble(*high)? * 16 + nibble(*low)?)
}
