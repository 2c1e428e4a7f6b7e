// Numbers in a payload: P 5.1. Each stands low byte first, a signed one in two's complement.
// Internal: callers of those that read prove that the bytes are there.
#![tactic(auto)]

ghost use Rattle.std.specs.Prelude.{◌≡◌, [], ◌∷◌, ◌+◌, ◌≤◌, length};
ghost use Rattle.scalar.specs.Scalars.{le, sign8, sign16, sign32, unsigned, signed, column, get};

// The u16 at index at.
pub fn u16_at(s: &[u8], at: usize) -> u16
    requires { at + 2 ≤ length s.now }
    ensures { result ≡ get (column at 2) s.now }
{
    let low = s[at] as u16;
    let high = s[at + 1] as u16;
    low + 256 * high
}

// The u32 at index at.
pub fn u32_at(s: &[u8], at: usize) -> u32
    requires { at + 4 ≤ length s.now }
    ensures { result ≡ get (column at 4) s.now }
{
    let low = u16_at(s, at) as u32;
    let high = u16_at(s, at + 2) as u32;
    low + 65536 * high
}

// The u64 at index at.
pub fn u64_at(s: &[u8], at: usize) -> u64
    requires { at + 8 ≤ length s.now }
    ensures { result ≡ get (column at 8) s.now }
{
    let low = u32_at(s, at) as u64;
    let high = u32_at(s, at + 4) as u64;
    low + 4294967296 * high
}

// The bytes of a u16.
pub fn bytes_of_u16(x: u16) -> [u8; 2]
    ensures { result ≡ le 2 x }
{
    let high = x / 256;
    [(x % 256) as u8, (high % 256) as u8]
}

// Eight bytes, low byte first. They are fields and no array, so that a literal of more bytes can
// name each in its place.
#[derive(Clone, Copy)]
pub struct Eight {
    pub b0: u8,
    pub b1: u8,
    pub b2: u8,
    pub b3: u8,
    pub b4: u8,
    pub b5: u8,
    pub b6: u8,
    pub b7: u8,
}

// The bytes of a u64. Those of a smaller number are the first of them.
pub fn bytes_of_u64(x: u64) -> Eight
    ensures { result.b0 ∷ result.b1 ∷ result.b2 ∷ result.b3 ∷ result.b4 ∷ result.b5 ∷ result.b6 ∷ result.b7 ∷ [] ≡ le 8 x }
{
    let b = x / 256;
    let c = b / 256;
    let d = c / 256;
    let e = d / 256;
    let f = e / 256;
    let g = f / 256;
    let h = g / 256;
    Eight {
        b0: (x % 256) as u8,
        b1: (b % 256) as u8,
        b2: (c % 256) as u8,
        b3: (d % 256) as u8,
        b4: (e % 256) as u8,
        b5: (f % 256) as u8,
        b6: (g % 256) as u8,
        b7: (h % 256) as u8,
    }
}

// The i8 with the byte u.
pub fn i8_of(u: u8) -> i8
    ensures { result ≡ signed sign8 u }
{
    if u < 0x80 {
        return u as i8;
    }
    let wide = u as i16;
    (wide - 0x100) as i8
}

// The i16 with the bytes of u.
pub fn i16_of(u: u16) -> i16
    ensures { result ≡ signed sign16 u }
{
    if u < 0x8000 {
        return u as i16;
    }
    let wide = u as i32;
    (wide - 0x10000) as i16
}

// The i32 with the bytes of u.
pub fn i32_of(u: u32) -> i32
    ensures { result ≡ signed sign32 u }
{
    if u < 0x80000000 {
        return u as i32;
    }
    let wide = u as i64;
    (wide - 0x100000000) as i32
}

// The byte of an i8.
pub fn u8_of(x: i8) -> u8
    ensures { result ≡ unsigned sign8 x }
{
    if x < 0 {
        let wide = x as i16;
        return (wide + 0x100) as u8;
    }
    x as u8
}

// The u16 with the bytes of an i16.
pub fn u16_of(x: i16) -> u16
    ensures { result ≡ unsigned sign16 x }
{
    if x < 0 {
        let wide = x as i32;
        return (wide + 0x10000) as u16;
    }
    x as u16
}

// The u32 with the bytes of an i32.
pub fn u32_of(x: i32) -> u32
    ensures { result ≡ unsigned sign32 x }
{
    if x < 0 {
        let wide = x as i64;
        return (wide + 0x100000000) as u32;
    }
    x as u32
}
