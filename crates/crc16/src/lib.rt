// The check value of a frame ("check" in 01): CRC-16 with polynomial 0x1021 and start 0xFFFF, not
// reflected, with no final xor, as P appendix B has it.
#![tactic(auto)]

ghost use Rattle.std.specs.Prelude.{◌≡◌};
ghost use Rattle.crc16.specs.Crc.{byte, crc_of};

// What the register holds before the first byte.
const START: u16 = 0xFFFF;

// The register c after one byte more. Its eight bits are worked at once and without a table: q is
// what the bits shifted out add up to, and the polynomial 0x1021 has its ones at 12, 5 and 0.
fn step(c: u16, b: u8) -> u16
    ensures { result ≡ byte c b }
{
    let v = c ^ ((b as u16) << 8);
    let k = v >> 8;
    let q = k ^ (k >> 4);
    (((q << 12) ^ (q << 5)) ^ q) ^ (v << 8)
}

// The check value of src.
pub fn crc16(src: &[u8]) -> u16
    ensures { result ≡ crc_of src.now }
{
    let mut c = START;
    let mut i = 0;
    while i < src.len() {
        c = step(c, src[i]);
        i += 1;
    }
    c
}
