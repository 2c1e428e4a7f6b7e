// A line of a script.
ghost use Rattle.std.specs.Prelude.{◌≡◌, ◌+◌, ◌<◌, ◌≤◌, length, take, IfSome, MatchOption};
ghost use Rattle.buffer.specs.Lay.{lay};
ghost use Rattle.script.specs.Words.{words, word, others};
ghost use Rattle.script.specs.Numbers.{decimal_in, signed_in};
ghost use Rattle.script.specs.Items.{any_words, one, head_in, tail_in, count_of, leading, name_item, byte_item, packet_item, packet_bytes};
ghost use Rattle.script.specs.Items.{tick_item, sent_item, plain_item, item_of, item_bytes, comment, line_item, line_bytes};

use crate::{number, word};

// What a line of a script says.
#[derive(Clone, Copy)]
pub enum Item {
    // Nothing: it is blank, or a comment.
    Nothing,
    // Byte events, so many.
    Bytes(usize),
    // Tick events, so many.
    Ticks(u64),
    Clear,
    Busy,
    // Sent, with its airtime.
    Sent(u32),
    Configured,
    Fault,
    // A packet, with so many bytes.
    Packet {
        rssi: i16,
        snr: i16,
        freq_err: i32,
        timestamp_us: u64,
        crc_valid: bool,
        len: usize,
    },
    Request,
    Disconnect,
    // No event: so many bytes of output are lent from here on.
    Room(u64),
}

// What a packet's line has before its bytes. Signed numbers are in two's complement.
#[derive(Clone, Copy)]
struct Head {
    rssi: u16,
    snr: u16,
    freq_err: u32,
    timestamp_us: u64,
    crc_valid: bool,
}

// Reads a line, without its line end; a bad line is none of the items. Bytes of byte and packet are
// put into memory, from its start on; a line with more of them than the memory takes is bad.
pub fn read(line: &[u8], memory: &mut [u8]) -> Option<Item>
    ensures value { result ≡ line_item (length memory.old) line.now }
    ensures memory_after { memory.new ≡ lay 0 (line_bytes (length memory.old) line.now) memory.old }
{
    if is_comment(line) {
        return Some(Item::Nothing);
    }
    read_words(line.strip_suffix(b"\r").unwrap_or(line), memory)
}

// Whether a line is a comment.
#[tactic(auto, using(crate::proofs::Items::comment_is))]
fn is_comment(line: &[u8]) -> bool
    ensures { result ≡ comment line.now }
{
    line.starts_with(b"#")
}

// Reads the words of a line.
#[tactic(auto, unfolding(crate::specs::Items::named_item, crate::specs::Items::named_bytes))]
fn read_words(line: &[u8], memory: &mut [u8]) -> Option<Item>
    ensures value { result ≡ item_of (length memory.old) (words line.now) }
    ensures memory_after { memory.new ≡ lay 0 (item_bytes (length memory.old) (words line.now)) memory.old }
{
    let Some((name, args)) = word::split_first(line) else {
        return Some(Item::Nothing);
    };
    if name == b"byte".as_slice() {
        return byte(args, memory);
    }
    if name == b"packet".as_slice() {
        return packet(args, memory);
    }
    plain(name, args)
}

// A line that has no bytes.
#[tactic(auto, unfolding(crate::specs::Items::plain_item))]
fn plain(name: &[u8], args: &[u8]) -> Option<Item>
    ensures { result ≡ plain_item name.now (words args.now) }
{
    if name == b"tick".as_slice() {
        return tick(args);
    }
    if name == b"sent".as_slice() {
        return sent(args);
    }
    if name == b"room".as_slice() {
        return one(args, u64::MAX).map(Item::Room);
    }
    if word::split_first(args).is_some() {
        return None;
    }
    alone(name)
}

// A line of one word. Not a match on the names: byte patterns were tried, and leave 43 default goals.
#[tactic(auto, unfolding(crate::specs::Items::name_item))]
fn alone(name: &[u8]) -> Option<Item>
    ensures { result ≡ name_item name.now }
{
    if name == b"clear".as_slice() {
        Some(Item::Clear)
    } else if name == b"busy".as_slice() {
        Some(Item::Busy)
    } else if name == b"configured".as_slice() {
        Some(Item::Configured)
    } else if name == b"fault".as_slice() {
        Some(Item::Fault)
    } else if name == b"request".as_slice() {
        Some(Item::Request)
    } else if name == b"disconnect".as_slice() {
        Some(Item::Disconnect)
    } else {
        None
    }
}

// The first word as a number up to most, and what follows it.
#[tactic(auto, unfolding(crate::specs::Numbers::decimal_in))]
fn decimal(args: &[u8], most: u64) -> Option<(u64, &[u8])>
    ensures number { MatchOption result (decimal_in most (word (words args.now)) ≡ None) (λ p. decimal_in most (word (words args.now)) ≡ Some p.0) }
    ensures rest { IfSome result (λ p. (p.0 ≤ most) × (words p.1.now ≡ others (words args.now))) }
{
    let (w, rest) = word::split_first(args)?;
    Some((number::decimal(w, most)?, rest))
}

// The first word as a signed number, and what follows it.
#[tactic(auto, unfolding(crate::specs::Numbers::signed_in))]
fn signed(args: &[u8], half: u64) -> Option<(u64, &[u8])>
    requires { (1 ≤ half) × (half ≤ 0x80000000) }
    ensures number { MatchOption result (signed_in half (word (words args.now)) ≡ None) (λ p. signed_in half (word (words args.now)) ≡ Some p.0) }
    ensures rest { IfSome result (λ p. (p.0 < half + half) × (words p.1.now ≡ others (words args.now))) }
{
    let (w, rest) = word::split_first(args)?;
    Some((number::signed(w, half)?, rest))
}

// One word, that is a number up to most.
fn one(args: &[u8], most: u64) -> Option<u64>
    ensures value { result ≡ one most (words args.now) }
    ensures within { IfSome result (λ n. n ≤ most) }
{
    let (n, rest) = decimal(args, most)?;
    if word::split_first(rest).is_some() {
        return None;
    }
    Some(n)
}

// tick, or tick N
fn tick(args: &[u8]) -> Option<Item>
    ensures { result ≡ tick_item (words args.now) }
{
    if word::split_first(args).is_none() {
        return Some(Item::Ticks(1));
    }
    one(args, u64::MAX).map(Item::Ticks)
}

// sent N
fn sent(args: &[u8]) -> Option<Item>
    ensures { result ≡ sent_item (words args.now) }
{
    Some(Item::Sent(one(args, u32::MAX as u64)? as u32))
}

// byte HH HH ..
fn byte(args: &[u8], memory: &mut [u8]) -> Option<Item>
    ensures value { result ≡ byte_item (length memory.old) (words args.now) }
    ensures memory_after { memory.new ≡ lay 0 (take (length memory.old) (leading (words args.now))) memory.old }
{
    match all_bytes(args, memory)? {
        0 => None,
        n => Some(Item::Bytes(n)),
    }
}

// packet RSSI SNR FREQ TIME CRC HH ..
fn packet(args: &[u8], memory: &mut [u8]) -> Option<Item>
    ensures value { result ≡ packet_item (length memory.old) (words args.now) }
    ensures memory_after { memory.new ≡ lay 0 (packet_bytes (length memory.old) (words args.now)) memory.old }
{
    let (head, rest) = head_in(args)?;
    let len = all_bytes(rest, memory)?;
    Some(Item::Packet {
        rssi: scalar::i16_of(head.rssi),
        snr: scalar::i16_of(head.snr),
        freq_err: scalar::i32_of(head.freq_err),
        timestamp_us: head.timestamp_us,
        crc_valid: head.crc_valid,
        len,
    })
}

// What a packet's line has before its bytes, and what follows that.
fn head_in(args: &[u8]) -> Option<(Head, &[u8])>
    ensures head { MatchOption result (head_in (words args.now) ≡ None) (λ p. head_in (words args.now) ≡ Some p.0) }
    ensures rest { IfSome result (λ p. words p.1.now ≡ tail_in (words args.now)) }
{
    let (rssi, rest) = signed(args, 0x8000)?;
    let (snr, rest) = signed(rest, 0x8000)?;
    let (freq_err, rest) = signed(rest, 0x8000_0000)?;
    let (timestamp_us, rest) = decimal(rest, u64::MAX)?;
    let (crc_valid, rest) = decimal(rest, 1)?;
    let head = Head {
        rssi: rssi as u16,
        snr: snr as u16,
        freq_err: freq_err as u32,
        timestamp_us,
        crc_valid: crc_valid == 1,
    };
    Some((head, rest))
}

// All words as bytes.
fn all_bytes(args: &[u8], memory: &mut [u8]) -> Option<usize>
    ensures value { result ≡ count_of (length memory.old) (words args.now) }
    ensures memory_after { memory.new ≡ lay 0 (take (length memory.old) (leading (words args.now))) memory.old }
{
    let mut n = 0;
    let mut rest = args;
    while let Some((w, tail)) = word::split_first(rest) {
        if n == memory.len() {
            return None;
        }
        memory[n] = number::byte_of(w)?;
        n += 1;
        rest = tail;
    }
    Some(n)
}
