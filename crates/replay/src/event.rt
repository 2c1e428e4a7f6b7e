// The events of a script, one after the other: each is run, and its answer is noted in the trace.
use crate::print;
use control::{Device, ROOM_MIN};
use inbox::{PACKETS, PacketStatus};
use link::RUN_MAX;
use machine::Event;
use script::Item;
use slot::COMMANDS;

// More output than this is not lent, or shown: no event tells the difference.
pub(crate) const ROOM_MAX: usize = 4096;

// Where a replay stands: the device, how many events it had, and how much output is lent.
#[derive(Clone, Copy)]
struct Progress {
    device: Device,
    events: u64,
    room: usize,
}

impl Progress {
    // At power-up.
    fn new() -> Progress {
        Progress {
            device: control::power_up(),
            events: 0,
            room: ROOM_MIN,
        }
    }
}

// The device's memories, and the output.
#[derive(Drop)]
struct Memories {
    run: [u8; RUN_MAX],
    commands: [u8; COMMANDS],
    packets: [u8; PACKETS],
    out: [u8; ROOM_MAX],
}

impl Memories {
    // An event is run, and its answer is noted; bytes are those of a packet. No script has 2^64 events. Where the replay
    // stands comes and goes by value, so that a loop keeps it in registers.
    fn step(
        &mut self,
        rt: &(impl Print + Eprint),
        s: Progress,
        e: Event,
        bytes: &[u8],
    ) -> Progress {
        let room = s.room.min(ROOM_MAX);
        let out = &mut self.out[..];
        let a = machine::step(
            s.device,
            e,
            bytes,
            &mut self.run,
            &mut self.commands,
            &mut self.packets,
            &mut out[..room],
        );
        print::note(rt, s.events, a, &self.commands, &self.out);
        Progress {
            device: a.device,
            events: s.events.saturating_add(1),
            room: s.room,
        }
    }
}

// A replay of scripts.
#[derive(Drop)]
pub(crate) struct Replay {
    progress: Progress,
    memories: Memories,
}

impl Replay {
    // A replay at its start.
    pub(crate) fn new() -> Replay {
        Replay {
            progress: Progress::new(),
            memories: Memories {
                run: [0; RUN_MAX],
                commands: [0; COMMANDS],
                packets: [0; PACKETS],
                out: [0; ROOM_MAX],
            },
        }
    }

    // Starts again, from power-up on.
    pub(crate) fn restart(&mut self) {
        self.progress = Progress::new();
    }

    // How many events there were.
    pub(crate) fn events(&self) -> u64 {
        self.progress.events
    }

    // Runs the events of a line; memory has its bytes. There is one call of step, which is inlined.
    pub(crate) fn line(&mut self, rt: &(impl Print + Eprint), item: Item, memory: &[u8]) {
        if let Item::Room(n) = item {
            self.progress.room = n.min(ROOM_MAX as u64) as usize;
        }
        let (n, len) = sizes(item);
        let bytes = buffer::part(memory, 0, len);
        let mut s = self.progress;
        for i in 0..n {
            if let Some(e) = event(item, bytes, i) {
                s = self.memories.step(rt, s, e, bytes);
            }
        }
        self.progress = s;
    }
}

// How many events a line has, and how many bytes.
fn sizes(item: Item) -> (u64, usize) {
    match item {
        Item::Nothing | Item::Room(_) => (0, 0),
        Item::Bytes(len) => (len as u64, len),
        Item::Ticks(n) => (n, 0),
        Item::Packet { len, .. } => (1, len),
        _ => (1, 0),
    }
}

// The event of a line with index i; bytes are the line's.
fn event(item: Item, bytes: &[u8], i: u64) -> Option<Event> {
    match item {
        Item::Nothing | Item::Room(_) => None,
        Item::Bytes(_) => bytes.get(i as usize).map(|b| Event::Byte(*b)),
        Item::Ticks(_) => Some(Event::Tick),
        Item::Clear => Some(Event::Clear),
        Item::Busy => Some(Event::Busy),
        Item::Sent(airtime) => Some(Event::Sent(airtime)),
        Item::Configured => Some(Event::Configured),
        Item::Fault => Some(Event::Fault),
        // The script knows no device: its packet has the numbers that the line shows.
        Item::Packet {
            rssi,
            snr,
            freq_err,
            timestamp_us,
            crc_valid,
            ..
        } => Some(Event::Packet(PacketStatus {
            rssi,
            snr,
            freq_err,
            timestamp_us,
            crc_valid,
        })),
        Item::Request => Some(Event::Request),
        Item::Disconnect => Some(Event::Disconnect),
    }
}
