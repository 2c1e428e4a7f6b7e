// The host's ledger of open tags: 02 §2. A host has its tags from here, and learns here which command
// an answer belongs to. The ledger is a value: each call takes one and gives back the next, since 01 wants
// thin functions that are lent it by &mut over others that have it by value.
#![tactic(auto)]

ghost use Rattle.std.specs.Prelude.{◌≡◌, ◌+◌, ◌/◌, ◌^◌, ◌<◌};
ghost use Rattle.std.specs.Int.Count.{ones};
ghost use Rattle.ledger.specs.Digits.{digit, lowest};
ghost use Rattle.ledger.specs.Lines.{line_max, has_tag, owner, wrapped, vacant, first_vacant, candidates, awaits};
ghost use Rattle.ledger.specs.Calls.{open_number, new_ledger, open_answer, taken, open_left};
ghost use Rattle.ledger.specs.Calls.{verdict_at, verdict_of, verdict_report, freed, marked, answer_left, connected};

use kind::{ERR, OK, RX, TX, TX_DONE};
use status::{LEDGER, TYPE};

// How many commands can be open at a time.
pub const LINES: usize = 16;

// A tag that the dongle sees.
#[repr(C)]
#[derive(Clone, Copy, PartialEq, Eq, Debug)]
pub struct DongleTag(pub u16);

// An open command: its tag, its type, and 1 where it is a TX that has its OK. Of a free line this says
// nothing. `accepted` is a number, and in the ledger `used`, since C lends the words that they lie in.
#[repr(C)]
#[derive(Clone, Copy)]
pub struct Line {
    pub tag: DongleTag,
    pub command: u8,
    pub accepted: u8,
}

// The ledger: where the next tag is looked for, which lines are open (line n is bit n), and the lines.
#[repr(C)]
#[derive(Clone, Copy)]
pub struct Ledger {
    pub counter: u16,
    pub used: u16,
    pub lines: [Line; LINES],
}

// What a command has that is opened: its tag, and its line.
#[derive(Clone, Copy, PartialEq, Eq, Debug)]
pub struct Place {
    pub tag: DongleTag,
    pub line: u8,
}

// Why a command is not opened.
#[derive(Clone, Copy, PartialEq, Eq, Debug)]
pub enum OpenError {
    // All lines are open: LEDGER.
    Full,
    // It is none of the six commands: TYPE.
    Type,
}

// The number that comes back.
impl From<OpenError> for u8 {
    ghost from_gives = { λ e n. n ≡ open_number e };

    fn from(e: OpenError) -> u8 {
        match e {
            OpenError::Full => LEDGER,
            OpenError::Type => TYPE,
        }
    }
}

// The ledger after a command, and what came back: by value, as 01 wants it.
#[derive(Clone, Copy)]
pub struct Opening {
    pub ledger: Ledger,
    pub opened: Result<Place, OpenError>,
}

// What an answer of the dongle is to the ledger.
#[derive(Clone, Copy, PartialEq, Eq, Debug)]
pub enum Verdict {
    // No open command waits for it.
    Unexpected,
    // It answers no command: an RX, or an ERR with tag zero.
    Nobody,
    // It answers this command, which has this line; the line is closed by it, or waits for a TX_DONE.
    Fits { command: u8, line: u8, closed: bool },
}

// The ledger after an answer, and what came back: by value, as 01 wants it.
#[derive(Clone, Copy)]
pub struct Answering {
    pub ledger: Ledger,
    pub verdict: Verdict,
}

// The numbers of a verdict, as C has them.
pub const UNEXPECTED: u8 = 0;

pub const NOBODYS: u8 = 1;

pub const FITS: u8 = 2;

// A verdict in numbers, since C reads it: struct donglora_report. Where the answer does not fit, the other
// fields are 0.
#[repr(C)]
#[derive(Clone, Copy)]
pub struct Report {
    pub verdict: u8,
    pub command: u8,
    pub line: u8,
    pub closed: u8,
}

// What C is told of a verdict.
impl From<Verdict> for Report {
    ghost from_gives = { λ v r. r ≡ verdict_report v };

    fn from(v: Verdict) -> Report {
        let none = Report {
            verdict: UNEXPECTED,
            command: 0,
            line: 0,
            closed: 0,
        };
        match v {
            Verdict::Unexpected => none,
            Verdict::Nobody => Report {
                verdict: NOBODYS,
                ..none
            },
            Verdict::Fits {
                command,
                line,
                closed,
            } => Report {
                verdict: FITS,
                command,
                line,
                closed: closed as u8,
            },
        }
    }
}

// A ledger with no open command, whose first tag is 1.
#[tactic(auto, unfolding(crate::specs::Calls::new_ledger))]
pub fn new() -> Ledger
    ensures { result ≡ new_ledger }
{
    let free = Line {
        tag: DongleTag(0),
        command: 0,
        accepted: 0,
    };
    Ledger {
        counter: 1,
        used: 0,
        lines: [free; LINES],
    }
}

// The number after a tag: zero after 0xFFFF.
fn after(tag: u16) -> u16
    ensures { result ≡ wrapped (tag + 1) }
{
    tag.wrapping_add(1)
}

// The lowest free line, where there is one.
fn lowest_free(used: u16) -> u8
    requires { used < 0xFFFF }
    ensures { (result ≡ lowest line_max used) × (result < line_max) × (digit used result ≡ 0) }
{
    (!used).trailing_zeros() as u8
}

// How many lines are open.
fn open_lines(used: u16) -> usize
    ensures { result ≡ ones used }
{
    used.count_ones() as usize
}

// The bit of a line.
fn bit(line: u8) -> u16
    requires { line < line_max }
    ensures { result ≡ 2 ^ line }
{
    1 << line
}

impl Line {
    // Whether it has a tag and is open, which the lowest bit of u says.
    #[tactic(auto, unfolding(crate::specs::Lines::has_tag))]
    fn has_tag(&self, u: u16, tag: DongleTag) -> bool
        ensures { result ≡ has_tag tag.0 self.now u }
    {
        u % 2 == 1 && self.tag == tag
    }

    // Whether it waits for answers of a type: an accepted TX for a TX_DONE, all others for OK or ERR.
    #[tactic(auto, unfolding(crate::specs::Lines::awaits))]
    fn waits_for(&self, kind: u8) -> bool
        ensures { result ≡ awaits self.now kind }
    {
        if self.command == TX && self.accepted == 1 {
            kind == TX_DONE
        } else {
            matches!(kind, OK | ERR)
        }
    }

    // What an answer with its tag is to it.
    #[tactic(auto, unfolding(crate::specs::Calls::verdict_at))]
    fn judge(&self, line: u8, kind: u8) -> Verdict
        ensures { result ≡ verdict_at self.now line kind }
    {
        if !self.waits_for(kind) {
            return Verdict::Unexpected;
        }
        Verdict::Fits {
            command: self.command,
            line,
            closed: self.command != TX || kind != OK,
        }
    }
}

// What opening a command asks has the ledger by value: by reference, tried, `donglora_ledger_open` takes 80 bytes of
// stack more and is slower.
impl Ledger {
    // The lowest open line that has a tag. Lines past the highest open one are not looked at: with all sixteen, tried,
    // the compiler unrolls the loop, and it is slower.
    fn owner_of(&self, tag: DongleTag) -> Option<u8>
        ensures { result ≡ owner self.now.lines self.now.used tag.0 }
    {
        let end = LINES - self.used.leading_zeros() as usize;
        for (i, x) in self.lines[..end].iter().enumerate() {
            if x.has_tag(self.used >> i, tag) {
                return Some(i as u8);
            }
        }
        None
    }

    // Whether a tag can be given: it is not zero, and no open line has it.
    #[tactic(auto, unfolding(crate::specs::Lines::vacant))]
    fn is_vacant(self, tag: u16) -> bool
        ensures { result ≡ vacant self.lines self.used tag }
    {
        tag != 0 && self.owner_of(DongleTag(tag)).is_none()
    }

    // The first vacant tag from the counter on: of 18 numbers zero and sixteen open lines leave one.
    fn fresh(self) -> DongleTag
        ensures { result.0 ≡ first_vacant candidates self.lines self.used self.counter }
    {
        let mut tag = self.counter;
        while !self.is_vacant(tag) {
            tag = after(tag);
        }
        DongleTag(tag)
    }

    // The place that a command gets, or why it gets none.
    #[tactic(auto, unfolding(crate::specs::Calls::open_answer))]
    fn next_place(self, command: u8) -> Result<Place, OpenError>
        ensures { result ≡ open_answer self command }
    {
        if open_lines(self.used) == LINES {
            return Err(OpenError::Full);
        }
        if !kind::is_command(command) {
            return Err(OpenError::Type);
        }
        Ok(Place {
            tag: self.fresh(),
            line: lowest_free(self.used),
        })
    }

    // The ledger where a command has taken a free line.
    fn take(self, command: u8, place: Place) -> Ledger
        requires { (place.line < line_max) × (digit self.used place.line ≡ 0) }
        ensures { result ≡ taken self command place }
    {
        let mut lines = self.lines;
        lines[place.line as usize] = Line {
            tag: place.tag,
            command,
            accepted: 0,
        };
        Ledger {
            counter: after(place.tag.0),
            used: self.used + bit(place.line),
            lines,
        }
    }

    // An open line is closed.
    fn free_line(&mut self, line: u8)
        requires { (line < line_max) × (digit self.old.used line ≡ 1) }
        ensures { self.new ≡ freed self.old line }
    {
        self.used -= bit(line);
    }

    // A line is marked as accepted.
    fn mark(&mut self, line: u8)
        requires { line < line_max }
        ensures { self.new ≡ marked self.old line }
    {
        self.lines[line as usize].accepted = 1;
    }

    // What an answer is to it.
    #[tactic(auto, unfolding(crate::specs::Calls::verdict_of))]
    fn judge(&self, kind: u8, tag: DongleTag) -> Verdict
        ensures { result ≡ verdict_of self.now kind tag }
    {
        if kind == RX || kind == ERR && tag.0 == 0 {
            return Verdict::Nobody;
        }
        if tag.0 == 0 {
            return Verdict::Unexpected;
        }
        match self.owner_of(tag) {
            Some(line) => self.lines[line as usize].judge(line, kind),
            None => Verdict::Unexpected,
        }
    }
}

// Opens a command: it takes the lowest free line and the next vacant tag.
pub fn open(l: Ledger, command: u8) -> Opening
    ensures { (result.opened ≡ open_answer l command) × (result.ledger ≡ open_left l command (open_answer l command)) }
{
    let opened = l.next_place(command);
    let ledger = match opened {
        Ok(place) => l.take(command, place),
        Err(_) => l,
    };
    Opening { ledger, opened }
}

// Takes an answer of the dongle: its type and its tag tell which command it belongs to.
pub fn answer(mut l: Ledger, kind: u8, tag: DongleTag) -> Answering
    ensures { (result.verdict ≡ verdict_of l kind tag) × (result.ledger ≡ answer_left l (verdict_of l kind tag)) }
{
    let verdict = l.judge(kind, tag);
    match verdict {
        Verdict::Fits { line, closed, .. } => {
            if closed {
                l.free_line(line);
            } else {
                l.mark(line);
            }
        }
        Verdict::Nobody | Verdict::Unexpected => {}
    }
    Answering { ledger: l, verdict }
}

// A new connection: all lines are free, and the counter goes on.
pub fn connect(was: Ledger) -> Ledger
    ensures { result ≡ connected was }
{
    Ledger { used: 0, ..was }
}
