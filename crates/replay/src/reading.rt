// The reading of a script: its bytes come in pieces, and each line is run as it ends.
use crate::event::Replay;
use crate::print;
use std::io::Read;

// The longest line that is kept, where blanks after a blank and a comment's text do not count. A
// longer one is a bad line.
const SCRIPT_LINE: usize = 600000;
// How many bytes such a line may have: two digits and a blank each.
const LINE_BYTES: usize = 200000;
// The most bytes of one read.
pub(crate) const PIECE: usize = 65536;
// So many pieces are read at most. No script has as many: a proved loop has to end.
const PIECES: u64 = 1 << 62;

// A bad line has ended the run.
#[derive(Clone, Copy, Debug)]
struct BadLine;

// Where the reading of a script stands, with its memories.
#[derive(Drop)]
pub(crate) struct Reading {
    replay: Replay,
    line: [u8; SCRIPT_LINE],
    // How many bytes of the line are kept; none of a line that is too long.
    kept: Option<usize>,
    // The bytes that a line means.
    bytes: [u8; LINE_BYTES],
    // How many lines have ended.
    lines: u64,
}

// Whether a byte is a blank.
fn is_blank(b: u8) -> bool {
    matches!(b, b' ' | b'\t')
}

// The next piece: how many bytes of it there are, and 0 at the end.
fn read(rt: &impl Eprint, source: &mut impl Read, piece: &mut [u8]) -> usize {
    source.read(piece).unwrap_or_else(|_| {
        let _ = eprint!(rt; "replay: read failed\n");
        0
    })
}

// Reads what is left of a script that a bad line has ended.
fn drain(rt: &impl Eprint, source: &mut impl Read, piece: &mut [u8; PIECE]) {
    for _ in 0..PIECES {
        if read(rt, source, piece) == 0 {
            return;
        }
    }
}

impl Reading {
    // A reading at its start.
    pub(crate) fn new() -> Reading {
        Reading {
            replay: Replay::new(),
            line: [0; SCRIPT_LINE],
            kept: Some(0),
            bytes: [0; LINE_BYTES],
            lines: 0,
        }
    }

    // A byte of a line is kept, unless it is part of a comment or a blank after a blank.
    fn keep(&mut self, b: u8) {
        let Some(len) = self.kept else {
            return;
        };
        if len >= SCRIPT_LINE {
            self.kept = None;
            return;
        }
        if len > 0 && (self.line[0] == b'#' || is_blank(b) && is_blank(self.line[len - 1])) {
            return;
        }
        self.line[len] = b;
        self.kept = Some(len + 1);
    }

    // A line has ended: its events are run, or it is bad and ends the run. No script has 2^64 lines.
    fn end_line(&mut self, rt: &(impl Print + Eprint)) -> Result<(), BadLine> {
        self.lines = self.lines.saturating_add(1);
        let kept = self.kept;
        self.kept = Some(0);
        let item = kept.and_then(|n| script::read(buffer::part(&self.line, 0, n), &mut self.bytes));
        let Some(item) = item else {
            print::bad_line(rt, self.lines);
            return Err(BadLine);
        };
        self.replay.line(rt, item, &self.bytes);
        Ok(())
    }

    // A byte of the script.
    fn byte(&mut self, rt: &(impl Print + Eprint), b: u8) -> Result<(), BadLine> {
        if b == b'\n' {
            return self.end_line(rt);
        }
        self.keep(b);
        Ok(())
    }

    // What a source has, up to a bad line.
    fn pieces(
        &mut self,
        rt: &(impl Print + Eprint),
        source: &mut impl Read,
        piece: &mut [u8; PIECE],
    ) -> Result<(), BadLine> {
        for _ in 0..PIECES {
            let n = read(rt, source, piece);
            if n == 0 {
                return Ok(());
            }
            for b in buffer::part(piece, 0, n) {
                self.byte(rt, *b)?;
            }
        }
        Ok(())
    }

    // The last line, if no line end has ended it. The source has ended: a bad line leaves nothing to read.
    fn last_line(&mut self, rt: &(impl Print + Eprint)) {
        if self.kept != Some(0) {
            let _ = self.end_line(rt);
        }
    }

    // Replays the script that a source has, from power-up on; piece is the memory that it is read into.
    pub(crate) fn script(
        &mut self,
        rt: &(impl Print + Eprint),
        source: &mut impl Read,
        piece: &mut [u8; PIECE],
    ) {
        self.replay.restart();
        self.kept = Some(0);
        self.lines = 0;
        match self.pieces(rt, source, piece) {
            Ok(()) => self.last_line(rt),
            Err(BadLine) => drain(rt, source, piece),
        }
        print::events(rt, self.replay.events());
    }
}
