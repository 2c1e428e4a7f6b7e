// What a C program calls of the ledger, by value: with numbers for answers, and with what stood in the caller's memory
// where nothing is written there.
#![tactic(auto)]

ghost use Rattle.std.specs.Prelude.{◌≡◌};
ghost use Rattle.ffi_ledger.specs.Calls.{open_call, answer_call};

use ledger::{DongleTag, Ledger, Report};
use status::TAKEN;

// What opening a command leaves: the ledger, the caller's tag and line, and the number.
#[derive(Clone, Copy)]
pub struct OpenCall {
    pub ledger: Ledger,
    pub tag: u16,
    pub line: u8,
    pub number: u8,
}

// Opens a command, where tag and line are what the caller's memory holds.
#[tactic(auto, unfolding(crate::specs::Calls::open_call))]
pub fn open(l: Ledger, command: u8, tag: u16, line: u8) -> OpenCall
    ensures { result ≡ open_call l command tag line }
{
    let opening = ledger::open(l, command);
    let (tag, line, number) = match opening.opened {
        Ok(place) => (place.tag.0, place.line, TAKEN),
        Err(e) => (tag, line, e.into()),
    };
    OpenCall {
        ledger: opening.ledger,
        tag,
        line,
        number,
    }
}

// What an answer leaves: the ledger, and the report.
#[derive(Clone, Copy)]
pub struct AnswerCall {
    pub ledger: Ledger,
    pub report: Report,
}

// Takes an answer of the dongle.
#[tactic(auto, unfolding(crate::specs::Calls::answer_call))]
pub fn answer(l: Ledger, kind: u8, tag: u16) -> AnswerCall
    ensures { result ≡ answer_call l kind tag }
{
    let answering = ledger::answer(l, kind, DongleTag(tag));
    AnswerCall {
        ledger: answering.ledger,
        report: answering.verdict.into(),
    }
}
