// Whether a message is well-formed: 01 "Numbers that come back", 8 to 10.
#![tactic(auto)]

ghost use Rattle.std.specs.Prelude.{◌≡◌};
ghost use Rattle.wellformed.specs.Checking.{has, form_of, fits_read, fits_written, check, checked_number};

use form::Form;
use kind::Name;
use status::Refusal;

// Which types a reader or a writer has.
#[derive(Clone, Copy)]
pub enum Kinds {
    // The six commands.
    Commands,
    // The four answers, with an OK as that to the command of this name.
    Answers(Name),
    // One of the answers alone.
    Rx,
    TxDone,
}

// What checking a message gives.
#[derive(Clone, Copy)]
pub enum Checked {
    Good,
    Refused(Refusal),
}

// Checks a message whose payload fits or not: TAG, TYPE, FORM.
pub fn check(kinds: Kinds, kind: u8, tag: u16, fits: bool) -> Checked
    ensures { checked_number result ≡ checked_number (check kinds kind tag fits) }
{
    if kind::tag_wrong(kind, tag) {
        return Checked::Refused(Refusal::Tag);
    }
    if has(kinds, kind) {
        if fits {
            return Checked::Good;
        }
        return Checked::Refused(Refusal::Form);
    }
    Checked::Refused(Refusal::Type)
}

// Whether a type is one of these.
fn has(kinds: Kinds, kind: u8) -> bool
    ensures { result ≡ has kinds kind }
{
    match kinds {
        Kinds::Commands => kind::is_command(kind),
        Kinds::Answers(_) => kind::is_answer(kind),
        Kinds::Rx => kind == kind::RX,
        Kinds::TxDone => kind == kind::TX_DONE,
    }
}

// The form of a payload of some type.
fn form_of(kinds: Kinds, kind: u8, payload: &[u8]) -> Form
    ensures { result ≡ form_of kinds kind payload.now }
{
    match kinds {
        Kinds::Commands => command::command_form(kind, payload),
        Kinds::Answers(name) => answer::answer_form(kind, name, payload),
        Kinds::Rx => answer::answer_form(kind, Name::Ping, payload),
        Kinds::TxDone => answer::answer_form(kind, Name::Ping, payload),
    }
}

// Whether a payload is read as one of some type.
pub fn fits_read(kinds: Kinds, kind: u8, payload: &[u8]) -> bool
    ensures { result ≡ fits_read kinds kind payload.now }
{
    let form = form_of(kinds, kind, payload);
    match kinds {
        Kinds::Commands => form::exactly(form, payload.len()),
        Kinds::Answers(_) => form::at_least(form, payload.len()),
        Kinds::Rx => form::at_least(form, payload.len()),
        Kinds::TxDone => form::at_least(form, payload.len()),
    }
}

// Whether a payload is written as one of some type.
pub fn fits_written(kinds: Kinds, kind: u8, payload: &[u8]) -> bool
    ensures { result ≡ fits_written kinds kind payload.now }
{
    form::exactly(form_of(kinds, kind, payload), payload.len())
}
