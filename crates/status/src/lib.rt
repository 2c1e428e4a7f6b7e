// The numbers that come back, for code: 01 "Numbers that come back", and those of 02. specs/Numbers.antt
// has the same table, and says exactly when each applies.
#![tactic(auto)]

ghost use Rattle.std.specs.Prelude.{◌≡◌};
ghost use Rattle.status.specs.Refusals.{refusal_number};

// Done.
pub const TAKEN: u8 = 0;

// The output of an event is too small.
pub const ROOM: u8 = 1;

// A SET_CONFIG waits or runs.
pub const STALL: u8 = 2;

// The radio outcome does not fit.
pub const PLACE: u8 = 3;

// The destination is too small.
pub const SHORT: u8 = 4;

// The source is no COBS encoding.
pub const STUFF: u8 = 5;

// The source or the body has a wrong length.
pub const LENGTH: u8 = 6;

// The check value differs.
pub const CHECK: u8 = 7;

// The tag is not one for this type.
pub const TAG: u8 = 8;

// The type is not one of this side.
pub const TYPE: u8 = 9;

// The payload is not one of this type.
pub const FORM: u8 = 10;

// All lines of the host's ledger are open: 02 §2.
pub const LEDGER: u8 = 11;

// A value that the formula of the time on air is not for: 02 §3.
pub const AIR: u8 = 12;

// A time on air that is too long to be told: 02 §3.
pub const WIDE: u8 = 13;

// Why a reader or a writer refuses: 4 to 10 of the table.
#[derive(Clone, Copy)]
pub enum Refusal {
    Short,
    Stuff,
    Length,
    Check,
    Tag,
    Type,
    Form,
}

// The number of a refusal.
pub fn refusal_number(r: Refusal) -> u8
    ensures { result ≡ refusal_number r }
{
    match r {
        Refusal::Short => SHORT,
        Refusal::Stuff => STUFF,
        Refusal::Length => LENGTH,
        Refusal::Check => CHECK,
        Refusal::Tag => TAG,
        Refusal::Type => TYPE,
        Refusal::Form => FORM,
    }
}
