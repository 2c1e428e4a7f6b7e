// The ledger of open tags, for C, which lends it: each call takes the ledger out whole, has it worked on by value, and
// puts the next one in its place.
ghost use Rattle.std.specs.Prelude.{◌≡◌};
ghost use Rattle.ledger.specs.Calls.{new_ledger, connected};
ghost use Rattle.ffi_ledger.specs.Calls.{open_call, answer_call};

use ledger::{Ledger, Report};

// A ledger with no open command, whose first tag is 1.
pub fn donglora_ledger_new(ledger: &mut Ledger)
    ensures { ledger.new ≡ new_ledger }
{
    *ledger = ledger::new();
}

// Opens a command, and stores its tag and its line.
pub fn donglora_ledger_open(ledger: &mut Ledger, command: u8, tag: &mut u16, line: &mut u8) -> u8
    ensures { open_call ledger.old command tag.old line.old
        ≡ record { ledger = ledger.new; tag = tag.new; line = line.new; number = result } }
{
    let a = ffi_ledger::open(*ledger, command, *tag, *line);
    *ledger = a.ledger;
    *tag = a.tag;
    *line = a.line;
    a.number
}

// Takes an answer of the dongle, and tells which command it belongs to.
pub fn donglora_ledger_answer(ledger: &mut Ledger, kind: u8, tag: u16) -> Report
    ensures { answer_call ledger.old kind tag ≡ record { ledger = ledger.new; report = result } }
{
    let a = ffi_ledger::answer(*ledger, kind, tag);
    *ledger = a.ledger;
    a.report
}

// A new connection: all lines are free, and the counter goes on.
pub fn donglora_ledger_connect(ledger: &mut Ledger)
    ensures { ledger.new ≡ connected ledger.old }
{
    *ledger = ledger::connect(*ledger);
}
