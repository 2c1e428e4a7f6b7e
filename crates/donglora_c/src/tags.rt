// The ledger of open tags, for C, which lends it.
ghost use Rattle.std.specs.Prelude.{◌≡◌};
ghost use Rattle.ledger.specs.Calls.{new_ledger, connected};
ghost use Rattle.ffi_ledger.specs.Calls.{open_call, answer_call};

use ledger::{Ledger, Report};

// A ledger with no open command, whose first tag is 1.
#[unsafe(no_mangle)]
pub extern "C" fn donglora_ledger_new(ledger: &mut Ledger)
    ensures { ledger.new ≡ new_ledger }
{
    donglora::tags::donglora_ledger_new(ledger);
}

// Opens a command, and stores its tag and its line.
#[unsafe(no_mangle)]
pub extern "C" fn donglora_ledger_open(
    ledger: &mut Ledger,
    command: u8,
    tag: &mut u16,
    line: &mut u8,
) -> u8
    ensures { open_call ledger.old command tag.old line.old
        ≡ record { ledger = ledger.new; tag = tag.new; line = line.new; number = result } }
{
    donglora::tags::donglora_ledger_open(ledger, command, tag, line)
}

// Takes an answer of the dongle, and tells which command it belongs to.
#[unsafe(no_mangle)]
pub extern "C" fn donglora_ledger_answer(ledger: &mut Ledger, kind: u8, tag: u16) -> Report
    ensures { answer_call ledger.old kind tag ≡ record { ledger = ledger.new; report = result } }
{
    donglora::tags::donglora_ledger_answer(ledger, kind, tag)
}

// A new connection: all lines are free, and the counter goes on.
#[unsafe(no_mangle)]
pub extern "C" fn donglora_ledger_connect(ledger: &mut Ledger)
    ensures { ledger.new ≡ connected ledger.old }
{
    donglora::tags::donglora_ledger_connect(ledger);
}
