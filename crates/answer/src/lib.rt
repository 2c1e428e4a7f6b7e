// The four answers, and their payloads read: P 6.7 to 6.10, with the OK's payloads of P 6.2 and 6.3.
#![tactic(auto)]

ghost use Rattle.std.specs.Prelude.{◌≡◌, true, length};
ghost use Rattle.form.specs.Forms.{at_least};
ghost use Rattle.answer.specs.Answers.{answered_result, answer_form, answer_of, answer_kind, answer_name, configured_form, ok_form, ok_of, read_answer};
ghost use Rattle.answer.specs.Answers.{tx_done_form};

use form::Form;
use info::Info;
use kind::{ERR, Name, OK, RX, TX_DONE};
use modulation::Modulation;
use rx::Rx;
use status::Refusal;

// The bytes of an OK to SET_CONFIG before the configuration: P 6.3.
pub const CONFIGURED_SIZE: usize = 2;
// The highest result and owner.
const CONFIGURED_MAX: u8 = 2;
// The bytes of an ERR: P 6.8.
const ERR_SIZE: usize = 2;
// The bytes of a TX_DONE: P 6.10.
pub const TX_DONE_SIZE: usize = 5;
// The highest result.
const TX_DONE_MAX: u8 = 2;

// What SET_CONFIG led to: P 6.3. An FSK configuration's sync word stays in the caller's bytes.
#[derive(Clone, Copy)]
pub struct Configured {
    pub result: u8,
    pub owner: u8,
    pub current: Modulation,
}

// An answer. The bytes of variable length stay beside it, in the caller's memory: an RX's packet,
// an FSK configuration's sync word, the uids.
#[derive(Clone, Copy)]
pub enum Answer {
    // OK to PING, TX, RX_START or RX_STOP.
    Ok,
    // OK to GET_INFO.
    Info(Info),
    // OK to SET_CONFIG.
    Configured(Configured),
    Err { code: u16 },
    Rx(Rx),
    TxDone { result: u8, airtime_us: u32 },
}

// What reading a payload answers.
#[derive(Clone, Copy)]
pub enum Answered {
    Answer(Answer),
    Refused(Refusal),
}

// Reads a payload of some type as an answer; an OK as that to the command of this name.
pub fn read_answer(kind: u8, name: Name, payload: &[u8]) -> Answered
    ensures { answered_result result ≡ answered_result (read_answer kind name payload.now) }
{
    if kind::is_answer(kind) {
        if form::at_least(answer_form(kind, name, payload), payload.len()) {
            return Answered::Answer(answer_of(kind, name, payload));
        }
        return Answered::Refused(Refusal::Form);
    }
    Answered::Refused(Refusal::Type)
}

// The answer in a payload of its form.
fn answer_of(kind: u8, name: Name, payload: &[u8]) -> Answer
    requires { at_least (answer_form kind name payload.now) (length payload.now) ≡ true }
    ensures { result ≡ answer_of kind name payload.now }
{
    if kind == OK {
        return ok_of(name, payload);
    }
    if kind == ERR {
        let code = scalar::u16_at(payload, 0);
        return Answer::Err { code };
    }
    if kind == RX {
        return Answer::Rx(rx::rx_of(payload));
    }
    let airtime_us = scalar::u32_at(payload, 1);
    Answer::TxDone {
        result: payload[0],
        airtime_us,
    }
}

// The form of an answer's payload; of an OK's as that to the command of this name.
pub fn answer_form(kind: u8, name: Name, payload: &[u8]) -> Form
    ensures { result ≡ answer_form kind name payload.now }
{
    if kind == OK {
        return ok_form(name, payload);
    }
    if kind == ERR {
        return Form::Size(ERR_SIZE);
    }
    if kind == RX {
        return rx::rx_form(payload);
    }
    tx_done_form(payload)
}

// The form of an OK's payload.
fn ok_form(name: Name, payload: &[u8]) -> Form
    ensures { result ≡ ok_form name payload.now }
{
    match name {
        Name::GetInfo => info::info_form(payload),
        Name::SetConfig => configured_form(payload),
        _ => Form::Size(0),
    }
}

// The form of the payload of an OK to SET_CONFIG.
fn configured_form(payload: &[u8]) -> Form
    ensures { result ≡ configured_form payload.now }
{
    if payload.len() < CONFIGURED_SIZE {
        return Form::Wrong;
    }
    if CONFIGURED_MAX < payload[0] {
        return Form::Wrong;
    }
    if CONFIGURED_MAX < payload[1] {
        return Form::Wrong;
    }
    match modulation::config_form(&payload[CONFIGURED_SIZE..]) {
        Form::Size(n) => Form::Size(CONFIGURED_SIZE + n),
        Form::Wrong => Form::Wrong,
    }
}

// The form of a TX_DONE's payload.
fn tx_done_form(payload: &[u8]) -> Form
    ensures { result ≡ tx_done_form payload.now }
{
    if payload.len() < TX_DONE_SIZE {
        return Form::Wrong;
    }
    if TX_DONE_MAX < payload[0] {
        return Form::Wrong;
    }
    Form::Size(TX_DONE_SIZE)
}

// The OK in a payload of its form.
fn ok_of(name: Name, payload: &[u8]) -> Answer
    requires { at_least (ok_form name payload.now) (length payload.now) ≡ true }
    ensures { result ≡ ok_of name payload.now }
{
    match name {
        Name::GetInfo => Answer::Info(info::info_of(payload)),
        Name::SetConfig => {
            let current = modulation::config_of(&payload[CONFIGURED_SIZE..]);
            Answer::Configured(Configured {
                result: payload[0],
                owner: payload[1],
                current,
            })
        }
        _ => Answer::Ok,
    }
}

// The type of an answer.
pub fn answer_kind(a: Answer) -> u8
    ensures { result ≡ answer_kind a }
{
    match a {
        Answer::Ok => OK,
        Answer::Info(_) => OK,
        Answer::Configured(_) => OK,
        Answer::Err { code: _ } => ERR,
        Answer::Rx(_) => RX,
        Answer::TxDone {
            result: _,
            airtime_us: _,
        } => TX_DONE,
    }
}

// The command that an OK answers; of several, the first.
pub fn answer_name(a: Answer) -> Name
    ensures { result ≡ answer_name a }
{
    match a {
        Answer::Ok => Name::Ping,
        Answer::Info(_) => Name::GetInfo,
        Answer::Configured(_) => Name::SetConfig,
        Answer::Err { code: _ } => Name::Ping,
        Answer::Rx(_) => Name::Ping,
        Answer::TxDone {
            result: _,
            airtime_us: _,
        } => Name::Ping,
    }
}
