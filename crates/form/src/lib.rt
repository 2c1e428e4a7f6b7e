// The form of a payload: FORM of 01 "Numbers that come back" is judged by it.
#![tactic(auto)]

ghost use Rattle.std.specs.Prelude.{◌≡◌};
ghost use Rattle.form.specs.Forms.{exactly, at_least};

// How many bytes the known fields of a payload take, or that its layout or a value is wrong.
#[derive(Clone, Copy)]
pub enum Form {
    Size(usize),
    Wrong,
}

// The highest value of a field that says yes or no.
pub const YES: u8 = 1;

// Whether a payload of n bytes has just the known fields.
pub fn exactly(f: Form, n: usize) -> bool
    ensures { result ≡ exactly f n }
{
    match f {
        Form::Size(k) => k == n,
        Form::Wrong => false,
    }
}

// Whether it has them, and maybe more.
pub fn at_least(f: Form, n: usize) -> bool
    ensures { result ≡ at_least f n }
{
    match f {
        Form::Size(k) => k <= n,
        Form::Wrong => false,
    }
}
