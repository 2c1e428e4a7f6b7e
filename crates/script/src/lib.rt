// The script of the program replay: a line is read.
#![tactic(auto)]

mod item;
mod number;
mod word;

pub use item::{Item, read};
