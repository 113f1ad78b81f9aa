//! What a program does around its commands: words are read, the input opened, the output written,
//! and the end told.
#![tactic(auto)]

mod absent;
mod commands;
mod observer;
mod running;
mod words;
mod writing;

pub use absent::tell_absent;
pub use commands::Commands;
pub use words::run;
