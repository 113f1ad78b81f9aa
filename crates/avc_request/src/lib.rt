//! What the words of the command line ask for.
#![tactic(auto)]

mod file_kind;
mod grammar;
mod numbered;
mod reading;
mod request;
mod words;

pub use numbered::Numbered;
pub use reading::words_of;
pub use request::{
    Comparing, Form, MacroblockChoice, Manner, Request, Showing, Subject, Task, Telling, Wording,
};
pub use words::requested;
