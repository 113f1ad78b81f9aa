//! Which macroblocks of a stream are told, what is kept of the picture that they are of, and what a
//! form tells of one.
#![tactic(auto)]

mod choice;
mod derived;
mod form;
mod picture;
mod place;
mod selection;
mod words;

pub use choice::Choice;
pub use derived::Derived;
pub use form::MacroblockForm;
pub use picture::{Picture, picture_of};
pub use place::MacroblockPlace;
pub use selection::{AtMacroblock, Selection};
pub use words::{add_hyphen, add_vectors};
