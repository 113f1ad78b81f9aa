//! Tests of syntax that is read, written and cut, with a macroblock of each type, and of what
//! follows want of memory.
#![tactic(auto)]

#[cfg(test)]
mod cut_slices;
#[cfg(test)]
mod macroblock_types;
#[cfg(test)]
mod macroblocks_read;
#[cfg(test)]
mod same_macroblocks;
#[cfg(test)]
mod slice_headers;
#[cfg(test)]
mod want_of_memory;
#[cfg(test)]
mod written_slices;
#[cfg(test)]
mod written_syntax;
