//! Tests of byte streams that come in pieces, of an open picture and of the order of output: of
//! what no contract says, as that memory is found, and of worked rows.
#![tactic(auto)]

#[cfg(test)]
mod byte_streams;
#[cfg(test)]
mod open_picture;
#[cfg(test)]
mod output_order;
