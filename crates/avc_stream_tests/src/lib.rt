//! Tests of whole streams: of the decoder's calls, of what is written and told of a stream, and of
//! the program's words.
#![tactic(auto)]

#[cfg(test)]
mod command_line;
#[cfg(test)]
mod counted_calls;
#[cfg(test)]
mod counted_comparisons;
#[cfg(test)]
mod decoder_calls;
#[cfg(test)]
mod fed_streams;
#[cfg(test)]
mod limited_writer;
#[cfg(test)]
mod macroblock_positions;
#[cfg(test)]
mod png_files;
#[cfg(test)]
mod stream_texts;
#[cfg(test)]
mod worked_streams;
#[cfg(test)]
mod written_pictures;
