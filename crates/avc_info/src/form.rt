//! The forms in which a stream's facts are told.

ghost use Rattle.std.specs.Prelude.{◌≡◌, ℕ, List, IfOk, string_bytes};
ghost use Rattle.avc_info.specs.Json.{json_line};
ghost use Rattle.avc_info.specs.PictureText.{info_text};
ghost use Rattle.avc_info.specs.declared.stream_facts.StreamFacts.{StreamFacts};

use crate::json::info_json;
use crate::stream_facts::StreamFacts;
use crate::text::info_text;
use avc_tools::ForPeople;
use avc_types::OutOfMemory;
use std::alloc::Global;

/// A form in which the facts of a stream are told.
pub trait InfoForm {
    /// What is told of them, where the stream has so many bytes.
    ghost text: { StreamFacts → (bytes : ℕ) → List ℕ };

    /// The facts of a stream of so many bytes in this form.
    fn tell(&self, alloc: Global, facts: &StreamFacts, bytes: u64) -> Result<String, OutOfMemory>
        ensures { IfOk result (λ told. string_bytes told ≡ text facts.now bytes) };
}

/// Lines of JSON (RFC 8259).
#[derive(Clone, Copy)]
pub struct ForPrograms;

impl InfoForm for ForPeople {
    ghost text = { info_text };

    fn tell(&self, alloc: Global, facts: &StreamFacts, bytes: u64) -> Result<String, OutOfMemory> {
        info_text(alloc, facts, bytes)
    }
}

impl InfoForm for ForPrograms {
    ghost text = { json_line };

    fn tell(&self, alloc: Global, facts: &StreamFacts, bytes: u64) -> Result<String, OutOfMemory> {
        info_json(alloc, facts, bytes)
    }
}
