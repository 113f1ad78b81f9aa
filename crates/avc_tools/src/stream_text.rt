//! Texts that are written of a stream while it comes.

ghost use Rattle.std.specs.Prelude.{◌≡◌, ◌^◌, ◌<◌, ℕ, Bool, true, false, List, IfOk, OnErr, OnOk};
ghost use Rattle.std.specs.Prelude.{length};
ghost use Rattle.avc_tools.specs.Streams.{Adds, OnlyGrows, StreamSoFar, after_end, after_piece};

use avc_types::OutOfMemory;

/// What writes something of a byte stream (Annex B) while the stream comes, in whatever pieces.
pub trait StreamText {
    /// What came of the stream.
    ghost so_far: { Self → StreamSoFar };

    /// Which of the texts it is that the type writes.
    ghost number: { Self → ℕ };

    /// What is written of that text once these bytes have come, and are all or not.
    ghost text: { ℕ → List ℕ → Bool → List ℕ };

    /// Whether nothing more is written of it once these bytes have come, and are all or not.
    ghost over: { ℕ → List ℕ → Bool → Bool };

    /// Takes the next bytes of the stream, and answers what is now to be written. After an `Ok` of
    /// `finish` nothing changes. Once it answers an `Err`, for want of memory, it goes on to do so.
    fn feed(&mut self, piece: &[u8]) -> Result<Vec<u8>, OutOfMemory>
        ensures so_far { OnOk result (so_far self.new ≡ after_piece (so_far self.old) piece.now) }
        ensures number { OnOk result (number self.new ≡ number self.old) }
        ensures added { IfOk result
            (λ added. Adds (text (number self.old)) (so_far self.old) (so_far self.new)
            added.items) }
        ensures going { OnOk result ((so_far self.old).failed ≡ false) }
        ensures err { OnErr result ((so_far self.new).failed ≡ true) };

    /// Takes the end of the stream, and answers what is then left to be written. Once it answers an
    /// `Err`, for want of memory, it goes on to do so.
    fn finish(&mut self) -> Result<Vec<u8>, OutOfMemory>
        ensures so_far { OnOk result (so_far self.new ≡ after_end (so_far self.old)) }
        ensures number { OnOk result (number self.new ≡ number self.old) }
        ensures added { IfOk result
            (λ added. Adds (text (number self.old)) (so_far self.old) (so_far self.new)
            added.items) }
        ensures going { OnOk result ((so_far self.old).failed ≡ false) }
        ensures err { OnErr result ((so_far self.new).failed ≡ true) };

    /// Whether nothing more is written, so that no more of the stream is wanted.
    fn is_over(&self) -> bool
        ensures { (so_far self.now).failed ≡ false → length (so_far self.now).bytes < 2 ^ 64
            → result ≡ over (number self.now) (so_far self.now).bytes (so_far self.now).ended };

    /// What was written stays the first of what is written, whatever comes.
    fn text_only_grows(&self)
        ensures { OnlyGrows (text (number self.now)) };
}
