//! What is written, read again: laws of the definitions alone.

ghost use Rattle.std.specs.Prelude.{◌≡◌, ◌<◌, ◌≤◌, ◌<ℤ◌, ℕ, ◌^◌, ℤ, Bool, List, pos, neg_ℤ, ◌∷◌};
ghost use Rattle.std.specs.Prelude.{[]};
ghost use Rattle.avc_annexb.specs.Escapes.{rbsp};
ghost use Rattle.avc_bits.specs.Bits.{bits_of};
ghost use Rattle.avc_bits.specs.Codes.{IsSe, IsTe, IsUe, flag, se, te, u, ue};
ghost use Rattle.avc_rbsp.specs.Escaping.{HasNoStart, escaped};
ghost use Rattle.avc_rbsp.specs.Rbsps.{RbspsAreRead};
ghost use Rattle.avc_rbsp.specs.Words.{ReadsBack, se_word, te_word, ue_word};

/// The words that are put for ue(v), se(v) and te(v) are codewords of their values.
#[tactic(auto, using(crate::proofs::Reading::ue_is_word, crate::proofs::Reading::se_is_word, crate::proofs::Reading::te_is_word))]
pub fn words_are_codewords()
    ensures ue { (v : ℕ) → v < 4294967295 → IsUe (ue_word v) v }
    ensures se { (v : ℤ) → neg_ℤ (pos 2147483648) <ℤ v → v <ℤ pos 2147483648 → IsSe (se_word v) v }
    ensures te { (range v : ℕ) → 1 ≤ range → v ≤ range → v < 4294967295 →
        IsTe range (te_word range v) v }
{}

/// Reading gives the value of a word, and leaves what follows it.
pub fn words_are_read()
    ensures u { (rest : List Bool) (n v : ℕ) → v < 2 ^ n → ReadsBack rest (u n) (bits_of n v) v }
    ensures flag { (rest : List Bool) (b : Bool) → ReadsBack rest flag (b ∷ []) b }
    ensures ue { (rest : List Bool) (v : ℕ) → v < 4294967295 → ReadsBack rest ue (ue_word v) v }
    ensures se { (rest : List Bool) (v : ℤ) → neg_ℤ (pos 2147483648) <ℤ v → v <ℤ pos 2147483648 →
        ReadsBack rest se (se_word v) v }
    ensures te { (rest : List Bool) (range v : ℕ) → v ≤ range → v < 4294967295 →
        ReadsBack rest (te range) (te_word range v) v }
{}

/// What is escaped is read as it was, and no start code stands inside.
pub fn escapes_are_removed()
    ensures rbsp { (bytes : List ℕ) → rbsp (escaped bytes) ≡ bytes }
    ensures start { (bytes : List ℕ) → HasNoStart (escaped bytes) }
{}

/// The bits of an RBSP stand before its stop bit.
pub fn rbsps_are_read()
    ensures { RbspsAreRead }
{}
