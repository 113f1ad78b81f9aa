//! What reading by a code means: the functions by which the readers are specified read exactly the
//! codewords of the sets that the standard gives.

ghost use Rattle.std.specs.Prelude.{◌≤◌, ℕ};
ghost use Rattle.avc_types.specs.declared.fault.Fault.{Fault};
ghost use Rattle.avc_types.specs.declared.fault.Fault.TheVariants.{CodeTooLong};
ghost use Rattle.avc_bits.specs.Bits.{Bits};
ghost use Rattle.avc_bits.specs.Codes.{IsPrefixFree, IsReadBy, IsSe, IsTe, IsU, IsUe, se, te, u};
ghost use Rattle.avc_bits.specs.Codes.{ue};

/// What `u` reads: its only fault is `Truncated`, since any other fault may be named.
pub fn u_is_read()
    ensures { (n : ℕ) (otherwise : Fault) (b : Bits) → IsReadBy (IsU n) otherwise b (u n b) }
{}

/// What `ue` reads.
pub fn ue_is_read()
    ensures { (b : Bits) → IsReadBy IsUe CodeTooLong b (ue b) }
{}

/// What `se` reads.
pub fn se_is_read()
    ensures { (b : Bits) → IsReadBy IsSe CodeTooLong b (se b) }
{}

/// What `te` reads.
pub fn te_is_read()
    ensures { (range : ℕ) → 1 ≤ range → (b : Bits) →
        IsReadBy (IsTe range) CodeTooLong b (te range b) }
{}

/// No codeword of a code begins another.
pub fn no_codeword_begins_another()
    ensures u { (n : ℕ) → IsPrefixFree (IsU n) }
    ensures ue { IsPrefixFree IsUe }
    ensures se { IsPrefixFree IsSe }
    ensures te { (range : ℕ) → IsPrefixFree (IsTe range) }
{}
