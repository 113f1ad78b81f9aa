//! One macroblock (7.3.5).
ghost use Rattle.std.specs.Prelude.{◌≡◌, OnErr, IfOk, ◌≤◌};
ghost use Rattle.avc_bits.specs.Reader.{Reads};
ghost use Rattle.avc_mbsyntax.specs.Ranges.{IsSyntax};
ghost use Rattle.avc_mbsyntax.specs.Reading.{macroblock};
ghost use Rattle.avc_mbsyntax.specs.Steps.{ReadsInto, context_of};

use crate::context::{Context, LentContext};
use crate::inter::read_p_mb;
use crate::intra::read_i_mb;
use avc_bits::BitReader;
use avc_types::{Fault, Mb, Syntax};

/// Reads one macroblock (macroblock_layer, 7.3.5), or answers the first fault in it: beside those
/// of the codes these are OutOfRange, BadCode and TooManyCoefficients; the reader then stays.
pub fn read_macroblock(reader: &mut BitReader, context: &Context) -> Result<Mb, Fault>
    ensures read { Reads result (macroblock context.now) reader.old reader.new }
    ensures range { IfOk result (λ mb. IsSyntax context.now.num_ref_idx_active mb.syntax) }
    ensures quantiser { context.now.qp ≤ 51 → IfOk result (λ mb. mb.qp ≤ 51) }
    ensures stays { OnErr result (reader.new ≡ reader.old) }
{
    let mut mb = Mb {
        syntax: Syntax::PSkip,
        qp: context.qp,
    };
    let mut after = *reader;
    read_into(&mut after, &context.lent(), &mut mb)?;
    *reader = after;
    Ok(mb)
}

/// Reads one macroblock into its place, in which anything may stand after a fault.
pub(crate) fn read_into(
    reader: &mut BitReader,
    context: &LentContext<'_>,
    mb: &mut Mb,
) -> Result<(), Fault>
    ensures read { ReadsInto result mb.new (macroblock (context_of context.now)) reader.old
        reader.new }
    ensures range { IfOk result (λ _. IsSyntax context.now.num_ref_idx_active mb.new.syntax) }
    ensures quantiser { context.now.qp ≤ 51 → IfOk result (λ _. mb.new.qp ≤ 51) }
{
    if !context.is_p {
        let mb_type = reader.ue_to(25)?;
        return read_i_mb(reader, context, mb_type, mb);
    }
    let mb_type = reader.ue_to(30)?;
    if mb_type < 5 {
        read_p_mb(reader, context, mb_type, mb)
    } else {
        read_i_mb(reader, context, mb_type - 5, mb)
    }
}
