//! Which pictures have their macroblocks listed, told one after another.

ghost use Rattle.std.specs.Prelude.{◌≡◌};
ghost use Rattle.avc_selection.specs.Followed.{choice_after, choice_later, choice_of_unit};
ghost use Rattle.avc_selection.specs.Followed.{first_choice, has_come, is_chosen};

use crate::selection::Selection;

/// Which of the pictures from one on have their macroblocks listed.
#[derive(Clone, Copy)]
pub enum Choice {
    /// Each of them.
    Each,

    /// That alone which comes so many later.
    Later(u64),

    /// None, since the one that is asked for came before.
    Past,
}

impl Choice {
    /// From the first picture of a stream on, whose first slice this unit brings.
    pub fn first(selection: Selection, unit: u64) -> Choice
        ensures { result ≡ first_choice selection unit }
    {
        match selection {
            Selection::Whole => Choice::Each,
            Selection::OfPicture(number) => Choice::Later(number),
            Selection::Near(macroblock) => Choice::of_unit(macroblock.unit, unit),
        }
    }

    /// From the next picture on, whose first slice this unit brings.
    pub fn next(self, selection: Selection, unit: u64) -> Choice
        ensures { result ≡ choice_after selection unit self }
    {
        match selection {
            Selection::Whole | Selection::OfPicture(_) => self.later(),
            Selection::Near(macroblock) => Choice::of_unit(macroblock.unit, unit),
        }
    }

    // Where the picture is asked for whose first slice comes with one unit, from that on of which
    // it comes with another.
    fn of_unit(asked: u64, unit: u64) -> Choice
        ensures { result ≡ choice_of_unit asked unit }
    {
        if asked == unit {
            Choice::Each
        } else {
            Choice::Past
        }
    }

    // From the next picture on, where pictures are counted.
    fn later(self) -> Choice
        ensures { result ≡ choice_later self }
    {
        match self {
            Choice::Each => Choice::Each,
            Choice::Later(later) => {
                if later == 0 {
                    Choice::Past
                } else {
                    Choice::Later(later - 1)
                }
            }
            Choice::Past => Choice::Past,
        }
    }

    /// Whether the first of them is listed.
    pub fn is_listed(self) -> bool
        ensures { result ≡ is_chosen self }
    {
        match self {
            Choice::Each => true,
            Choice::Later(later) => later == 0,
            Choice::Past => false,
        }
    }

    /// Whether the one that is asked for is the first of them or came before, if one is.
    pub fn has_come(self) -> bool
        ensures { result ≡ has_come self }
    {
        match self {
            Choice::Each | Choice::Past => true,
            Choice::Later(later) => later == 0,
        }
    }
}
