// Which variables of a file have been seen.
ghost use Rattle.std.specs.Prelude.{◌≡◌};
ghost use Rattle.translator.specs.Readers.{noted_in};
ghost use Rattle.translator.specs.Sections.{none_seen};

use crate::sizes::Sizes;

// The sizes of the variables, and for each whether it has been seen in the goal or operator in hand.
#[derive(Drop)]
pub(crate) struct Seen<'s> {
    pub(crate) sizes: &'s Sizes,
    pub(crate) marks: [bool; 60],
}

impl<'s> Seen<'s> {
    // None has been seen yet.
    pub(crate) fn new(sizes: &'s Sizes) -> Seen<'s>
        ensures { noted_in result ≡ none_seen sizes.now.all.items }
    {
        Seen {
            sizes,
            marks: [false; 60],
        }
    }
}
