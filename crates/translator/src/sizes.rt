// How many values the variables of a file have.
ghost use Rattle.std.specs.Prelude.{◌≤◌, length};
ghost use Rattle.translator.specs.Sound.{SoundSizes, sound_prop};

use arrayvec::ArrayVec;

// The size of each variable: there is one or more, at most 60, and together they span at most 2 ^ 60 states.
#[derive(Drop)]
pub(crate) struct Sizes {
    pub(crate) all: ArrayVec<u32, 60>,
    ghost some: { 1 ≤ length all.items },
    ghost few: { length all.items ≤ 60 },
    ghost sound: { SoundSizes all.items } by { sound_prop all.items },
}
