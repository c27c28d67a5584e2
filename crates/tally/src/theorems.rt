// Theorems on tallies, each the contract of a function.
ghost use Rattle.std.specs.Prelude.{ℕ};
ghost use Rattle.tally.specs.Counts.{watching};
ghost use Rattle.tally.specs.Pairs.{IsPair};
ghost use Rattle.tally.specs.Theorems.{AnyOrder, AnyParts, Keeps};

use crate::tallies::Tally;

// The join of a list of values depends neither on their order nor on bracketing, whatever the tally.
#[tactic(auto, using(crate::proofs::Joins::joined_shuffled, crate::proofs::Joins::joined_append))]
pub fn joins_in_any_order<Y: Tally>(_tally: &Y)
    ensures order { AnyOrder (Y.meaning _tally.now) }
    ensures parts { AnyParts (Y.meaning _tally.now) }
{}

// Unit, extension and join of a watched operator make only pairs.
pub fn only_pairs()
    ensures { (w : ℕ) → Keeps (watching w) IsPair }
{}
