// The interface of a tally: what a search may ask of it, each answer a field of its meaning.
ghost use Rattle.std.specs.Prelude.{◌≡◌};
ghost use Rattle.tally.specs.Summary.{Summary, Lawful};
ghost use Rattle.tally.specs.Counts.{counting, watching};
ghost use Rattle.std.proofs.Common.{rules};

use crate::pairs::Pair;

pub trait Tally {
    type Value: Copy;

    ghost meaning: { Self → Summary Self.Value };

    // The value of the empty plan.
    fn unit(&self) -> Self::Value
        ensures { result ≡ (meaning self.now).unit };

    // The value with the operator as one more step at the end.
    fn extend(&self, value: Self::Value, operator: u32) -> Self::Value
        ensures { result ≡ (meaning self.now).extend value operator };

    // The value of the plans of either.
    fn join(&self, first: Self::Value, second: Self::Value) -> Self::Value
        ensures { result ≡ (meaning self.now).join first second };

    ghost lawful: { (y : Self) → Lawful (meaning y) };
}

// How many plans there are, cut at 2^64 - 1.
#[derive(Clone, Copy)]
pub struct Count;

impl Tally for Count {
    type Value = u64;

    ghost meaning = { λ _. counting };

    ghost lawful = { Prim.search rules };

    fn unit(&self) -> u64 {
        1
    }

    fn extend(&self, value: u64, _operator: u32) -> u64 {
        value
    }

    fn join(&self, first: u64, second: u64) -> u64 {
        first.saturating_add(second)
    }
}

// How many plans there are, and how many contain the watched operator, each cut at 2^64 - 1.
#[derive(Clone, Copy)]
pub struct Watch {
    pub operator: u32,
}

impl Tally for Watch {
    type Value = Pair;

    ghost meaning = { λ w. watching w.operator };

    ghost lawful = { Prim.search rules };

    fn unit(&self) -> Pair {
        Pair { all: 1, with: 0 }
    }

    fn extend(&self, value: Pair, operator: u32) -> Pair {
        if operator == self.operator {
            Pair {
                all: value.all,
                with: value.all,
            }
        } else {
            value
        }
    }

    fn join(&self, first: Pair, second: Pair) -> Pair {
        Pair {
            all: first.all.saturating_add(second.all),
            with: first.with.saturating_add(second.with),
        }
    }
}
