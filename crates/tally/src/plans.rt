// The value of a plan, and the join of values, for any tally.
ghost use Rattle.std.specs.Prelude.{◌≡◌};
ghost use Rattle.tally.specs.Values.{value_of, joined};

use crate::tallies::Tally;

// The value of a plan: the unit extended by its steps in order.
pub fn value_of<Y: Tally>(tally: &Y, steps: &[u32]) -> Y::Value
    ensures { result ≡ value_of (Y.meaning tally.now) steps.now }
{
    steps
        .iter()
        .fold(tally.unit(), |value, step| tally.extend(value, *step))
}

// The join of all the values; none if there is no value.
pub fn join_all<Y: Tally>(tally: &Y, values: &[Y::Value]) -> Option<Y::Value>
    ensures { result ≡ joined (Y.meaning tally.now) values.now }
{
    values
        .iter()
        .copied()
        .reduce(|first, second| tally.join(first, second))
}
