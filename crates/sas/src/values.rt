// States as values: the values of the variables in a state, what conditions ask of them and do to them,
// and the number of the state that has them.
ghost use Rattle.std.specs.Prelude.{◌≡◌, ◌^◌, ◌<◌, ◌≤◌, [], length};
ghost use Rattle.sas.specs.Actions.{applies, renewed, changed};
ghost use Rattle.sas.specs.States.{spanned, numbered, values as state_values};
ghost use Rattle.sas.specs.Values.{Below, Sized, Within, sizes};

use crate::range::MOST_VARIABLES;
use crate::tables::{Condition, Variable};
use arrayvec::ArrayVec;

// A value for each variable. No heap is used for them.
pub(crate) type Values = ArrayVec<u32, MOST_VARIABLES>;

// Puts the values of the variables in the state into an empty list.
#[tactic(auto, using(crate::proofs::Walks::size_positive))]
pub(crate) fn decode(variables: &[Variable], state: u64, values: &mut Values)
    requires few { length variables.now ≤ 60 }
    requires sized { Sized (sizes variables.now) }
    requires empty { values.old.items ≡ [] }
    ensures { values.new.items ≡ state_values (sizes variables.now) state }
{
    let mut rest = state;
    for variable in variables {
        let size = u64::from(variable.size);
        values.push((rest % size) as u32);
        rest /= size;
    }
}

// The number of the state with these values.
pub(crate) fn number(variables: &[Variable], values: &[u32]) -> u64
    requires below { Below (sizes variables.now) values.now }
    requires small { spanned (sizes variables.now) ≤ 2 ^ 60 }
    ensures { result ≡ numbered (sizes variables.now) values.now }
{
    let mut number = 0;
    let mut weight = 1;
    for (variable, value) in variables.iter().zip(values) {
        number += weight * u64::from(*value);
        weight *= u64::from(variable.size);
    }
    number
}

// Whether every condition has the value that it asks for.
pub(crate) fn holds(values: &[u32], conditions: &[Condition]) -> bool
    requires { Within (length values.now) conditions.now }
    ensures { result ≡ applies conditions.now values.now }
{
    conditions.iter().all(|condition| {
        condition
            .before
            .is_none_or(|before| values[condition.variable as usize] == before)
    })
}

// Gives the variables the values that the conditions set, one condition after another.
pub(crate) fn change(values: &mut [u32], conditions: &[Condition])
    requires { Within (length values.old) conditions.now }
    ensures { values.new ≡ changed conditions.now values.old }
{
    for condition in conditions {
        if let Some(after) = condition.after {
            values[condition.variable as usize] = after;
        }
    }
}
