// The task that the records in use hold: goal tests, steps, first moves and names.
ghost use Rattle.std.specs.Prelude.{◌≡◌, ◌+◌, ◌^◌, ◌≤◌, length};
ghost use Rattle.sas.specs.Tables.{part};

use super::InUse;
use crate::tables::Condition;
use crate::values::{Values, change, decode, holds, number};
use task::{NamedTask, Task};

// The `count` elements from `first` on.
fn part<T>(elements: &[T], first: usize, count: usize) -> &[T]
    requires { first + count ≤ length elements.now }
    ensures { result.now ≡ part elements.now first count }
{
    &elements[first..first + count]
}

impl<'a> InUse<'a> {
    ghost use Rattle.std.specs.Prelude.{◌<◌, []};
    ghost use Rattle.std.specs.List.{slice_get};
    ghost use Rattle.std.specs.Option.{IfSome, option_copied, option_map};
    ghost use Rattle.task.specs.Listing.{Each};
    ghost use Rattle.sas.specs.Actions.{changed};
    ghost use Rattle.sas.specs.Meaning.{sas_in};
    ghost use Rattle.sas.specs.Sas.{FirstActing};
    ghost use Rattle.sas.specs.States.{numbered, values as state_values};
    ghost use Rattle.sas.specs.Tables.{ConditionFits};
    ghost use Rattle.sas.specs.Values.{Below, sizes};

    // Puts the values of the variables in the state into an empty list.
    fn decode(&self, state: u64, values: &mut Values)
        requires { values.old.items ≡ [] }
        ensures items { values.new.items ≡ state_values (sizes self.now.variables.now) state }
        ensures count { length values.new.items ≡ length self.now.variables.now }
        ensures below { Below (sizes self.now.variables.now) values.new.items }
    {
        decode(self.variables, state, values);
    }

    // What the operator asks and does, if there is one of that number.
    fn action(&self, operator: u32) -> Option<&'a [Condition]>
        ensures fit { IfSome result (λ conditions. Each (ConditionFits (sizes self.now.variables.now)) conditions.now) }
        ensures conditions { option_copied result ≡ option_map (λ a. a.conditions) (slice_get (sas_in self.now).actions operator) }
    {
        let operator = self.operators.get(operator as usize)?;
        Some(part(self.conditions, operator.first, operator.count))
    }

    // The first operator numbered `from` or more whose conditions hold. By index: each operator costs one look, where
    // `find` over the numbers asks at each of them whether there is such an operator.
    #[tactic(auto, using(crate::proofs::Scanned::fits_within))]
    fn first_acting(&self, values: &[u32], from: u32) -> Option<u32>
        requires { length values.now ≡ length self.now.variables.now }
        ensures { FirstActing (sas_in self.now).actions values.now from result }
    {
        for at in from as usize..self.operators.len() {
            let operator = self.operators[at];
            let conditions = part(self.conditions, operator.first, operator.count);
            if holds(values, conditions) {
                return Some(at as u32);
            }
        }
        None
    }

    // The number of the state that the conditions make of the values.
    fn reached(&self, values: &mut [u32], conditions: &[Condition]) -> u64
        requires below { Below (sizes self.now.variables.now) values.old }
        requires fit { Each (ConditionFits (sizes self.now.variables.now)) conditions.now }
        ensures { result ≡ numbered (sizes self.now.variables.now) (changed conditions.now values.old) }
    {
        change(values, conditions);
        number(self.variables, values)
    }
}

impl Task for InUse<'_> {
    ghost use Rattle.sas.specs.Meaning.{meaning_in};
    ghost use Rattle.sas.specs.Makes.{in_use_lawful};

    ghost meaning = { meaning_in };

    ghost lawful = { in_use_lawful };

    fn operators(&self) -> u32 {
        self.operators.len() as u32
    }

    fn cost(&self, operator: u32) -> u32 {
        self.operators
            .get(operator as usize)
            .map_or(0, |operator| operator.cost)
    }

    fn span(&self) -> u64 {
        self.span
    }

    fn start(&self) -> u64 {
        self.start
    }

    #[tactic(auto, using(crate::proofs::Scanned::fits_within))]
    fn is_goal(&self, state: u64) -> bool {
        if state >= self.span {
            return false;
        }
        let mut values = Values::new();
        self.decode(state, &mut values);
        holds(&values, self.goal)
    }

    fn estimate(&self, state: u64) -> Option<u64> {
        (state < self.span).then_some(0)
    }

    #[tactic(auto, using(crate::proofs::Scanned::fits_within))]
    fn step(&self, state: u64, operator: u32) -> Option<u64> {
        if state >= self.span {
            return None;
        }
        let conditions = self.action(operator)?;
        let mut values = Values::new();
        self.decode(state, &mut values);
        if holds(&values, conditions) {
            Some(self.reached(&mut values, conditions))
        } else {
            None
        }
    }

    // The values are decoded once for all operators.
    fn next_move(&self, state: u64, from: u32) -> Option<(u32, u64)> {
        if state >= self.span {
            return None;
        }
        let mut values = Values::new();
        self.decode(state, &mut values);
        let operator = self.first_acting(&values, from)?;
        let conditions = self.action(operator)?;
        Some((operator, self.reached(&mut values, conditions)))
    }
}

impl NamedTask for InUse<'_> {
    ghost use Rattle.sas.specs.Meaning.{names_in};
    ghost use Rattle.sas.specs.Makes.{in_use_nameless};

    ghost names = { names_in };

    ghost nameless = { in_use_nameless };

    fn name(&self, operator: u32) -> &[u8] {
        self.operators
            .get(operator as usize)
            .map(|operator| {
                part(
                    self.bytes,
                    operator.name as usize,
                    operator.name_length as usize,
                )
            })
            .unwrap_or_default()
    }

    fn unit_cost(&self) -> bool {
        self.unit_cost
    }
}
