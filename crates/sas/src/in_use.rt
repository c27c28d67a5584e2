// What is in use of tables in range.
ghost use Rattle.std.specs.Prelude.{◌≡◌, ◌<◌, ◌≤◌, IsTrue, Some, length, take};
ghost use Rattle.std.specs.List.{list_all};
ghost use Rattle.sas.specs.Checks.{condition_fits, operator_fits, product};
ghost use Rattle.sas.specs.Values.{sizes};

use crate::range::{
    MOST_OPERATORS, MOST_VARIABLES, conditions_in_range, operators_in_range, product_of,
};
use crate::tables::{Condition, Operator, SasTables, Variable};

mod moves;

// The records in use of tables in range: variables, operators, conditions and those that are the goal's,
// with the bytes of the file, the number of the start state and the number of states.
#[derive(Clone, Copy)]
pub(crate) struct InUse<'a> {
    bytes: &'a [u8],
    variables: &'a [Variable],
    operators: &'a [Operator],
    conditions: &'a [Condition],
    goal: &'a [Condition],
    start: u64,
    span: u64,
    unit_cost: bool,
    ghost some_variables: { 1 ≤ length variables.now },
    ghost few_variables: { length variables.now ≤ 60 },
    ghost few_operators: { length operators.now ≤ 4096 },
    ghost spans: { product 1 (sizes variables.now) ≡ Some span },
    ghost starts: { start < span },
    ghost conditions_fit: { IsTrue (list_all (condition_fits (sizes variables.now)) conditions.now) },
    ghost goal_first: { goal.now ≡ take (length goal.now) conditions.now },
    ghost goal_fits: { IsTrue (list_all (condition_fits (sizes variables.now)) goal.now) },
    ghost operators_fit: { IsTrue (list_all (operator_fits (length bytes.now) (length conditions.now)) operators.now) },
}

impl<'a> InUse<'a> {
    ghost use Rattle.std.specs.Option.{MatchOption};
    ghost use Rattle.sas.specs.Checks.{contents};
    ghost use Rattle.sas.specs.Meaning.{UseOf};
    ghost use Rattle.sas.specs.Tables.{InRange};

    // What is in use of the tables; none where they are not in range.
    pub(crate) fn of(tables: SasTables<'a>) -> Option<InUse<'a>>
        ensures { MatchOption result (InRange (contents tables.entry) → ⊥) (UseOf (contents tables.entry)) }
    {
        let used = tables.used;
        let variables = tables.variables.get(..used.variables as usize)?;
        let operators = tables.operators.get(..used.operators as usize)?;
        let conditions = tables.conditions.get(..used.conditions)?;
        let goal = conditions.get(..used.goal)?;
        if variables.is_empty()
            || variables.len() > MOST_VARIABLES
            || operators.len() > MOST_OPERATORS
        {
            return None;
        }
        let span = product_of(variables)?;
        if used.start < span
            && conditions_in_range(variables, conditions)
            && operators_in_range(tables.bytes.len(), conditions.len(), operators)
        {
            Some(InUse {
                bytes: tables.bytes,
                variables,
                operators,
                conditions,
                goal,
                start: used.start,
                span,
                unit_cost: used.unit_cost,
            })
        } else {
            None
        }
    }
}
