// Whether tables are in range, each record looked at once.
ghost use Rattle.std.specs.Prelude.{◌≡◌};
ghost use Rattle.std.specs.List.{list_all};
ghost use Rattle.sas.specs.Checks.{condition_fits, operator_fits, product, times, valid};
ghost use Rattle.sas.specs.Values.{sizes};

use crate::tables::{Condition, Operator, Variable};

// No task has more variables.
pub(crate) const MOST_VARIABLES: usize = 60;

// No task has more operators.
pub(crate) const MOST_OPERATORS: usize = 4096;

// No task has more states.
const LARGEST_SPAN: u64 = 1 << 60;

// The product times the size; none where the size is out of range or the product is too large.
fn times(product: u64, size: u32) -> Option<u64>
    ensures { result ≡ times product size }
{
    if !(1..=1000).contains(&size) {
        return None;
    }
    product
        .checked_mul(u64::from(size))
        .filter(|next| *next <= LARGEST_SPAN)
}

// The product of the sizes; none where a size is out of range or the product is too large.
pub(crate) fn product_of(variables: &[Variable]) -> Option<u64>
    ensures { result ≡ product 1 (sizes variables.now) }
{
    let mut result = 1;
    for variable in variables {
        result = times(result, variable.size)?;
    }
    Some(result)
}

// Whether a value, if there is one, is a value of a variable of this size.
fn is_valid(value: Option<u32>, size: u32) -> bool
    ensures { result ≡ valid value size }
{
    value.is_none_or(|value| value < size)
}

// Whether the condition is of one of the variables, and its values are values of it.
fn condition_in_range(variables: &[Variable], condition: &Condition) -> bool
    ensures { result ≡ condition_fits (sizes variables.now) condition.now }
{
    variables.get(condition.variable as usize).is_some_and(|variable| {
        is_valid(condition.before, variable.size) && is_valid(condition.after, variable.size)
    })
}

// Whether every condition is in range.
pub(crate) fn conditions_in_range(variables: &[Variable], conditions: &[Condition]) -> bool
    ensures { result ≡ list_all (condition_fits (sizes variables.now)) conditions.now }
{
    conditions
        .iter()
        .all(|condition| condition_in_range(variables, condition))
}

// Whether the operator's name is within the bytes and its conditions within those in use, and its cost in range.
fn operator_in_range(bytes: usize, conditions: usize, operator: &Operator) -> bool
    ensures { result ≡ operator_fits bytes conditions operator.now }
{
    let named = u64::from(operator.name) + u64::from(operator.name_length) <= bytes as u64;
    let placed = operator.count <= conditions && operator.first <= conditions - operator.count;
    named && placed && (1..=1000000).contains(&operator.cost)
}

// Whether every operator is in range.
pub(crate) fn operators_in_range(bytes: usize, conditions: usize, operators: &[Operator]) -> bool
    ensures { result ≡ list_all (operator_fits bytes conditions) operators.now }
{
    operators
        .iter()
        .all(|operator| operator_in_range(bytes, conditions, operator))
}
