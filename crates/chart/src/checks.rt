// The checks of a chart's tables, in their order: each function checks one rule.
ghost use Rattle.std.specs.Prelude.{◌≡◌, ℕ, ◌<◌, ◌≤◌, true, length, slice_index, slice_index_or, IfOk, IfErr};
ghost use Rattle.chart.specs.Faults.{AnswersFirst, answered, arc_fits, arc_lawful, arcs_fault, at_most, cost_fits, costs_fault, end_fits, ends_fault, estimates_fault, goal_aware, goals_fault, lengths_fit, limit_fault, range_fault, start_fault, table_fault};
ghost use Rattle.chart.specs.Tables.{contents, hope, name_start};

use crate::tables::{Arc, ChartTables};
use task::{Fault, Kind, Layer};

// An estimate of this number means that a state is hopeless. By hand: a rule of the project fixes the tables'
// estimates as numbers; `estimate_at` answers an `Option`.
const HOPELESS: u32 = u32::MAX;

// Tables within the limits, those of the same things as long as each other.
#[derive(Clone, Copy)]
pub(crate) struct FitTables<'a> {
    pub tables: ChartTables<'a>,
    ghost fit: { lengths_fit (contents tables) ≡ true },
}

// Whether a cost is 1 to 1,000,000.
fn is_cost(cost: u32) -> bool
    ensures { result ≡ cost_fits cost }
{
    (1..=1000000).contains(&cost)
}

// The place where the name of an operator begins.
pub(crate) fn name_start_of(ends: &[usize], operator: usize) -> usize
    requires { operator ≤ length ends.now }
    ensures { result ≡ name_start ends.now operator }
{
    if operator == 0 { 0 } else { ends[operator - 1] }
}

// Whether the name of an operator ends no earlier than it begins, within a text of so many bytes.
fn is_end(bytes: usize, ends: &[usize], operator: usize) -> bool
    requires { operator < length ends.now }
    ensures { result ≡ end_fits bytes ends.now operator }
{
    name_start_of(ends, operator) <= ends[operator] && ends[operator] <= bytes
}

// Whether the states and the operator of the arc are there.
fn is_in_range(states: usize, operators: usize, arc: Arc) -> bool
    ensures { result ≡ arc_fits states operators arc }
{
    (arc.from as usize) < states
        && (arc.to as usize) < states
        && (arc.operator as usize) < operators
}

// The cost of an operator; 0 where there is none of that number.
pub(crate) fn cost_at(costs: &[u32], operator: u32) -> u32
    ensures { result ≡ slice_index costs.now operator }
{
    costs.get(operator as usize).copied().unwrap_or(0)
}

// The estimate of a state; none where it is hopeless or there is no such state.
pub(crate) fn estimate_at(estimates: &[u32], state: usize) -> Option<u32>
    ensures { result ≡ hope (slice_index_or estimates.now state 4294967295) }
{
    let estimate = *estimates.get(state)?;
    (estimate < HOPELESS).then_some(estimate)
}

// Whether the state is no goal or has the estimate 0.
fn is_aware(goals: &[bool], estimates: &[u32], state: usize) -> bool
    requires goal { state < length goals.now }
    requires estimate { state < length estimates.now }
    ensures { result ≡ goal_aware goals.now estimates.now state }
{
    !goals[state] || estimates[state] == 0
}

// Whether an estimate is at most the cost plus the other; none exceeds every number.
fn is_at_most(estimate: Option<u32>, cost: u32, other: Option<u32>) -> bool
    ensures { result ≡ at_most estimate cost other }
{
    match (estimate, other) {
        (_, None) => true,
        (None, Some(_)) => false,
        (Some(estimate), Some(other)) => {
            u64::from(estimate) <= u64::from(cost) + u64::from(other)
        }
    }
}

// Whether the estimate falls by no more than the cost along the arc.
fn is_lawful(tables: ChartTables, arc: Arc) -> bool
    ensures { result ≡ arc_lawful (contents tables.entry) arc }
{
    is_at_most(
        estimate_at(tables.estimates, arc.from as usize),
        cost_at(tables.costs, arc.operator),
        estimate_at(tables.estimates, arc.to as usize),
    )
}

// The fault of the first record, of so many, that fails the test. By index: some rules compare records of two
// tables, or a record with the one before it.
pub(crate) fn check_each<F: Fn(usize) -> bool>(
    kind: Kind,
    count: usize,
    holds: F,
) -> Result<(), Fault>
    requires few { count ≤ 65535 }
    requires callable { (i : ℕ) → i < count → F.pre holds i }
    ensures { AnswersFirst (F.post holds) kind count result }
{
    for i in 0..count {
        if !holds(i) {
            return Err(Layer::Chart.fault(kind, i as u32));
        }
    }
    Ok(())
}

impl<'a> FitTables<'a> {
    // The tables, where they are within the limits.
    fn of(tables: ChartTables<'a>) -> Result<FitTables<'a>, Fault>
        ensures fit { IfOk result (λ t. t.tables ≡ tables.entry) }
        ensures refused { IfErr result (λ f. limit_fault (contents tables.entry) ≡ Some f) }
    {
        let states = tables.goals.len();
        let few_states = states >= 1 && states <= 65535 && tables.estimates.len() == states;
        let operators = tables.costs.len();
        let few_operators = operators <= 4096 && tables.ends.len() == operators;
        if few_states && few_operators && tables.arcs.len() <= 65535 {
            Ok(FitTables { tables })
        } else {
            Err(Layer::Chart.fault(Kind::OverLimit, 0))
        }
    }

    // The tables, where they are within the limits and what they name is there.
    pub fn checked(tables: ChartTables<'a>) -> Result<FitTables<'a>, Fault>
        ensures fit { IfOk result (λ t. (t.tables ≡ tables.entry) × (table_fault (contents tables.entry) ≡ None)) }
        ensures refused { IfErr result (λ f. table_fault (contents tables.entry) ≡ Some f) }
    {
        let fit = FitTables::of(tables)?;
        fit.check_range()?;
        Ok(fit)
    }

    // What the tables name is there.
    fn check_range(&self) -> Result<(), Fault>
        ensures { result ≡ answered (range_fault (contents self.now.tables)) }
    {
        self.check_start()?;
        self.check_costs()?;
        self.check_ends()?;
        self.check_arcs()
    }

    // The start state.
    fn check_start(&self) -> Result<(), Fault>
        ensures { result ≡ answered (start_fault (contents self.now.tables)) }
    {
        if (self.tables.start as usize) < self.tables.goals.len() {
            Ok(())
        } else {
            Err(Layer::Chart.fault(Kind::OutOfRange, 0))
        }
    }

    // The costs, each 1 to 1,000,000.
    fn check_costs(&self) -> Result<(), Fault>
        ensures { result ≡ answered (costs_fault (contents self.now.tables)) }
    {
        let costs = self.tables.costs;
        check_each(Kind::OutOfRange, costs.len(), |o| is_cost(costs[o]))
    }

    // The ends of names: they never fall, and stay within the text.
    fn check_ends(&self) -> Result<(), Fault>
        ensures { result ≡ answered (ends_fault (contents self.now.tables)) }
    {
        let bytes = self.tables.text.len();
        let ends = self.tables.ends;
        check_each(Kind::OutOfRange, ends.len(), |o| is_end(bytes, ends, o))
    }

    // The arcs, each between states that are there, by an operator that is there.
    fn check_arcs(&self) -> Result<(), Fault>
        ensures { result ≡ answered (arcs_fault (contents self.now.tables)) }
    {
        let states = self.tables.goals.len();
        let operators = self.tables.costs.len();
        let arcs = self.tables.arcs;
        check_each(Kind::OutOfRange, arcs.len(), |k| {
            is_in_range(states, operators, arcs[k])
        })
    }

    // The goals, each with the estimate 0.
    pub fn check_goals(&self) -> Result<(), Fault>
        ensures { result ≡ answered (goals_fault (contents self.now.tables)) }
    {
        let goals = self.tables.goals;
        let estimates = self.tables.estimates;
        check_each(Kind::EstimateLaw, goals.len(), |s| {
            is_aware(goals, estimates, s)
        })
    }

    // The arcs, along which no estimate falls by more than the cost.
    pub fn check_estimates(&self) -> Result<(), Fault>
        ensures { result ≡ answered (estimates_fault (contents self.now.tables)) }
    {
        let tables = self.tables;
        check_each(Kind::EstimateLaw, tables.arcs.len(), |k| {
            is_lawful(tables, tables.arcs[k])
        })
    }
}
