// The chart made from tables, and its calls.
ghost use Rattle.std.specs.Prelude.{◌≡◌, ◌<◌, true, length, IfOk, IfSome, option_map};
ghost use Rattle.chart.specs.Faults.{chart_fault, end_fits};
ghost use Rattle.chart.specs.Makes.{task_lawful, task_nameless};
ghost use Rattle.chart.specs.Meaning.{Checked, FirstOut, Made, task_meaning, task_names};
ghost use Rattle.chart.specs.Tables.{contents, name_of};

use super::Chart;
use crate::checks::{FitTables, cost_at, estimate_at, name_start_of};
use crate::index::IndexedTables;
use crate::tables::{Arc, ChartTables};
use std::alloc::{AllocError, Global};
use task::{Fault, NamedTask, Task};

impl<'a> Chart<'a> {
    // The first fault of the tables, if they have one. Refuses for want of memory too.
    pub fn check(heap: Global, tables: ChartTables) -> Result<(), Fault>
        ensures { Checked (contents tables.entry) result }
    {
        let fit = FitTables::checked(tables)?;
        IndexedTables::of(heap, fit)?.check_records()
    }

    // The task that the tables hold; the empty task where they have a fault. Refuses only for want of memory.
    pub fn new(heap: Global, tables: ChartTables<'a>) -> Result<Chart<'a>, AllocError>
        ensures { IfOk result (λ c. Made (contents tables.entry) c) }
    {
        let Ok(fit) = FitTables::checked(tables) else {
            return Ok(Chart { held: None });
        };
        let indexed = IndexedTables::of(heap, fit)?;
        let passed = indexed.check_records().is_ok();
        Ok(Chart {
            held: passed.then_some(indexed),
        })
    }

    // The tables, where they are held.
    fn tables(&self) -> Option<ChartTables<'a>>
        ensures held { result ≡ option_map (λ t. t.fit.tables) self.now.held }
        ensures faultless { IfSome result (λ t. chart_fault (contents t) ≡ None) }
    {
        self.held.as_ref().map(|held| held.fit.tables)
    }

    // Of the arcs of the state, that of the least operator numbered `from` or more.
    fn next_out(&self, state: u64, from: u32) -> Option<Arc>
        ensures { FirstOut ((task_meaning self.now).move state) from result }
    {
        let held = self.held.as_ref()?;
        if state >= held.fit.tables.goals.len() as u64 {
            return None;
        }
        let arc = held.next_arc(state as u32, from)?;
        Some(held.fit.tables.arcs[arc])
    }
}

// The name of the operator.
fn name_at<'a>(text: &'a [u8], ends: &[usize], operator: usize) -> &'a [u8]
    requires within { operator < length ends.now }
    requires fits { end_fits (length text.now) ends.now operator ≡ true }
    ensures { result.now ≡ name_of text.now ends.now operator }
{
    let start = name_start_of(ends, operator);
    &text[start..ends[operator]]
}

// By hand: were every `Option` of a task a task itself, each of these calls would stand here all the same, to
// pass it on.
impl Task for Chart<'_> {
    ghost meaning = { task_meaning };

    ghost lawful = { task_lawful };

    fn operators(&self) -> u32 {
        self.tables().map_or(0, |tables| tables.costs.len() as u32)
    }

    fn cost(&self, operator: u32) -> u32 {
        self.tables()
            .map_or(0, |tables| cost_at(tables.costs, operator))
    }

    fn span(&self) -> u64 {
        self.tables().map_or(1, |tables| tables.goals.len() as u64)
    }

    fn start(&self) -> u64 {
        self.tables().map_or(0, |tables| u64::from(tables.start))
    }

    fn is_goal(&self, state: u64) -> bool {
        self.tables().is_some_and(|tables| {
            tables.goals.get(state as usize).copied().unwrap_or(false)
        })
    }

    fn estimate(&self, state: u64) -> Option<u64> {
        estimate_at(self.tables()?.estimates, state as usize).map(u64::from)
    }

    fn step(&self, state: u64, operator: u32) -> Option<u64> {
        let arc = self.next_out(state, operator)?;
        (arc.operator == operator).then_some(u64::from(arc.to))
    }

    fn next_move(&self, state: u64, from: u32) -> Option<(u32, u64)> {
        self.next_out(state, from)
            .map(|arc| (arc.operator, u64::from(arc.to)))
    }
}

impl NamedTask for Chart<'_> {
    ghost names = { task_names };

    ghost nameless = { task_nameless };

    fn name(&self, operator: u32) -> &[u8] {
        // By hand: in a closure after `filter`, what `name_at` asks of the ends was not proved; the check of
        // borrows does not cover `map_or(&[], ..)` here.
        let operator = operator as usize;
        let Some(tables) = self.tables() else {
            return &[];
        };
        if operator < tables.ends.len() {
            name_at(tables.text, tables.ends, operator)
        } else {
            &[]
        }
    }

    fn unit_cost(&self) -> bool {
        false
    }
}
