// The index of a chart's arcs, searches in it, and the checks that compare records.
ghost use Rattle.std.specs.Prelude.{◌≡◌, ◌<◌, length, IfOk};
ghost use Rattle.chart.specs.Faults.{answered, new_arc, record_fault, repeat_fault};
ghost use Rattle.chart.specs.Index.{Bound, Indexed, Listed, NextArc, Ordered, before};
ghost use Rattle.chart.specs.Tables.{contents};

use crate::checks::{FitTables, check_each};
use crate::tables::Entry;
use std::alloc::{AllocError, Global};
use task::{Fault, Kind};

// Tables with an entry for each arc, in the order of entries.
#[derive(Drop)]
pub(crate) struct IndexedTables<'a> {
    pub fit: FitTables<'a>,
    entries: Vec<Entry>,
    ghost indexed: { Indexed fit.tables.arcs.now entries.items },
}

// The entry of each arc, in the order of the arcs.
fn entries_of(heap: Global, fit: &FitTables) -> Result<Vec<Entry>, AllocError>
    ensures { IfOk result
        (λ v. Listed fit.now.tables.arcs.now (length fit.now.tables.arcs.now) v.items) }
{
    fit.tables
        .arcs
        .iter()
        .enumerate()
        .map(|(k, arc)| Entry {
            from: arc.from,
            operator: arc.operator,
            arc: k as u32,
        })
        .collect(heap)
}

// Whether the entry's state and operator stand before these.
fn is_before(entry: Entry, state: u32, operator: u32) -> bool
    ensures { result ≡ before entry state operator }
{
    (entry.from, entry.operator) < (state, operator)
}

// The place of the first entry that does not stand before the state and the operator. By hand: in a walk over the
// moves of small charts the library's `partition_point` took up to twice the time.
fn lower_bound(index: &[Entry], state: u32, operator: u32) -> usize
    requires { Ordered index.now }
    ensures { Bound index.now state operator result }
{
    let mut low = 0;
    let mut high = index.len();
    while low < high {
        let middle = low + (high - low) / 2;
        if is_before(index[middle], state, operator) {
            low = middle + 1;
        } else {
            high = middle;
        }
    }
    low
}

impl<'a> IndexedTables<'a> {
    // The tables with their index.
    pub fn of(heap: Global, fit: FitTables<'a>) -> Result<IndexedTables<'a>, AllocError>
        ensures { IfOk result (λ t. t.fit.tables ≡ fit.entry.tables) }
    {
        let mut entries = entries_of(heap, &fit)?;
        entries.sort_unstable();
        Ok(IndexedTables { fit, entries })
    }

    // Of the arcs of the state, the first of those with the least operator numbered `from` or more.
    pub fn next_arc(&self, state: u32, from: u32) -> Option<usize>
        ensures { NextArc self.now.fit.tables.arcs.now state from result }
    {
        let entries = self.entries.as_slice();
        let place = lower_bound(entries, state, from);
        let entry = entries.get(place)?;
        (entry.from == state).then_some(entry.arc as usize)
    }

    // Whether no arc before this one has its state and operator.
    fn is_new(&self, at: usize) -> bool
        requires { at < length self.now.fit.tables.arcs.now }
        ensures { result ≡ new_arc self.now.fit.tables.arcs.now at }
    {
        let arc = self.fit.tables.arcs[at];
        self.next_arc(arc.from, arc.operator) == Some(at)
    }

    // No two arcs have the same state and operator.
    fn check_repeats(&self) -> Result<(), Fault>
        ensures { result ≡ answered (repeat_fault (contents self.now.fit.tables)) }
    {
        check_each(Kind::ArcRepeated, self.fit.tables.arcs.len(), |k| {
            self.is_new(k)
        })
    }

    // The checks that compare records.
    pub fn check_records(&self) -> Result<(), Fault>
        ensures { result ≡ answered (record_fault (contents self.now.fit.tables)) }
    {
        self.check_repeats()?;
        self.fit.check_goals()?;
        self.fit.check_estimates()
    }
}
