// The task that the tables of a chart hold.
ghost use Rattle.std.specs.Prelude.{◌≡◌, None};
ghost use Rattle.std.specs.Option.{ForSome};
ghost use Rattle.chart.specs.Faults.{chart_fault};
ghost use Rattle.chart.specs.Tables.{contents};

use crate::index::IndexedTables;

mod calls;

// The task of the tables that are held, which have no fault, and the empty task where none are.
#[derive(Drop)]
pub struct Chart<'a> {
    held: Option<IndexedTables<'a>>,
    ghost faultless: { ForSome held (λ t. chart_fault (contents t.fit.tables) ≡ None) },
}
