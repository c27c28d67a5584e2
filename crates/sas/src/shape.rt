// The task made from tables, and its calls.
ghost use Rattle.std.specs.Prelude.{◌≡◌};
ghost use Rattle.std.specs.Option.{unwrap_or};
ghost use Rattle.sas.specs.Checks.{contents, range};
ghost use Rattle.sas.specs.Makes.{task_lawful, task_nameless};
ghost use Rattle.sas.specs.Meaning.{Made, task_meaning, task_names};

use crate::in_use::InUse;
use crate::tables::SasTables;
use task::{NamedTask, Task};

// The task of the records in use where the tables are in range, and the empty task where not.
#[derive(Clone, Copy)]
pub struct SasTask<'a> {
    in_use: Option<InUse<'a>>,
}

impl<'a> SasTask<'a> {
    // The task that the tables hold; the empty task where they are not in range.
    pub fn new(tables: SasTables<'a>) -> SasTask<'a>
        ensures made { Made (contents tables.entry) result }
        ensures span { (task_meaning result).span ≡ unwrap_or (range (contents tables.entry)) 1 }
    {
        SasTask {
            in_use: InUse::of(tables),
        }
    }
}

// By hand: over one implementation of Task for every `Option` of a task, each of these calls would stand there all the same.
impl Task for SasTask<'_> {
    ghost meaning = { task_meaning };

    ghost lawful = { task_lawful };

    fn operators(&self) -> u32 {
        self.in_use.map_or(0, |task| task.operators())
    }

    fn cost(&self, operator: u32) -> u32 {
        self.in_use.map_or(0, |task| task.cost(operator))
    }

    fn span(&self) -> u64 {
        self.in_use.map_or(1, |task| task.span())
    }

    fn start(&self) -> u64 {
        self.in_use.map_or(0, |task| task.start())
    }

    fn is_goal(&self, state: u64) -> bool {
        self.in_use.is_some_and(|task| task.is_goal(state))
    }

    fn estimate(&self, state: u64) -> Option<u64> {
        self.in_use.and_then(|task| task.estimate(state))
    }

    fn step(&self, state: u64, operator: u32) -> Option<u64> {
        self.in_use.and_then(|task| task.step(state, operator))
    }

    fn next_move(&self, state: u64, from: u32) -> Option<(u32, u64)> {
        self.in_use.and_then(|task| task.next_move(state, from))
    }
}

impl NamedTask for SasTask<'_> {
    ghost names = { task_names };

    ghost nameless = { task_nameless };

    fn name(&self, operator: u32) -> &[u8] {
        self.in_use.as_ref().map_or(&[], |task| task.name(operator))
    }

    fn unit_cost(&self) -> bool {
        self.in_use.is_some_and(|task| task.unit_cost())
    }
}
