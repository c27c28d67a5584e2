// The task below without the moves of one operator.
ghost use Rattle.std.specs.Prelude.{◌≡◌};
ghost use Rattle.layers.specs.Barred.{barred};
ghost use Rattle.layers.specs.Layers.{barred_meaning, barred_names};
ghost use Rattle.layers.specs.BarredLaws.{barred_lawful};

use task::{NamedTask, Task};

#[derive(Drop)]
pub struct Barred<'a, T> {
    below: &'a T,
    operator: u32,
}

impl<'a, T: Task> Barred<'a, T> {
    // The task without the moves of the operator; an operator number that the task lacks alters nothing.
    pub fn new(task: &'a T, operator: u32) -> Barred<'a, T>
        ensures meant { barred_meaning T.Task.meaning result ≡ barred operator (T.Task.meaning task.now) }
        ensures lent { result.below.now ≡ task.now }
    {
        Barred {
            below: task,
            operator,
        }
    }
}

impl<T: Task> Task for Barred<'_, T> {
    ghost meaning = { λ b. barred_meaning T.Task.meaning b };

    ghost lawful = { λ b. barred_lawful b.operator (T.Task.meaning b.below.now) (T.Task.lawful b.below.now) };

    fn operators(&self) -> u32 {
        self.below.operators()
    }

    fn cost(&self, operator: u32) -> u32 {
        self.below.cost(operator)
    }

    fn span(&self) -> u64 {
        self.below.span()
    }

    fn start(&self) -> u64 {
        self.below.start()
    }

    fn is_goal(&self, state: u64) -> bool {
        self.below.is_goal(state)
    }

    fn estimate(&self, state: u64) -> Option<u64> {
        self.below.estimate(state)
    }

    fn step(&self, state: u64, operator: u32) -> Option<u64> {
        if operator == self.operator {
            None
        } else {
            self.below.step(state, operator)
        }
    }

    fn next_move(&self, state: u64, from: u32) -> Option<(u32, u64)> {
        match self.below.next_move(state, from) {
            Some((first, _)) if first == self.operator => self.below.next_move(state, first + 1),
            found => found,
        }
    }
}

impl<T: NamedTask> NamedTask for Barred<'_, T> {
    ghost names = { λ b. barred_names T.NamedTask.names b };

    ghost nameless = { λ b. T.NamedTask.nameless b.below.now };

    fn name(&self, operator: u32) -> &[u8] {
        self.below.name(operator)
    }

    fn unit_cost(&self) -> bool {
        self.below.unit_cost()
    }
}
