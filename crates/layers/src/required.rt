// The task below whose plans have to use one operator.
ghost use Rattle.std.specs.Prelude.{◌≡◌, ◌^◌, ◌≤◌, nat_le, IfSome};

use task::{Fault, Kind, Layer, NamedTask, Task};

// By hand: a fact on the span below, kept by the type, would ask of whoever names the type that T is a task; so the
// calls ask the span.
#[derive(Drop)]
pub struct Required<'a, T> {
    below: &'a T,
    operator: u32,
}

// Whether the task's span can be doubled: it is 2^61 at most.
fn doubles<T: Task>(task: &T) -> bool
    ensures { result ≡ nat_le (T.Task.meaning task.now).span (2 ^ 61) }
{
    task.span() <= 1 << 61
}

impl<'a, T: Task> Required<'a, T> {
    ghost use Rattle.std.specs.Prelude.{◌+◌, ◌*◌, ◌%◌, ◌<◌, Some, None};
    ghost use Rattle.layers.specs.Layers.{required_check, required_made, required_meaning, where_doubled};
    ghost use Rattle.layers.specs.Required.{used_after};

    // Whether the operator can be required: refused where the task's span is above 2^61.
    pub fn check(task: &T, _operator: u32) -> Result<(), Fault>
        ensures { result ≡ required_check (T.Task.meaning task.now) }
    {
        if doubles(task) {
            Ok(())
        } else {
            Err(Layer::Pile.fault(Kind::SpanTooWide, 0))
        }
    }

    // The task whose plans have to use the operator; the empty task where `check` refuses.
    pub fn new(task: &'a T, operator: u32) -> Required<'a, T>
        ensures meant { required_meaning T.Task.meaning result ≡ required_made operator (T.Task.meaning task.now) }
        ensures lent { result.below.now ≡ task.now }
    {
        Required {
            below: task,
            operator,
        }
    }

    // The task below, where its span can be doubled; where it cannot, this is the empty task.
    fn doubled(&self) -> Option<&'a T>
        ensures held { result ≡ where_doubled (T.Task.meaning self.now.below.now) (Some self.now.below) None }
        ensures fits { IfSome result (λ t. (T.Task.meaning t.now).span ≤ 2 ^ 61) }
    {
        doubles(self.below).then_some(self.below)
    }

    // The state that the operator leads to from `state`, where it leads to the target below.
    fn marked(&self, state: u64, operator: u32, target: u64) -> u64
        requires { target < 2 ^ 61 }
        ensures { result ≡ 2 * target + used_after self.now.operator operator (state % 2) }
    {
        if operator == self.operator {
            2 * target + 1
        } else {
            2 * target + state % 2
        }
    }
}

// By hand: over one implementation for every `Option` of a task, each of these calls would stand here all the same.
impl<T: Task> Task for Required<'_, T> {
    ghost use Rattle.layers.specs.Layers.{required_meaning};
    ghost use Rattle.layers.specs.RequiredLaws.{made_lawful};

    ghost meaning = { λ r. required_meaning T.Task.meaning r };

    ghost lawful = { λ r. made_lawful r.operator (T.Task.meaning r.below.now) (T.Task.lawful r.below.now) };

    fn operators(&self) -> u32 {
        self.doubled().map_or(0, |task| task.operators())
    }

    fn cost(&self, operator: u32) -> u32 {
        self.doubled().map_or(0, |task| task.cost(operator))
    }

    fn span(&self) -> u64 {
        let span = self.below.span();
        if span <= 1 << 61 { 2 * span } else { 1 }
    }

    fn start(&self) -> u64 {
        self.doubled().map_or(0, |task| 2 * task.start())
    }

    fn is_goal(&self, state: u64) -> bool {
        self.doubled()
            .is_some_and(|task| state % 2 == 1 && task.is_goal(state / 2))
    }

    fn estimate(&self, state: u64) -> Option<u64> {
        self.doubled()?.estimate(state / 2)
    }

    fn step(&self, state: u64, operator: u32) -> Option<u64> {
        let target = self.doubled()?.step(state / 2, operator)?;
        Some(self.marked(state, operator, target))
    }

    fn next_move(&self, state: u64, from: u32) -> Option<(u32, u64)> {
        let (operator, target) = self.doubled()?.next_move(state / 2, from)?;
        Some((operator, self.marked(state, operator, target)))
    }
}

impl<T: NamedTask> NamedTask for Required<'_, T> {
    ghost use Rattle.layers.specs.Layers.{required_names};
    ghost use Rattle.layers.specs.RequiredLaws.{made_nameless};

    ghost names = { λ r. required_names T.Task.meaning T.NamedTask.names r };

    ghost nameless = { λ r. made_nameless r.operator (T.Task.meaning r.below.now) (T.NamedTask.names r.below.now) (T.NamedTask.nameless r.below.now) };

    fn name(&self, operator: u32) -> &[u8] {
        self.doubled()
            .map(|task| task.name(operator))
            .unwrap_or_default()
    }

    fn unit_cost(&self) -> bool {
        self.doubled().is_some_and(|task| task.unit_cost())
    }
}
