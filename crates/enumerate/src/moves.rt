// The moves of a state, one after another.
ghost use Rattle.std.specs.Prelude.{◌≡◌, ◌-◌};
ghost use Rattle.std.specs.Iterator.{at_most};
ghost use Rattle.enumerate.specs.Moves.{NextMove};

use task::Task;

// The moves of `state` by the operators numbered `from` or more: each operator that leads somewhere, in the
// order of their numbers, with where it leads.
#[derive(Drop)]
pub struct Moves<'a, T> {
    task: &'a T,
    state: u64,
    from: u32,
}

impl<'a, T: Task> Moves<'a, T> {
    // All moves of the state.
    pub fn new(task: &'a T, state: u64) -> Moves<'a, T>
        ensures lent { result.task.now ≡ task.now }
        ensures state { result.state ≡ state }
        ensures all { result.from ≡ 0 }
    {
        Moves {
            task,
            state,
            from: 0,
        }
    }
}

impl<T: Task> Iterator for Moves<'_, T> {
    type Item = (u32, u64);

    ghost next_gives = { λ s r t. NextMove T.Task.meaning s r t };

    ghost remaining = { λ s. at_most ((T.Task.meaning s.task.now).operators - s.from) };

    fn next(&mut self) -> Option<(u32, u64)> {
        let (operator, target) = self.task.next_move(self.state, self.from)?;
        self.from = operator + 1;
        Some((operator, target))
    }
}
