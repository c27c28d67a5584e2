// The interface of a task: what a search may ask of it, each answer a field of its meaning.
ghost use Rattle.std.specs.Prelude.{◌≡◌, ℕ, ◌≤◌, List, []};
ghost use Rattle.task.specs.Model.{Model, Lawful};
ghost use Rattle.task.specs.Moves.{FirstMove};
ghost use Rattle.task.specs.Names.{Names};

pub trait Task {
    ghost meaning: { Self → Model };

    // How many operators there are; they are numbered from 0.
    fn operators(&self) -> u32
        ensures { result ≡ (meaning self.now).operators };

    // The cost of an operator; 0 where there is none of that number.
    fn cost(&self, operator: u32) -> u32
        ensures { result ≡ (meaning self.now).cost operator };

    // States are the numbers below the span.
    fn span(&self) -> u64
        ensures { result ≡ (meaning self.now).span };

    fn start(&self) -> u64
        ensures { result ≡ (meaning self.now).start };

    fn is_goal(&self, state: u64) -> bool
        ensures { result ≡ (meaning self.now).goal state };

    // A number that no way to a goal costs less than; none only where no way leads to a goal.
    fn estimate(&self, state: u64) -> Option<u64>
        ensures { result ≡ (meaning self.now).estimate state };

    // Where the operator leads from the state, if it leads anywhere.
    fn step(&self, state: u64, operator: u32) -> Option<u64>
        ensures { result ≡ (meaning self.now).move state operator };

    // The first operator numbered `from` or more that leads somewhere, and where it leads.
    fn next_move(&self, state: u64, from: u32) -> Option<(u32, u64)>
        ensures { FirstMove (meaning self.now) state from result }
    {
        for operator in from..self.operators() {
            if let Some(target) = self.step(state, operator) {
                return Some((operator, target));
            }
        }
        None
    }

    ghost lawful: { (t : Self) → Lawful (meaning t) };
}

// A task whose operators have names, and that says how its costs are to be shown.
pub trait NamedTask: Task {
    ghost names: { Self → Names };

    // The operator's name; empty where there is none of that number.
    fn name(&self, operator: u32) -> &[u8]
        ensures { result.now ≡ (names self.now).name operator };

    // Whether costs are shown as unit costs, and not as general ones.
    fn unit_cost(&self) -> bool
        ensures { result ≡ (names self.now).unit };

    ghost nameless: { (t : Self) (o : ℕ) → (Self.Task.meaning t).operators ≤ o → (names t).name o ≡ [] };
}
