// The values of a watched operator.

// How many plans there are, and how many of them contain the operator. Any two numbers may stand here: `share`
// refuses those that are no pair.
#[derive(Clone, Copy, Debug, PartialEq, Eq)]
pub struct Pair {
    pub all: u64,
    pub with: u64,
}
