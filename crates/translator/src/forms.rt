// The three forms that a line with a condition has.

// A fact of a mutex group, which is only checked; a fact of a goal or a prevail condition; an effect.
#[derive(Clone, Copy, Debug, PartialEq, Eq)]
pub(crate) enum Form {
    Mutex,
    Fact,
    Effect,
}
