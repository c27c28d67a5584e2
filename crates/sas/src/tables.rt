// The records of the three tables that hold a SAS+ task, and how much of each is in use. By hand: the
// tables are lent and filled by a reader, so records name places by number, and hold no slices.

// A variable: its values are the numbers below `size`.
#[derive(Clone, Copy, Debug, Default, PartialEq, Eq)]
pub struct Variable {
    pub size: u32,
}

// What a goal asks of a variable, or an operator asks of it and does to it: it has the value `before`,
// or any value where there is none, and gets the value `after`, or keeps its own where there is none.
#[derive(Clone, Copy, Debug, Default, PartialEq, Eq)]
pub struct Condition {
    pub variable: u32,
    pub before: Option<u32>,
    pub after: Option<u32>,
}

// An operator: the place and length of its name in the bytes of the file, its conditions, which are
// `count` records from `first` on, and its cost.
#[derive(Clone, Copy, Debug, Default, PartialEq, Eq)]
pub struct Operator {
    pub name: u32,
    pub name_length: u32,
    pub first: usize,
    pub count: usize,
    pub cost: u32,
}

// How many records of each table are in use, of the conditions how many from the first on are the
// goal's, the number of the start state, and whether costs are shown as unit costs.
#[derive(Clone, Copy, Debug, PartialEq, Eq)]
pub struct Reading {
    pub variables: u32,
    pub operators: u32,
    pub conditions: usize,
    pub goal: usize,
    pub start: u64,
    pub unit_cost: bool,
}

// The bytes of the file, the three tables, and how much of them is in use.
#[derive(Clone, Copy)]
pub struct SasTables<'a> {
    pub bytes: &'a [u8],
    pub variables: &'a [Variable],
    pub operators: &'a [Operator],
    pub conditions: &'a [Condition],
    pub used: Reading,
}
