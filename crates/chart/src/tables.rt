// The tables that hold a chart.

// The operator leads from one state to another.
#[derive(Clone, Copy, Debug, PartialEq, Eq)]
pub struct Arc {
    pub from: u32,
    pub operator: u32,
    pub to: u32,
}

// The cost of each operator, and the place in `text` where its name ends, each name beginning where the one
// before it ends; whether each state is a goal, and its estimate, where the largest number means that it is
// hopeless; the arcs, and the start state. By hand: a rule of the project fixes these tables, with one text for
// all names, two tables of states, and estimates of 32 bits whose largest stands for none.
#[derive(Clone, Copy)]
pub struct ChartTables<'a> {
    pub costs: &'a [u32],
    pub text: &'a [u8],
    pub ends: &'a [usize],
    pub goals: &'a [bool],
    pub estimates: &'a [u32],
    pub arcs: &'a [Arc],
    pub start: u32,
}

// The state and the operator of an arc, and its number: entries are ordered by these, in this order.
#[derive(Clone, Copy, Debug, PartialEq, Eq, PartialOrd, Ord)]
pub(crate) struct Entry {
    pub from: u32,
    pub operator: u32,
    pub arc: u32,
}
