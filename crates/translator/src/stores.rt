// The lent tables: how many records they have, and writing into one.
ghost use Rattle.std.specs.Prelude.{◌≡◌, slice_set};

// How many records the caller's tables have.
#[derive(Clone, Copy)]
pub(crate) struct Room {
    pub(crate) variables: usize,
    pub(crate) operators: usize,
    pub(crate) conditions: usize,
}

// Puts the value in its place; a place past the table's end stays unwritten.
// The table and the place go apart: a struct that holds the lent table would have to promise in each contract
// that it lends the same memory still.
pub(crate) fn store<T: Copy>(table: &mut [T], at: usize, value: T)
    ensures { table.new ≡ slice_set table.old at value }
{
    if at < table.len() {
        table[at] = value;
    }
}
