// Lists of steps and their listing order.
ghost use Rattle.std.specs.Prelude.{◌≡◌};
ghost use Rattle.task.specs.Order.{Earlier};

// Of two step lists the one that stands first in listing order, itself; the first one if they are equal.
pub fn earlier<'a>(first: &'a [u32], second: &'a [u32]) -> &'a [u32]
    ensures { Earlier first.entry second.entry result }
{
    if second.cmp(&first).is_lt() {
        second
    } else {
        first
    }
}
