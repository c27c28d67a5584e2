// All plans of one price, and the cheapest plans, by plain enumeration: what a search is compared with.
#![tactic(auto)]

ghost use Rattle.std.specs.Prelude.{◌≡◌, ℕ, List, ◌∷◌, ◌++◌, map, vec_items, IfOk};
ghost use Rattle.task.specs.Listing.{AllOf};
ghost use Rattle.task.specs.Order.{Before};
ghost use Rattle.enumerate.specs.Completes.{Completes, CompletesBelow};
ghost use Rattle.enumerate.specs.Found.{Found};
ghost use Rattle.enumerate.specs.Lists.{plans_of};

mod moves;

use moves::Moves;
use std::alloc::{AllocError, Global};
use std::iter;
use task::Task;

// The operator, then the steps of `tail`.
fn led_by(heap: Global, operator: u32, tail: &[u32]) -> Result<Vec<u32>, AllocError>
    ensures { IfOk result (λ v. v.items ≡ operator ∷ tail.now) }
{
    iter::once(operator)
        .chain(tail.iter().copied())
        .collect(heap)
}

// Appends to `plans` each list of `tails` with the operator before it.
fn append_led(
    heap: Global,
    plans: &mut Vec<Vec<u32>>,
    operator: u32,
    tails: &[Vec<u32>],
) -> Result<(), AllocError>
    ensures { IfOk result (λ _. plans_of plans.new ≡ plans_of plans.old ++ map (λ (os : List ℕ). operator ∷ os) (map vec_items tails.now)) }
{
    for tail in tails {
        plans.push(led_by(heap, operator, tail)?)?;
    }
    Ok(())
}

// The empty list where the price is 0 and the state is a goal, and no list otherwise.
fn empty_if_done<T: Task>(
    heap: Global,
    task: &T,
    state: u64,
    price: u32,
) -> Result<Vec<Vec<u32>>, AllocError>
    ensures { IfOk result (λ v. AllOf Before (CompletesBelow (T.Task.meaning task.now) state price 0) (plans_of v)) }
{
    if price == 0 && task.is_goal(state) {
        Ok(vec![in heap; Vec::new(heap)]?)
    } else {
        Ok(Vec::new(heap))
    }
}

// All lists of price exactly `price` that lead from `state` to a goal, in listing order. The allocator is the first
// parameter of whatever allocates, here as in the library, and never a field.
pub fn completions<T: Task>(
    heap: Global,
    task: &T,
    state: u64,
    price: u32,
) -> Result<Vec<Vec<u32>>, AllocError>
    ensures { IfOk result (λ v. AllOf Before (Completes (T.Task.meaning task.now) state price) (plans_of v)) }
{
    let mut plans = empty_if_done(heap, task, state, price)?;
    for (operator, target) in Moves::new(task, state) {
        let cost = task.cost(operator);
        if cost <= price {
            let tails = completions(heap, task, target, price - cost)?;
            append_led(heap, &mut plans, operator, &tails)?;
        }
    }
    Ok(plans)
}

// The cheapest plans, in listing order; none where no plan costs `highest` or less.
pub fn cheapest<T: Task>(
    heap: Global,
    task: &T,
    highest: u32,
) -> Result<Option<Vec<Vec<u32>>>, AllocError>
    ensures { IfOk result (Found (T.Task.meaning task.now) highest) }
{
    let start = task.start();
    for price in 0..=highest {
        let plans = completions(heap, task, start, price)?;
        if !plans.is_empty() {
            return Ok(Some(plans));
        }
    }
    Ok(None)
}

#[cfg(test)]
mod tests;
