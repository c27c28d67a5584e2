// A plan's text.
ghost use Rattle.std.specs.Prelude.{◌≡◌, ◌<◌, ◌≤◌, ◌++◌, length, IfSome};
ghost use Rattle.task.specs.Plans.{price};
ghost use Rattle.text.specs.Buffer.{after, fit, over, pieces, room_behind};
ghost use Rattle.text.specs.PlanText.{answer, check_count, check_known, cost_ending, first_unknown, plan_text, step_line, step_lines};

use super::parts::{put_all, room_behind};
use itoa::Buffer;
use task::{Fault, Kind, Layer, NamedTask, Task};

// Refused where there are more than 65,535 steps.
fn check_count(steps: &[u32]) -> Result<(), Fault>
    ensures { result ≡ check_count steps.now }
{
    if steps.len() > 65535 {
        return Err(Layer::Text.fault(Kind::OverLimit, 0));
    }
    Ok(())
}

// The place of the first step that is no operator of the task, if there is one.
fn first_unknown<T: Task>(task: &T, steps: &[u32]) -> Option<usize>
    ensures first { result ≡ first_unknown (T.Task.meaning task.now).operators 0 steps.now }
    ensures within { IfSome result (λ place. place < length steps.now) }
{
    let operators = task.operators();
    steps.iter().position(|step| *step >= operators)
}

// Refused at the first step that is no operator of the task.
fn check_operators<T: Task>(task: &T, steps: &[u32]) -> Result<(), Fault>
    requires { length steps.now ≤ 65535 }
    ensures { result ≡ check_known (first_unknown (T.Task.meaning task.now).operators 0 steps.now) }
{
    first_unknown(task, steps).map_or(Ok(()), |place| {
        Err(Layer::Text.fault(Kind::OutOfRange, place as u32))
    })
}

// The sum of the steps' costs.
fn total<T: Task>(task: &T, steps: &[u32]) -> u64
    requires { length steps.now ≤ 65535 }
    ensures { result ≡ price (T.Task.meaning task.now) steps.now }
{
    steps.iter().map(|step| u64::from(task.cost(*step))).sum()
}

// How the cost line ends.
fn cost_ending<'a>(unit: bool) -> &'a [u8]
    ensures { result.now ≡ cost_ending unit }
{
    if unit {
        b" (unit cost)\n"
    } else {
        b" (general cost)\n"
    }
}

// The pieces of a step's line.
fn step_pieces<'a, T: NamedTask>(task: &'a T, step: u32) -> [&'a [u8]; 3]
    ensures { pieces result ≡ step_line (T.NamedTask.names task.now) step }
{
    [b"(", task.name(step), b")\n"]
}

// The room that the steps' lines leave behind them; refused where they are longer than the room. By hand, as is
// `put_steps`: without a heap the pieces of all steps cannot stand in one list, and a loop over any iterator
// of pieces would have to say which pieces it yields.
fn room_behind_steps<T: NamedTask>(task: &T, steps: &[u32], room: usize) -> Result<usize, Fault>
    ensures { result ≡ room_behind room (length (step_lines (T.NamedTask.names task.now) steps.now)) }
{
    let mut left = room;
    for step in steps {
        left = room_behind(&step_pieces(task, *step), left)?;
    }
    Ok(left)
}

// Writes the steps' lines over the front of the text, and says where they end.
fn put_steps<T: NamedTask>(task: &T, steps: &[u32], text: &mut [u8]) -> usize
    requires { length (step_lines (T.NamedTask.names task.now) steps.now) ≤ length text.old }
    ensures end { result ≡ length (step_lines (T.NamedTask.names task.now) steps.now) }
    ensures after { text.new ≡ over (step_lines (T.NamedTask.names task.now) steps.now) text.old }
{
    let mut end = 0;
    for step in steps {
        end += put_all(&step_pieces(task, *step), &mut text[end..]);
    }
    end
}

// The steps' lines and then the last pieces at the front of `text`, and where they end; later bytes stay.
// Refused where they do not fit. Two passes over the steps: a refusal leaves the text as it was, so all is
// measured before anything is written.
fn write_lines<T: NamedTask>(
    task: &T,
    steps: &[u32],
    last: &[&[u8]],
    text: &mut [u8],
) -> Result<usize, Fault>
    ensures answers { result ≡ fit (length text.old) (length (step_lines (T.NamedTask.names task.now) steps.now ++ pieces last.now)) }
    ensures buffer { text.new ≡ after result (step_lines (T.NamedTask.names task.now) steps.now ++ pieces last.now) text.old }
{
    room_behind(last, room_behind_steps(task, steps, text.len())?)?;
    let end = put_steps(task, steps, text);
    Ok(end + put_all(last, &mut text[end..]))
}

// The plan's text at the front of `text`, and its length; later bytes stay. Refused where there are more
// than 65,535 steps, at the first step that is no operator, and where the text does not fit.
pub fn write_plan<T: NamedTask>(task: &T, steps: &[u32], text: &mut [u8]) -> Result<usize, Fault>
    ensures answers { result ≡ answer (T.Task.meaning task.now) (T.NamedTask.names task.now) steps.now (length text.old) }
    ensures buffer { text.new ≡ after result (plan_text (T.Task.meaning task.now) (T.NamedTask.names task.now) steps.now) text.old }
{
    check_count(steps)?;
    check_operators(task, steps)?;
    let mut digits = Buffer::new();
    let cost: [&[u8]; 3] = [
        b"; cost = ",
        digits.format(total(task, steps)).as_bytes(),
        cost_ending(task.unit_cost()),
    ];
    write_lines(task, steps, &cost, text)
}
