// The cheapest plans of a task as text.
ghost use Rattle.std.specs.Prelude.{◌≡◌, ◌++◌, length, map, take, vec_items, IfOk};
ghost use Rattle.text.specs.RefusalLine.{refusal_line};
ghost use Rattle.listing.specs.Outcome.{Outcome, texts, refused_with, Added};
ghost use Rattle.listing.specs.Listed.{written};

use crate::output::Output;
use enumerate::cheapest;
use std::alloc::{AllocError, Global};
use task::{Fault, Kind, Layer, NamedTask};
use text::{write_plan, write_refusal};

// Plans are looked for up to this price.
const HIGHEST: u32 = 8;

// Appends the line of a refusal.
fn push_refusal(text: &mut Vec<u8>, fault: Fault) -> Result<(), AllocError>
    ensures { IfOk result (λ _. text.new.items ≡ text.old.items ++ refusal_line fault) }
{
    // Text goes into a lent buffer; the line of a refusal has at most 64 bytes.
    let mut line = [0; 64];
    let length = write_refusal(fault, &mut line).unwrap();
    text.extend_from_slice(&line[..length])?;
    Ok(())
}

// The line of a refusal, and nothing else.
pub(crate) fn refusal(heap: Global, fault: Fault) -> Result<Output, AllocError>
    ensures { IfOk result (λ o. written o ≡ refused_with fault) }
{
    let mut text = Vec::new(heap);
    push_refusal(&mut text, fault)?;
    Ok(Output {
        text,
        refusal: Some(fault),
    })
}

// Appends the text of one plan; where that is refused, the line of the refusal, which it then answers.
fn push_plan<T: NamedTask>(
    text: &mut Vec<u8>,
    task: &T,
    steps: &[u32],
    buffer: &mut [u8],
) -> Result<Option<Fault>, AllocError>
    requires { length buffer.old ≡ 65536 }
    ensures { IfOk result (λ end. Added (T.Task.meaning task.now) (T.NamedTask.names task.now) steps.now text.old.items text.new.items end) }
{
    match write_plan(task, steps, buffer) {
        Ok(length) => {
            text.extend_from_slice(&buffer[..length])?;
            Ok(None)
        }
        Err(fault) => {
            push_refusal(text, fault)?;
            Ok(Some(fault))
        }
    }
}

// The first hundred plans, one behind the other, up to the first whose text is refused.
fn write_plans<T: NamedTask>(
    heap: Global,
    task: &T,
    plans: &[Vec<u32>],
    buffer: &mut [u8],
) -> Result<Output, AllocError>
    requires { length buffer.old ≡ 65536 }
    ensures { IfOk result (λ o. written o ≡ texts (T.Task.meaning task.now) (T.NamedTask.names task.now) (take 100 (map vec_items plans.now))) }
{
    let mut text = Vec::new(heap);
    for steps in plans.iter().take(100) {
        let refusal = push_plan(&mut text, task, steps, buffer)?;
        if refusal.is_some() {
            return Ok(Output { text, refusal });
        }
    }
    Ok(Output {
        text,
        refusal: None,
    })
}

// What is written of a task: the first hundred of its cheapest plans, or that none was found within reach.
pub(crate) fn list_task<T: NamedTask>(heap: Global, task: &T) -> Result<Output, AllocError>
    ensures { IfOk result (λ o. Outcome 8 (T.Task.meaning task.now) (T.NamedTask.names task.now) (written o)) }
{
    match cheapest(heap, task, HIGHEST)? {
        None => refusal(heap, Layer::Session.fault(Kind::Unfinished, 0)),
        Some(plans) => {
            let mut buffer = vec![in heap; 0; 65536]?;
            write_plans(heap, task, &plans, &mut buffer)
        }
    }
}
