// The plans of a translator file.
ghost use Rattle.std.specs.Prelude.{IfOk};
ghost use Rattle.sas.specs.Checks.{contents};
ghost use Rattle.listing.specs.Listed.{written, Told, Listed, ListedAnew};

use crate::output::Output;
use crate::written::{list_task, refusal};
use sas::{Condition, Operator, SasTables, SasTask, Variable};
use std::alloc::{AllocError, Global};
use translator::read;

// What is written of the task that the tables hold.
fn list_tables(heap: Global, tables: SasTables) -> Result<Output, AllocError>
    ensures { IfOk result (λ o. Told 8 (contents tables.entry) (written o)) }
{
    list_task(heap, &SasTask::new(tables))
}

// Reads the file into the tables, and answers what is written of it.
fn list_file(
    heap: Global,
    bytes: &[u8],
    variables: &mut [Variable],
    operators: &mut [Operator],
    conditions: &mut [Condition],
) -> Result<Output, AllocError>
    ensures { IfOk result (λ o. Listed 8 bytes.now variables.old variables.new operators.old operators.new conditions.old conditions.new (written o)) }
{
    match read(bytes, variables, operators, conditions) {
        Ok(used) => {
            let tables = SasTables {
                bytes,
                variables,
                operators,
                conditions,
                used,
            };
            list_tables(heap, tables)
        }
        Err(fault) => refusal(heap, fault),
    }
}

// What `plans` writes for the bytes of a file. It fails only for want of memory.
pub fn list_plans(heap: Global, bytes: &[u8]) -> Result<Output, AllocError>
    ensures { IfOk result (λ o. ListedAnew 8 bytes.now (written o)) }
{
    let mut variables = vec![in heap; Variable::default(); 60]?;
    let mut operators = vec![in heap; Operator::default(); 4096]?;
    let mut conditions = vec![in heap; Condition::default(); 65536]?;
    list_file(heap, bytes, &mut variables, &mut operators, &mut conditions)
}
