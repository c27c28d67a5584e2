// A task of two operators, each of cost 1 and from state 0 to the goal 1: its plans are [0] and [1].
ghost use Rattle.std.specs.Prelude.{◌-◌, if◌then◌else◌, Some, None, ◌==◌, nat_eq, nat_lt};
ghost use Rattle.std.proofs.Common.{rules};

use super::*;
use std::test::Fail;

struct Fork;

impl Task for Fork {
    ghost meaning = { λ _. record { operators = 2; cost = λ o. (if nat_lt o 2 then 1 else 0); span = 2; start = 0; goal = λ s. (s == 1); estimate = λ s. (if nat_lt s 2 then Some (1 - s) else None); move = λ s o. (if nat_eq s 0 then (if nat_lt o 2 then Some 1 else None) else None) } };

    ghost lawful = { Prim.search rules };

    fn operators(&self) -> u32 {
        2
    }

    fn cost(&self, operator: u32) -> u32 {
        if operator < 2 { 1 } else { 0 }
    }

    fn span(&self) -> u64 {
        2
    }

    fn start(&self) -> u64 {
        0
    }

    fn is_goal(&self, state: u64) -> bool {
        state == 1
    }

    fn estimate(&self, state: u64) -> Option<u64> {
        if state < 2 { Some(1 - state) } else { None }
    }

    fn step(&self, state: u64, operator: u32) -> Option<u64> {
        if state == 0 && operator < 2 {
            Some(1)
        } else {
            None
        }
    }
}

#[test]
fn both_plans_are_cheapest(rt: HostRuntime) -> Result<(), Fail> {
    let found = cheapest(rt.alloc(), &Fork, 3)?;
    let plans = found.ok_or("no plan")?;
    assert!(rt; plans.len() == 2);
    assert!(rt; plans[0].as_slice() == [0].as_slice());
    assert!(rt; plans[1].as_slice() == [1].as_slice());
    Ok(())
}

#[test]
fn no_plan_costs_nothing(rt: HostRuntime) -> Result<(), Fail> {
    let found = cheapest(rt.alloc(), &Fork, 0)?;
    assert!(rt; found.is_none());
    Ok(())
}

#[test]
fn a_goal_is_completed_by_no_step(rt: HostRuntime) -> Result<(), Fail> {
    let plans = completions(rt.alloc(), &Fork, 1, 0)?;
    assert!(rt; plans.len() == 1);
    assert!(rt; plans[0].is_empty());
    Ok(())
}
