// A task of two operators and one state, and what is written of it.
ghost use Rattle.std.specs.Prelude.{true, false, [], if◌then◌else◌, None, codes, nat_lt};
ghost use Rattle.std.proofs.Common.{rules};

use super::{write_plan, write_refusal};
use std::test::Fail;
use task::{Fault, Kind, Layer, NamedTask, Task};

struct Two;

impl Task for Two {
    ghost meaning = { λ _. record { operators = 2; cost = λ o. (if nat_lt o 2 then 7 else 0); span = 1; start = 0; goal = λ s. false; estimate = λ s. None; move = λ s o. None } };

    ghost lawful = { Prim.search rules };

    fn operators(&self) -> u32 {
        2
    }

    fn cost(&self, operator: u32) -> u32 {
        if operator < 2 { 7 } else { 0 }
    }

    fn span(&self) -> u64 {
        1
    }

    fn start(&self) -> u64 {
        0
    }

    fn is_goal(&self, _state: u64) -> bool {
        false
    }

    fn estimate(&self, _state: u64) -> Option<u64> {
        None
    }

    fn step(&self, _state: u64, _operator: u32) -> Option<u64> {
        None
    }
}

impl NamedTask for Two {
    ghost names = { λ _. record { name = λ o. (if nat_lt o 2 then codes "go on" else []); unit = true } };

    ghost nameless = { Prim.search rules };

    fn name(&self, operator: u32) -> &[u8] {
        if operator < 2 { b"go on" } else { b"" }
    }

    fn unit_cost(&self) -> bool {
        true
    }
}

#[test]
fn writes_a_plan(rt: HostRuntime) {
    let mut text = [b'.'; 44];
    assert_eq!(rt; write_plan(&Two, &[1, 0], &mut text).ok(), Some(40));
    assert_eq!(rt; text, *b"(go on)\n(go on)\n; cost = 14 (unit cost)\n....");
}

#[test]
fn refuses_an_unknown_step(rt: HostRuntime) -> Result<(), Fail> {
    let mut text = [b'.'; 44];
    match write_plan(&Two, &[1, 2], &mut text) {
        Ok(_) => Err(Fail::new("an unknown step was written")),
        Err(fault) => {
            assert_eq!(rt; fault.kind.number(), Some(8));
            assert_eq!(rt; fault.place, 1);
            Ok(())
        }
    }
}

#[test]
fn writes_a_refusal(rt: HostRuntime) {
    let mut text = [b'.'; 20];
    let fault = Layer::Reading.fault(Kind::BadNumber, 120);
    assert_eq!(rt; write_refusal(fault, &mut text).ok(), Some(17));
    assert_eq!(rt; text, *b"refused 3 at 120\n...");
}
