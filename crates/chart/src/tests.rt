// A chart of three states, where operator 0 leads from 0 to 1, and operator 1 on to the goal 2 from both;
// and tables that are large or wrong.
use super::*;
use std::test::Fail;
use task::{Fault, Kind, Layer, NamedTask, Task};

static ARCS: [Arc; 3] = [
    Arc {
        from: 1,
        operator: 1,
        to: 2,
    },
    Arc {
        from: 0,
        operator: 1,
        to: 2,
    },
    Arc {
        from: 0,
        operator: 0,
        to: 1,
    },
];

fn tables<'a>(goals: &'a [bool], estimates: &'a [u32], arcs: &'a [Arc]) -> ChartTables<'a> {
    ChartTables {
        costs: &[2, 3],
        text: b"gohop",
        ends: &[2, 5],
        goals,
        estimates,
        arcs,
        start: 0,
    }
}

#[test]
fn the_small_chart_is_answered(rt: HostRuntime) -> Result<(), Fail> {
    let small = tables(&[false, false, true], &[3, 3, 0], &ARCS);
    Chart::check(rt.alloc(), small)?;
    let chart = Chart::new(rt.alloc(), small)?;
    assert_eq!(rt; chart.operators(), 2);
    assert_eq!(rt; chart.span(), 3);
    assert_eq!(rt; chart.step(0, 1), Some(2));
    assert_eq!(rt; chart.step(1, 0), None);
    assert_eq!(rt; chart.next_move(0, 0), Some((0, 1)));
    assert_eq!(rt; chart.next_move(1, 0), Some((1, 2)));
    assert_eq!(rt; chart.next_move(2, 0), None);
    assert_eq!(rt; chart.estimate(1), Some(3));
    assert!(rt; chart.is_goal(2));
    assert!(rt; chart.name(1) == b"hop".as_slice());
    Ok(())
}

#[test]
fn an_arc_is_repeated(rt: HostRuntime) -> Result<(), Fail> {
    let arcs = [ARCS[0], ARCS[1], ARCS[0], ARCS[1]];
    let wrong = tables(&[false, false, true], &[3, 3, 0], &arcs);
    assert_eq!(rt;
        Chart::check(rt.alloc(), wrong),
        Err(Layer::Chart.fault(Kind::ArcRepeated, 2))
    );
    let chart = Chart::new(rt.alloc(), wrong)?;
    assert_eq!(rt; chart.span(), 1);
    Ok(())
}

#[test]
fn an_estimate_is_too_large(rt: HostRuntime) {
    let wrong = tables(&[false, false, true], &[4, 3, 0], &ARCS);
    assert_eq!(rt;
        Chart::check(rt.alloc(), wrong),
        Err(Layer::Chart.fault(Kind::EstimateLaw, 1))
    );
}

// A way through all states, its arcs given from the last to the first.
#[test]
fn the_largest_chart_is_made(rt: HostRuntime) -> Result<(), Fail> {
    let mut goals = Vec::new(rt.alloc());
    let mut estimates = Vec::new(rt.alloc());
    let mut arcs = Vec::new(rt.alloc());
    for state in 0..65535u32 {
        goals.push(state == 65534).ok().ok_or("no memory")?;
        estimates.push(65534 - state).ok().ok_or("no memory")?;
    }
    for arc in 0..65534u32 {
        arcs.push(Arc {
            from: 65533 - arc,
            operator: 0,
            to: 65534 - arc,
        })
        .ok()
        .ok_or("no memory")?;
    }
    let large = tables(goals.as_slice(), estimates.as_slice(), arcs.as_slice());
    let chart = Chart::new(rt.alloc(), large)?;
    assert_eq!(rt; chart.span(), 65535);
    assert_eq!(rt; chart.step(40000, 0), Some(40001));
    Ok(())
}
