// A page of a parish register as a chart: its cheapest plans, what barring or requiring an operator changes,
// and which share of the plans has each operator. A program to read when one begins with the library.
#![tactic(auto)]

use anyhow::Result;
use chart::{Arc, Chart, ChartTables};
use enumerate::cheapest;
use layers::{Barred, Required};
use std::alloc::Global;
use std::io::Write;
use std::process::ExitCode;
use tally::{Pair, Watch, join_all, share, value_of};
use task::{NamedTask, Task};
use text::write_plan;

// Five treatments, by the numbers that the arcs use.
const CROP: u32 = 0;

const DESPECKLE: u32 = 1;

const READ: u32 = 2;

const TYPE: u32 = 3;

const BLEACH: u32 = 4;

const COSTS: [u32; 5] = [1, 1, 2, 6, 1];

const NAMES: [u8; 27] = *b"cropdespecklereadtypebleach";

const ENDS: [usize; 5] = [4, 13, 17, 21, 27];

// Six states of a page: as it came, cropped, despeckled, both, read (the goal), and bleached, which is
// hopeless. An estimate never exceeds what the way to the goal costs.
const GOALS: [bool; 6] = [false, false, false, false, true, false];

const ESTIMATES: [u32; 6] = [3, 3, 3, 2, 0, u32::MAX];

// Plans are looked for up to this cost.
const HIGHEST: u32 = 8;

// Where each treatment leads.
fn page_arcs() -> [Arc; 7] {
    [
        Arc {
            from: 0,
            operator: CROP,
            to: 1,
        },
        Arc {
            from: 0,
            operator: DESPECKLE,
            to: 2,
        },
        Arc {
            from: 1,
            operator: DESPECKLE,
            to: 3,
        },
        Arc {
            from: 2,
            operator: CROP,
            to: 3,
        },
        Arc {
            from: 3,
            operator: READ,
            to: 4,
        },
        Arc {
            from: 0,
            operator: TYPE,
            to: 4,
        },
        Arc {
            from: 0,
            operator: BLEACH,
            to: 5,
        },
    ]
}

// The tables of the page's chart over these arcs.
fn page_tables<'a>(arcs: &'a [Arc]) -> ChartTables<'a> {
    ChartTables {
        costs: &COSTS,
        text: &NAMES,
        ends: &ENDS,
        goals: &GOALS,
        estimates: &ESTIMATES,
        arcs,
        start: 0,
    }
}

// Writes the cheapest plans of a task. Any task with names will do: a chart, or layers over one.
fn show_plans<T: NamedTask>(rt: &HostRuntime, title: &str, task: &T) -> Result<()> {
    println!(rt; "{title}:")?;
    match cheapest(rt.alloc(), task, HIGHEST)? {
        None => println!(rt; "no plan")?,
        Some(plans) => {
            for steps in plans.iter() {
                // Text goes into a lent buffer; a plan with a longer text ends the program.
                let mut text = [0; 512];
                let length = write_plan(task, steps, &mut text)?;
                rt.stdout().write_all(&text[..length])?;
            }
        }
    }
    Ok(())
}

// Writes how many of the cheapest plans have the operator, and their share.
fn show_share<T: NamedTask>(rt: &HostRuntime, task: &T, operator: u32) -> Result<()> {
    let watch = Watch { operator };
    let plans = cheapest(rt.alloc(), task, HIGHEST)?.unwrap_or(Vec::new(rt.alloc()));
    let values: Vec<Pair> = plans
        .iter()
        .map(|steps| value_of(&watch, steps))
        .collect(rt.alloc())?;
    rt.stdout().write_all(task.name(operator))?;
    match join_all(&watch, &values) {
        None => println!(rt; ": no plan to share")?,
        Some(pair) => {
            let Pair { all, with } = pair;
            let part = share(pair)?;
            println!(rt; ": {with} of {all}, share {part}")?;
        }
    }
    Ok(())
}

// How many cheapest plans the chart has.
fn count_plans(heap: Global, chart: &Chart<'_>) -> Result<usize> {
    Ok(cheapest(heap, chart, HIGHEST)?.map_or(0, |plans| plans.len()))
}

// How many cheapest plans there are before and after despeckling a cropped page leads to bleach. A chart's
// arcs are written only once the chart has ended; then it is made again.
fn redraw(heap: Global, arcs: &mut [Arc; 7]) -> Result<(usize, usize)> {
    let drawn = Chart::new(heap, page_tables(&*arcs))?;
    let before = count_plans(heap, &drawn)?;
    drop(drawn);
    arcs[2].to = 5;
    let redrawn = Chart::new(heap, page_tables(&*arcs))?;
    let after = count_plans(heap, &redrawn)?;
    Ok((before, after))
}

// Shows the page's plans, then their shares, then what a redrawn arc changes.
fn run(rt: &HostRuntime) -> Result<()> {
    let heap = rt.alloc();
    let mut arcs = page_arcs();
    Chart::check(heap, page_tables(&arcs))?;
    let chart = Chart::new(heap, page_tables(&arcs))?;
    show_plans(rt, "the page", &chart)?;
    show_plans(rt, "without crop", &Barred::new(&chart, CROP))?;
    show_plans(rt, "with type", &Required::new(&chart, TYPE))?;
    show_plans(rt, "with bleach", &Required::new(&chart, BLEACH))?;
    println!(rt; "shares:")?;
    for operator in 0..chart.operators() {
        show_share(rt, &chart, operator)?;
    }
    println!(rt; "shares where bleach is required:")?;
    show_share(rt, &Required::new(&chart, BLEACH), CROP)?;
    drop(chart);
    let (before, after) = redraw(heap, &mut arcs)?;
    println!(rt; "cheapest plans before and after an arc is redrawn: {before}, {after}")?;
    Ok(())
}

fn main(rt: HostRuntime) -> ExitCode {
    match run(&rt) {
        Ok(()) => ExitCode::SUCCESS,
        Err(_) => ExitCode::FAILURE,
    }
}
