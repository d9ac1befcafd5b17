// A walk through the library: a four-cell ring generator alone, under a phase shifter and under a delay, and a test run on it.
#![tactic(auto)]

mod digits;
mod machines;
mod run;

use machines::{alone, refused, under_a_delay, under_a_shifter};
use run::{load_pattern, show_response, unload_response};

fn walk(rt: &HostRuntime) -> anyhow::Result<()> {
    alone(rt)?;
    under_a_shifter(rt)?;
    under_a_delay(rt)?;
    refused(rt)?;
    let run = load_pattern(rt)?;
    show_response(rt)?;
    unload_response(rt, run)
}

fn main(rt: HostRuntime) -> anyhow::Result<()> {
    walk(&rt)
}
