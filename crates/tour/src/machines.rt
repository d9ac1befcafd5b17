// Machines, cycle by cycle.
use crate::digits::digits;
use anyhow::anyhow;
use examples::ring_of_four;
use layers::{Delay, PhaseShifter};
use machine::{Machine, cycle};
use refusals::Refusal;
use registers::{Link, RingGenerator};
use std::alloc::AllocError;

// What channel 0 takes in each cycle.
const INJECTION: [u64; 6] = [1, 0, 0, 0, 1, 1];

// Shows a machine cycle by cycle: what is injected, and what the closure says of the machine and of its outlets after it.
fn show_cycles<M: Machine + Drop, F: Fn(&M, String) -> Result<String, AllocError>>(
    rt: &HostRuntime,
    mut machine: M,
    told: F,
) -> anyhow::Result<()>
    requires { F.IsAlwaysCallable told }
{
    for (t, word) in INJECTION.iter().enumerate() {
        let outlets = cycle(&mut machine, *word);
        let outlets = digits(rt.alloc(), outlets, machine.outlets())?;
        let state = told(&machine, outlets)?;
        println!(rt; "  cycle {}: injected {word}, {state}", t + 1)?;
    }
    Ok(())
}

// A ring alone: its outlets are its cells.
pub(crate) fn alone(rt: &HostRuntime) -> anyhow::Result<()> {
    println!(rt; "A ring generator of four cells, at reset: every cell is 0.")?;
    println!(rt;
        "A shift moves the cells on by one place round the circle; the link adds cell 0 to cell 3, and channel 0 feeds cell 0."
    )?;
    println!(rt; "Cells and outlets are written from number 0 on.")?;
    let heap = rt.alloc();
    show_cycles(
        rt,
        ring_of_four()?,
        |_, cells| format!(in heap; "cells and outlets {cells}"),
    )
}

// The ring under a phase shifter.
pub(crate) fn under_a_shifter(rt: &HostRuntime) -> anyhow::Result<()> {
    println!(rt; "\nThe same ring under a phase shifter of two outlets.")?;
    println!(rt;
        "Outlet 0 is outlet 0 below, and outlet 1 is the sum of outlets 1 and 2 below. The cells are those of the ring."
    )?;
    let heap = rt.alloc();
    let pile = PhaseShifter::new(ring_of_four()?, &[0b001, 0b110]).map_err(Refusal::from)?;
    show_cycles(rt, pile, |pile, outlets| {
        let cells = digits(heap, pile.below().read(), 4)?;
        format!(in heap; "cells {cells}, outlets {outlets}")
    })
}

// The ring under a delay.
pub(crate) fn under_a_delay(rt: &HostRuntime) -> anyhow::Result<()> {
    println!(rt; "\nThe same ring under a delay.")?;
    println!(rt;
        "The delay has a cell for each outlet below, which takes that outlet as it is before the shift. Its outlets are these cells."
    )?;
    let heap = rt.alloc();
    let pile = Delay::new(ring_of_four()?);
    show_cycles(rt, pile, |pile, outlets| {
        let cells = digits(heap, pile.below().read(), 4)?;
        format!(in heap; "cells of the ring {cells}, outlets {outlets}")
    })
}

// A ring that breaks the rule cannot be made.
pub(crate) fn refused(rt: &HostRuntime) -> anyhow::Result<()> {
    println!(rt;
        "\nA ring with a link from cell 3 to cell 0, which is the next cell of the circle."
    )?;
    let Err(refusal) = RingGenerator::new(4, &[Link { from: 3, to: 0 }], &[0]) else {
        return Err(anyhow!("a ring that breaks the rule was made"));
    };
    println!(rt; "  refused with number {}: {refusal}", refusal.number())?;
    Ok(())
}
