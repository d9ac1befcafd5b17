// A test run: a pattern is loaded, a response captured and unloaded.
use crate::digits::{chain_digits, pair_digits};
use anyhow::anyhow;
use examples::ring_of_four;
use patterns::replay;
use refusals::Refusal;
use scan::{CareBit, Frame, Loaded};

// The response of the logic, a word for each position, chain c in bit c; chain 2 is unknown at position 1.
const VALUES: [u64; 2] = [0b1010, 0b0011];

const UNKNOWNS: [u64; 2] = [0b0000, 0b0100];

// Replays 0011 and shows what every chain then holds.
pub(crate) fn load_pattern(rt: &HostRuntime) -> anyhow::Result<Loaded> {
    println!(rt;
        "\nThe pattern 0011 is replayed on the same ring: two warm-up cycles, then two that fill the two positions of each chain."
    )?;
    let mut ring = ring_of_four()?;
    let mut chains = [u64::MAX; 2];
    let frame = Frame {
        warmup: 2,
        shifts: 2,
    };
    let loaded = replay(&mut ring, frame, b"0011", &mut chains)?;
    println!(rt; "Whatever the chains held before, they hold, position 0 first:")?;
    for chain in 0..4 {
        let text = chain_digits(rt.alloc(), &chains, chain)?;
        println!(rt; "  chain {chain}: {text}")?;
    }
    let bit = CareBit {
        chain: 0,
        position: 1,
        value: true,
    };
    println!(rt; "Is position 1 of chain 0 a 1? {}", bit.is_in(&chains))?;
    Ok(loaded)
}

// Shows the response of the logic, position by position.
pub(crate) fn show_response(rt: &HostRuntime) -> anyhow::Result<()> {
    println!(rt; "\nThe logic answers; X is unknown. Chains are written from number 0 on:")?;
    for (position, (values, unknowns)) in VALUES.iter().zip(&UNKNOWNS).enumerate() {
        let text = pair_digits(rt.alloc(), (*values, *unknowns), 4)?;
        println!(rt; "  position {position}: {text}")?;
    }
    Ok(())
}

// Captures the response and unloads it, until no cycle is left.
pub(crate) fn unload_response(rt: &HostRuntime, loaded: Loaded) -> anyhow::Result<()> {
    println!(rt; "It is captured. Unloading begins with the highest position:")?;
    let mut captured = loaded.capture(&VALUES, &UNKNOWNS).map_err(Refusal::from)?;
    for cycle in 1..3 {
        let pair = captured.unload(&VALUES, &UNKNOWNS)?;
        let text = pair_digits(rt.alloc(), pair, 4)?;
        println!(rt; "  unload cycle {cycle}: {text}")?;
    }
    let Err(refusal) = captured.unload(&VALUES, &UNKNOWNS) else {
        return Err(anyhow!("there was a third unload cycle"));
    };
    println!(rt;
        "  unload cycle 3: refused with number {}: {refusal}",
        refusal.number()
    )?;
    Ok(())
}
