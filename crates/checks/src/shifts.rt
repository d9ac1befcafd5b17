// Registers and piles of layers as they shift.
use examples::ring_of_four;
use layers::{Delay, PhaseShifter};
use machine::{Machine, cycle};
use refusals::Refusal;
use registers::{GaloisRegister, Link, RingGenerator};
use std::array;
use std::process::Abort;
use std::test::Fail;

// What a machine with one channel shows in each cycle, held to what it should show.
fn shows<M: Machine>(rt: &impl Abort, machine: &mut M, injection: &[u64], outlets: &[u64]) {
    for (word, expected) in injection.iter().zip(outlets) {
        assert_eq!(rt; cycle(machine, *word), *expected);
    }
}

#[test]
fn galois_of_three_cells(rt: HostRuntime) -> Result<(), Fail> {
    let mut register = GaloisRegister::new(3, &[1], &[0])?;
    shows(
        &rt,
        &mut register,
        &[1, 0, 0, 0, 0],
        &[0b001, 0b010, 0b100, 0b011, 0b110],
    );
    register.reset();
    assert_eq!(rt; register.read(), 0);
    Ok(())
}

// x^4 + x + 1 is primitive, so the register goes through all 15 states before it is back.
#[test]
fn primitive_polynomial_has_the_longest_period(rt: HostRuntime) -> Result<(), Fail> {
    let mut register = GaloisRegister::new(4, &[1], &[0])?;
    register.shift(1);
    let period = (1..16).find(|_| {
        register.shift(0);
        register.read() == 1
    });
    assert_eq!(rt; period, Some(15));
    Ok(())
}

#[test]
fn bits_past_the_channels_are_ignored(rt: HostRuntime) -> Result<(), Fail> {
    let mut register = GaloisRegister::new(3, &[], &[2, 2, 1])?;
    register.shift(0b11111);
    assert_eq!(rt;
        register.read(),
        0b010,
        "channels 0 and 1 feed cell 2 and cancel out"
    );
    Ok(())
}

#[test]
fn sixty_four_cells_and_channels(rt: HostRuntime) -> Result<(), Fail> {
    // Channel k into cell k.
    let inlets: [usize; 64] = array::from_fn(|k| k);
    let mut ring = RingGenerator::new(64, &[Link { from: 63, to: 63 }], &inlets)?;
    ring.shift(1 << 63);
    assert_eq!(rt; ring.read(), 1 << 63);
    ring.shift(0);
    assert_eq!(rt;
        ring.read(),
        1 << 63 | 1,
        "the last cell goes on to cell 0, and the link keeps it"
    );
    Ok(())
}

#[test]
fn tap_at_the_last_of_64_cells(rt: HostRuntime) -> Result<(), Fail> {
    let mut register = GaloisRegister::new(64, &[63], &[63])?;
    shows(
        &rt,
        &mut register,
        &[1, 0, 0],
        &[1 << 63, 1 << 63 | 1, 1 << 63 | 0b11],
    );
    Ok(())
}

#[test]
fn ring_under_a_shifter_under_a_delay(rt: HostRuntime) -> Result<(), Fail> {
    let shifter = PhaseShifter::new(ring_of_four()?, &[0b001, 0b110]).map_err(Refusal::from)?;
    shows(
        &rt,
        &mut Delay::new(shifter),
        &[1, 0, 0, 0, 0],
        &[0b00, 0b01, 0b10, 0b11, 0b10],
    );
    Ok(())
}
