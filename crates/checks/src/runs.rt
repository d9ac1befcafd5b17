// Test runs at the limits of their frames, and what refusals leave.
use crate::common::number;
use bits::digit;
use examples::ring_of_four;
use machine::Machine;
use patterns::replay;
use refusals::Refusal;
use registers::GaloisRegister;
use scan::{CareBit, Fit, Frame, Loaded, Loading};
use std::array;
use std::process::Abort;
use std::test::Fail;

fn frame(warmup: usize, shifts: usize) -> Frame {
    Frame { warmup, shifts }
}

// A register of two cells with as many channels as there are cells in the list.
fn galois(inlets: &[usize]) -> Result<GaloisRegister, Refusal> {
    GaloisRegister::new(2, &[1], inlets)
}

// The number with which a start is refused, if it is. A refused start leaves cells and memory as they were; one that is not leaves them 0,
// words past the positions apart.
fn start<M: Machine>(
    rt: &impl Abort,
    machine: &mut M,
    frame: Frame,
    words: &mut [u64],
) -> Option<u8> {
    machine.reset();
    machine.shift(1);
    let cells = machine.read();
    words.fill(7);
    let refused = number(Loading::start(machine, frame, words));
    let started = refused.is_none();
    assert_eq!(rt; machine.read(), if started { 0 } else { cells });
    for (p, word) in words.iter().enumerate() {
        assert_eq!(rt; *word, if started && p < frame.shifts { 0 } else { 7 });
    }
    refused
}

#[test]
fn limits_of_a_frame(rt: HostRuntime) -> Result<(), Fail> {
    let mut ring = ring_of_four()?;
    let mut words = [0; 258];
    assert_eq!(rt; start(&rt, &mut ring, frame(0, 1), &mut words), None);
    assert_eq!(rt; start(&rt, &mut ring, frame(64, 1), &mut words), None);
    assert_eq!(rt; start(&rt, &mut ring, frame(65, 1), &mut words), Some(7));
    assert_eq!(rt; start(&rt, &mut ring, frame(0, 0), &mut words), Some(7));
    assert_eq!(rt; start(&rt, &mut ring, frame(0, 256), &mut words), None);
    assert_eq!(rt; start(&rt, &mut ring, frame(0, 257), &mut words), Some(7));
    Ok(())
}

#[test]
fn at_most_256_bits(rt: HostRuntime) -> Result<(), Fail> {
    let mut words = [0; 256];
    let mut one = galois(&[0])?;
    assert_eq!(rt; start(&rt, &mut one, frame(0, 256), &mut words), None);
    assert_eq!(rt; start(&rt, &mut one, frame(1, 256), &mut words), Some(9));
    let mut two = galois(&[0, 1])?;
    assert_eq!(rt; start(&rt, &mut two, frame(64, 64), &mut words), None);
    assert_eq!(rt; start(&rt, &mut two, frame(64, 65), &mut words), Some(9));
    let mut many = galois(&[1; 64])?;
    assert_eq!(rt; start(&rt, &mut many, frame(3, 1), &mut words), None);
    assert_eq!(rt; start(&rt, &mut many, frame(3, 2), &mut words), Some(9));
    Ok(())
}

#[test]
fn memory_for_each_position(rt: HostRuntime) -> Result<(), Fail> {
    let mut ring = ring_of_four()?;
    assert_eq!(rt; start(&rt, &mut ring, frame(2, 2), &mut [0; 1]), Some(13));
    assert_eq!(rt; start(&rt, &mut ring, frame(2, 2), &mut [0; 2]), None);
    assert_eq!(rt; start(&rt, &mut ring, frame(2, 2), &mut [0; 3]), None);
    assert_eq!(rt;
        start(&rt, &mut ring, frame(65, 2), &mut [0; 1]),
        Some(7),
        "the frame goes before the memory"
    );
    assert_eq!(rt;
        start(&rt, &mut ring, frame(1, 256), &mut [0; 1]),
        Some(9),
        "the bits go before the memory"
    );
    Ok(())
}

#[test]
fn a_checked_frame(rt: HostRuntime) -> Result<(), Fail> {
    let ring = ring_of_four()?;
    let frame = frame(2, 3);
    let fit = Fit::of(&ring, frame)?;
    assert_eq!(rt; fit.frame().warmup, 2);
    assert_eq!(rt; fit.frame().shifts, 3);
    assert_eq!(rt; (fit.channels(), fit.outlets()), (1, 4));
    assert_eq!(rt; (fit.cycles(), fit.variables()), (5, 5));
    assert!(rt; fit.suits(&ring));
    assert!(rt; !fit.suits(&galois(&[0])?), "fewer outlets");
    assert!(rt;
        !fit.suits(&GaloisRegister::new(4, &[], &[0, 1])?),
        "more channels"
    );
    let two = Fit::of(&galois(&[0, 1])?, frame)?;
    assert_eq!(rt; (two.cycles(), two.variables()), (5, 10));
    Ok(())
}

// The number with which a replay is refused, if it is; a refused one leaves cells and memory as they were.
fn replayed(
    rt: &impl Abort,
    frame: Frame,
    digits: &[u8],
    words: &mut [u64],
) -> Result<Option<u8>, Fail> {
    let mut ring = ring_of_four()?;
    ring.shift(1);
    words.fill(7);
    let refused = number(replay(&mut ring, frame, digits, words));
    if refused.is_some() {
        assert_eq!(rt; ring.read(), 1);
        assert!(rt; words.iter().all(|word| *word == 7));
    }
    Ok(refused)
}

#[test]
fn refusals_of_a_pattern(rt: HostRuntime) -> Result<(), Fail> {
    let mut words = [0; 3];
    assert_eq!(rt; replayed(&rt, frame(2, 2), b"0011", &mut words)?, None);
    assert_eq!(rt; replayed(&rt, frame(2, 2), b"001", &mut words)?, Some(7));
    assert_eq!(rt; replayed(&rt, frame(2, 2), b"00110", &mut words)?, Some(7));
    assert_eq!(rt; replayed(&rt, frame(65, 1), b"0011", &mut words)?, Some(7));
    assert_eq!(rt; replayed(&rt, frame(2, 0), b"00", &mut words)?, Some(7));
    assert_eq!(rt;
        replayed(&rt, frame(0, 257), &[b'0'; 257], &mut words)?,
        Some(7)
    );
    assert_eq!(rt;
        replayed(&rt, frame(1, 256), &[b'0'; 257], &mut words)?,
        Some(9)
    );
    assert_eq!(rt;
        replayed(&rt, frame(1, 256), &[b'0'; 256], &mut words)?,
        Some(7),
        "the count goes before the bits"
    );
    assert_eq!(rt;
        replayed(&rt, frame(0, 4), b"0012", &mut words)?,
        Some(13),
        "the memory goes before a digit"
    );
    assert_eq!(rt; replayed(&rt, frame(2, 2), b"0012", &mut words)?, Some(5));
    assert_eq!(rt; replayed(&rt, frame(2, 2), b"/011", &mut words)?, Some(5));
    Ok(())
}

// The word of one cycle, from a digit for each channel.
fn word(digits: &[u8]) -> u64 {
    digits
        .iter()
        .rfold(0u64, |word, digit| word << 1 | (*digit == b'1') as u64)
}

// Shifts a run by hand, a word a cycle, and closes it.
fn by_hand<M: Machine>(
    machine: &mut M,
    frame: Frame,
    digits: &[u8],
    words: &mut [u64],
) -> Result<Loaded, Refusal> {
    let channels = machine.channels().max(1);
    let mut run = Loading::start(machine, frame, words)?;
    for digits in digits.chunks_exact(channels) {
        run.shift(machine, word(digits), words)?;
    }
    Ok(run.close()?)
}

// Digits without a short period.
fn mixed() -> [u8; 256] {
    array::from_fn(|t| digit(t % 3 == 1 || t % 7 == 2))
}

// Both ways of loading 256 digits, from other cells and other memory.
fn both_ways<M: Machine>(rt: &impl Abort, machine: &mut M, shifts: usize, digits: &[u8]) {
    let frame = frame(0, shifts);
    let mut replayed = [5; 257];
    let mut shifted = [u64::MAX; 257];
    assert_eq!(rt; number(replay(machine, frame, digits, &mut replayed)), None);
    assert_eq!(rt;
        replayed[0],
        machine.read(),
        "position 0 has the last outlets"
    );
    assert_eq!(rt; number(by_hand(machine, frame, digits, &mut shifted)), None);
    for (p, (replayed, shifted)) in replayed.iter().zip(&shifted).enumerate() {
        let past = p >= shifts;
        assert_eq!(rt; *replayed, if past { 5 } else { *shifted });
        assert_eq!(rt; past, *shifted == u64::MAX);
    }
}

// Two tests and no table of machines: a test says by its name what failed.
#[test]
fn by_hand_and_replayed(rt: HostRuntime) -> Result<(), Fail> {
    let digits = mixed();
    let mut ring = ring_of_four()?;
    both_ways(&rt, &mut ring, 256, &digits);
    Ok(())
}

#[test]
fn by_hand_and_replayed_on_two_channels(rt: HostRuntime) -> Result<(), Fail> {
    let digits = mixed();
    let mut register = galois(&[0, 1])?;
    both_ways(&rt, &mut register, 128, &digits);
    Ok(())
}

// The number with which a shift is refused, if it is; a refused one leaves cells and memory as they were.
fn refused_shift<M: Machine>(
    rt: &impl Abort,
    run: &mut Loading,
    machine: &mut M,
    words: &mut [u64],
) -> Option<u8> {
    let cells = machine.read();
    words.fill(9);
    let refused = number(run.shift(machine, 1, words));
    assert_eq!(rt; machine.read(), cells);
    assert!(rt; words.iter().all(|word| *word == 9));
    refused
}

// A run of one warm-up cycle and two shift cycles, over memory that is not clean.
#[test]
fn cycles_one_by_one(rt: HostRuntime) -> Result<(), Fail> {
    let mut ring = ring_of_four()?;
    let mut words = [0; 2];
    let frame = frame(1, 2);
    let mut run = Loading::start(&mut ring, frame, &mut words)?;
    words.fill(u64::MAX);
    run.shift(&mut ring, 1, &mut words)?;
    assert_eq!(rt;
        words[0],
        u64::MAX,
        "a warm-up cycle leaves the chains alone"
    );
    run.shift(&mut ring, 1, &mut words)?;
    assert_eq!(rt; words[0], 0b1011);
    assert_eq!(rt; words[1], 0b1111, "bits past the chains are 0");
    let mut fewer_outlets = galois(&[0])?;
    assert_eq!(rt;
        refused_shift(&rt, &mut run, &mut fewer_outlets, &mut [0; 1]),
        Some(7),
        "before the memory"
    );
    let mut more_channels = GaloisRegister::new(4, &[], &[0, 1])?;
    assert_eq!(rt;
        refused_shift(&rt, &mut run, &mut more_channels, &mut [0; 2]),
        Some(7)
    );
    assert_eq!(rt;
        refused_shift(&rt, &mut run, &mut ring, &mut [0; 1]),
        Some(13)
    );
    let Err(back) = run.close() else {
        return Err(Fail::new("closed with a cycle left"));
    };
    assert_eq!(rt; back.refusal.number(), 15);
    let mut run = back.value;
    run.shift(&mut ring, 0, &mut words)?;
    assert_eq!(rt; words[0], ring.read());
    assert_eq!(rt; words[1], 0b1011);
    assert_eq!(rt;
        refused_shift(&rt, &mut run, &mut ring, &mut [0; 2]),
        Some(14)
    );
    assert_eq!(rt;
        refused_shift(&rt, &mut run, &mut ring, &mut [0; 1]),
        Some(13),
        "the memory goes before the cycles"
    );
    assert!(rt; run.close().is_ok());
    Ok(())
}

#[test]
fn unloading_from_the_top(rt: HostRuntime) -> Result<(), Fail> {
    let mut ring = ring_of_four()?;
    let frame = frame(2, 2);
    let loaded = replay(&mut ring, frame, b"0011", &mut [0; 2])?;
    let Err(back) = loaded.capture(&[0; 2], &[0; 1]) else {
        return Err(Fail::new("captured without marks"));
    };
    assert_eq!(rt; back.refusal.number(), 13);
    let mut captured = back
        .value
        .capture(&[1, 2, 3], &[0, 0])
        .map_err(Refusal::from)?;
    assert_eq!(rt; number(captured.unload(&[1], &[0, 0])), Some(13));
    assert_eq!(rt; number(captured.unload(&[1, 2], &[0])), Some(13));
    assert_eq!(rt;
        captured.unload(&[0b10001, 0b11111], &[0, 0b10100])?,
        (0b1011, 0b0100)
    );
    assert_eq!(rt;
        captured.unload(&[0b10001, 0b11111], &[0, 0b10100])?,
        (0b0001, 0)
    );
    assert_eq!(rt; number(captured.unload(&[1, 2], &[0, 0])), Some(14));
    assert_eq!(rt; number(captured.unload(&[1], &[0, 0])), Some(13));
    Ok(())
}

#[test]
fn unloading_256_positions(rt: HostRuntime) -> Result<(), Fail> {
    let mut ring = ring_of_four()?;
    let frame = frame(0, 256);
    let loaded = replay(&mut ring, frame, &[b'1'; 256], &mut [0; 256])?;
    let mut captured = loaded.capture(&[3; 256], &[1; 256]).map_err(Refusal::from)?;
    for _ in 0..256 {
        assert_eq!(rt; captured.unload(&[3; 256], &[1; 256])?, (2, 1));
    }
    assert_eq!(rt; number(captured.unload(&[3; 256], &[1; 256])), Some(14));
    Ok(())
}

#[test]
fn bits_in_memory(rt: HostRuntime) {
    let bit = CareBit {
        chain: 1,
        position: 1,
        value: true,
    };
    assert!(rt; bit.is_in(&[0, 2]));
    assert!(rt; !bit.is_in(&[2, 1]));
    assert!(rt; !bit.is_in(&[2]), "past the memory");
    let far = CareBit {
        chain: 64,
        position: 0,
        value: false,
    };
    assert!(rt; far.is_in(&[u64::MAX]), "past the word");
}
