// Registers and layers at the limits of their rules.
use crate::common::number;
use layers::PhaseShifter;
use machine::Machine;
use registers::{GaloisRegister, Link, RingGenerator};
use std::array;
use std::process::Abort;
use std::test::Fail;

fn link(from: usize, to: usize) -> Link {
    Link { from, to }
}

#[test]
fn sizes_from_2_to_64(rt: HostRuntime) {
    assert_eq!(rt; number(GaloisRegister::new(1, &[], &[0])), Some(7));
    assert_eq!(rt; number(GaloisRegister::new(2, &[1], &[1])), None);
    assert_eq!(rt; number(GaloisRegister::new(64, &[63], &[63])), None);
    assert_eq!(rt; number(GaloisRegister::new(65, &[], &[0])), Some(7));
    assert_eq!(rt; number(RingGenerator::new(1, &[], &[0])), Some(7));
    assert_eq!(rt; number(RingGenerator::new(2, &[link(0, 0)], &[1])), None);
    assert_eq!(rt;
        number(RingGenerator::new(64, &[link(63, 63)], &[63])),
        None
    );
    assert_eq!(rt; number(RingGenerator::new(65, &[], &[0])), Some(7));
}

#[test]
fn taps_from_1_to_the_last_cell(rt: HostRuntime) {
    assert_eq!(rt; number(GaloisRegister::new(4, &[0], &[0])), Some(7));
    assert_eq!(rt; number(GaloisRegister::new(4, &[1, 2, 3], &[0])), None);
    assert_eq!(rt; number(GaloisRegister::new(4, &[4], &[0])), Some(7));
    assert_eq!(rt; number(GaloisRegister::new(4, &[2, 2], &[0])), Some(8));
    assert_eq!(rt;
        number(GaloisRegister::new(4, &[2, 2, 4], &[0])),
        Some(8),
        "the first fault counts"
    );
}

#[test]
fn no_link_to_the_next_cell(rt: HostRuntime) {
    assert_eq!(rt; number(RingGenerator::new(4, &[link(1, 2)], &[0])), Some(7));
    assert_eq!(rt;
        number(RingGenerator::new(4, &[link(3, 0)], &[0])),
        Some(7),
        "the next cell of the last is cell 0"
    );
    assert_eq!(rt;
        number(RingGenerator::new(4, &[link(2, 2)], &[0])),
        None,
        "from a cell to itself"
    );
    assert_eq!(rt; number(RingGenerator::new(4, &[link(4, 0)], &[0])), Some(7));
    assert_eq!(rt; number(RingGenerator::new(4, &[link(0, 4)], &[0])), Some(7));
    assert_eq!(rt;
        number(RingGenerator::new(4, &[link(0, 3), link(3, 1), link(0, 3)], &[0])),
        Some(8)
    );
    assert_eq!(rt;
        number(RingGenerator::new(4, &[link(0, 3), link(0, 3), link(0, 1)], &[])),
        Some(8),
        "the first fault counts"
    );
}

#[test]
fn at_most_16_links(rt: HostRuntime) {
    // Links from cell 0 to the cells from 2 on.
    let mut links: [Link; 17] = array::from_fn(|k| link(0, k.saturating_add(2)));
    assert_eq!(rt; number(RingGenerator::new(64, &links[0..16], &[0])), None);
    assert_eq!(rt;
        number(RingGenerator::new(64, &links[0..17], &[0])),
        Some(9)
    );
    links[16].to = 2;
    assert_eq!(rt;
        number(RingGenerator::new(64, &links[0..17], &[0])),
        Some(8),
        "a 17th link that is given again"
    );
    links[16].to = 1;
    assert_eq!(rt;
        number(RingGenerator::new(64, &links[0..17], &[0])),
        Some(7),
        "a 17th link to the next cell"
    );
}

#[test]
fn from_1_to_64_channels(rt: HostRuntime) {
    let cells = [1; 65];
    assert_eq!(rt; number(GaloisRegister::new(2, &[], &[])), Some(7));
    assert_eq!(rt; number(GaloisRegister::new(2, &[], &cells[0..1])), None);
    assert_eq!(rt; number(GaloisRegister::new(2, &[], &cells[0..64])), None);
    assert_eq!(rt; number(GaloisRegister::new(2, &[], &cells[0..65])), Some(7));
    assert_eq!(rt; number(RingGenerator::new(2, &[], &[])), Some(7));
    assert_eq!(rt; number(RingGenerator::new(2, &[], &cells[0..64])), None);
    assert_eq!(rt; number(RingGenerator::new(2, &[], &cells[0..65])), Some(7));
    assert_eq!(rt; number(RingGenerator::new(2, &[], &[2])), Some(7));
}

// The number of a shifter's refusal, if it is refused, after a look at the machine that is handed back: its cells are as they were.
fn shifter(rt: &impl Abort, sets: &[u64]) -> Result<Option<u8>, Fail> {
    let mut below = GaloisRegister::new(4, &[1], &[0])?;
    below.shift(1);
    match PhaseShifter::new(below, sets) {
        Ok(pile) => {
            assert_eq!(rt; pile.outlets(), sets.len());
            assert_eq!(rt; pile.read(), 0, "outlet 63 is missing below");
            Ok(None)
        }
        Err(back) => {
            assert_eq!(rt; back.value.read(), 1);
            Ok(Some(back.refusal.number()))
        }
    }
}

#[test]
fn from_1_to_64_outlets_each_with_a_set(rt: HostRuntime) -> Result<(), Fail> {
    let sets = [1 << 63; 65];
    assert_eq!(rt; shifter(&rt, &[])?, Some(7));
    assert_eq!(rt; shifter(&rt, &sets[0..1])?, None);
    assert_eq!(rt; shifter(&rt, &sets[0..64])?, None);
    assert_eq!(rt; shifter(&rt, &sets[0..65])?, Some(7));
    assert_eq!(rt; shifter(&rt, &[1, 0, 1])?, Some(7), "an empty set");
    Ok(())
}
