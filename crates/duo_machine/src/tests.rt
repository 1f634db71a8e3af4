//! The worked rows, and a walk at random that meets each event with its guard and without it.
ghost use Rattle.std.specs.Prelude.{IsTrue};
ghost use Rattle.duo_machine.specs.Runs.{AreOfTwoCores};

use crate::{Event, Gate, Kind, Machine, Phase, first, run, step};
use core_state::{Record, Regs};
use image_layout::Space;
use std::test::Fail;

/// Both cores start, core 0 parks core 1 for one step, and both go on.
const HAND_OVER: [(u8, Kind); 17] = [
    (0, Kind::Start),
    (1, Kind::Start),
    (0, Kind::Back),
    (1, Kind::Back),
    (0, Kind::Take),
    (0, Kind::Save),
    (0, Kind::Ask),
    (1, Kind::Save),
    (1, Kind::Park),
    (0, Kind::See),
    (0, Kind::Begin),
    (0, Kind::Done),
    (0, Kind::End),
    (1, Kind::Leave),
    (1, Kind::Back),
    (0, Kind::Back),
    (0, Kind::Give),
];

/// Core 0 holds core 1 at rest, and core 1 wants to start.
const HELD_AT_REST: [(u8, Kind); 4] = [
    (0, Kind::Start),
    (0, Kind::Take),
    (0, Kind::Hold),
    (1, Kind::Start),
];

/// Both cores run with the registers that they had at reset.
const BOTH_RUN: Machine = Machine {
    lock: 0,
    gates: [Gate::Run; 2],
    phases: [Phase::Running; 2],
    records: [Record {
        regs: Regs { mask: 3, irq: 1 },
        saved: None,
    }; 2],
    running: None,
};

/// Core 0 has the lock and holds core 1 at rest; both are as masked as they were.
const ONE_HELD: Machine = Machine {
    lock: 1,
    gates: [Gate::Run, Gate::Held],
    phases: [Phase::Quiet, Phase::Resting],
    records: [Record {
        regs: Regs { mask: 0, irq: 0 },
        saved: Some(Regs { mask: 3, irq: 1 }),
    }; 2],
    running: None,
};

/// Each kind once, with a mask and a space that some machines refuse.
const KINDS: [Kind; 16] = [
    Kind::Start,
    Kind::Rest,
    Kind::Take,
    Kind::Give,
    Kind::Save,
    Kind::Back,
    Kind::Hold,
    Kind::Ask,
    Kind::Park,
    Kind::See,
    Kind::Begin,
    Kind::Done,
    Kind::End,
    Kind::Leave,
    Kind::Set(Regs { mask: 2, irq: 5 }),
    Kind::Fetch(Space::Code),
];

/// Whether each event is of core 0 or core 1.
fn are_of_two_cores(events: &[Event]) -> bool
    ensures { IsTrue result → AreOfTwoCores events.now }
{
    match events {
        [] => true,
        [e, rest @ ..] => e.core < 2 && are_of_two_cores(rest),
    }
}

#[test]
fn rows(rt: HostRuntime) -> Result<(), Fail> {
    let fetch = Event {
        core: 1,
        kind: Kind::Fetch(Space::Data),
    };
    for (name, list, fetch_after, want) in [
        (
            "a whole hand-over",
            HAND_OVER.as_slice(),
            None,
            Some(BOTH_RUN),
        ),
        (
            "a fetch while core 0 asks",
            &HAND_OVER,
            Some(7),
            Some(BOTH_RUN),
        ),
        ("a fetch of a masked core", &HAND_OVER, Some(8), None),
        ("a fetch while a step runs", &HAND_OVER, Some(11), None),
        (
            "core 1 is held at rest",
            &HELD_AT_REST[..3],
            None,
            Some(ONE_HELD),
        ),
        ("a start over the held gate", &HELD_AT_REST, None, None),
    ] {
        let mut events = Vec::new(rt.alloc());
        for (i, &(core, kind)) in list.iter().enumerate() {
            if fetch_after == Some(i) {
                events.push(fetch)?;
            }
            events.push(Event { core, kind })?;
        }
        assert!(rt; are_of_two_cores(&events), "{name}");
        assert_eq!(rt; run(&first(), &events), want, "{name}");
    }
    Ok(())
}

#[test]
fn each_kind_is_met_with_its_guard_and_without(rt: HostRuntime) {
    let mut machine = first();
    let mut made = [0u32; 16];
    let mut refused = [0u32; 16];
    let mut random = 1u64;
    for _ in 0..8000 {
        random = random
            .wrapping_mul(6364136223846793005)
            .wrapping_add(1442695040888963407);
        let kind = (random >> 40) as usize % 16;
        let core = ((random >> 50) % 2) as u8;
        match step(
            &machine,
            &Event {
                core,
                kind: KINDS[kind],
            },
        ) {
            Some(next) => {
                machine = next;
                made[kind] = made[kind].wrapping_add(1);
            }
            None => refused[kind] = refused[kind].wrapping_add(1),
        }
    }
    for kind in 0..16 {
        assert!(rt;
            made[kind] > 0 && refused[kind] > 0,
            "made {made:?}, refused {refused:?}"
        );
    }
}
