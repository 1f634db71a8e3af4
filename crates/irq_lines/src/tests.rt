//! Rows of steps on one thread, and two threads.
ghost use Rattle.std.specs.Prelude.{◌≡◌, ◌+◌, ◌<◌, ◌≤◌};
ghost use Rattle.irq_lines.specs.Told.{MadeAtMost};

use crate::{Closed, IrqSeat, Lines, deliverable};
use core_state::{Record, Regs};
use std::alloc::Global;
use std::thread::{Threads, join};

/// One raise more, of a seat that made so many.
fn raise_more(lines: &Lines, seat: &mut IrqSeat, core: u8, line: u8, so_far: u32) -> bool
    requires table { seat.old.table ≡ lines.now }
    requires core { core < 2 }
    requires line { line < 32 }
    requires few { so_far < 1000000 }
    requires made { MadeAtMost so_far seat.old.view }
    ensures table { seat.new.table ≡ lines.now }
    ensures made { MadeAtMost (so_far + 1) seat.new.view }
{
    lines.raise(seat, core, line)
}

/// What both cores answered, and what was left.
fn on_one_thread(alloc: Global) -> Option<((bool, bool, bool), (u32, u32, u32), Closed)> {
    let Ok((lines, mut zero, mut one)) = Lines::new(alloc) else {
        return None;
    };
    let first = raise_more(&lines, &mut zero, 1, 3, 0);
    let again = raise_more(&lines, &mut one, 1, 3, 0);
    let own = raise_more(&lines, &mut zero, 0, 31, 1);
    let other_core = lines.serve(&mut zero, 8);
    let outside = lines.serve(&mut one, 7);
    let within = lines.serve(&mut one, 15);
    let closed = lines.close(zero, one, [1, 1]);
    Some(((first, again, own), (other_core, outside, within), closed))
}

#[test]
fn each_line_is_counted(rt: HostRuntime) {
    let Some((answers, found, closed)) = on_one_thread(rt.alloc()) else {
        panic!(rt; "opened");
    };
    assert_eq!(rt; answers, (true, false, true), "raised");
    assert_eq!(rt; found, (0, 0, 8), "served");
    let Closed {
        pending,
        made,
        raised,
        served,
    } = closed;
    assert_eq!(rt; pending, [0x8000_0000, 0], "pending");
    for (core, line, want) in [(1, 3, [2, 1, 1]), (0, 31, [1, 1, 0]), (0, 3, [0, 0, 0])] {
        let has = [made[core][line], raised[core][line], served[core][line]];
        assert_eq!(rt; has, want, "of core {core} and line {line}");
    }
}

/// Line 5 of core 1 is raised so many times.
fn raise_often(lines: &Lines, mut seat: IrqSeat, times: u32) -> IrqSeat
    requires table { seat.table ≡ lines.now }
    requires made { MadeAtMost 0 seat.view }
    requires few { times ≤ 1000000 }
    ensures { result.table ≡ lines.now }
{
    for i in 0..times {
        raise_more(lines, &mut seat, 1, 5, i);
    }
    seat
}

/// All lines of its core are served so many times.
fn serve_often(lines: &Lines, mut seat: IrqSeat, times: u32) -> IrqSeat
    requires { seat.table ≡ lines.now }
    ensures { result.table ≡ lines.now }
{
    for _ in 0..times {
        lines.serve(&mut seat, 0xFFFF_FFFF);
    }
    seat
}

/// One core raises and the other one serves.
fn on_two_threads<R: Threads + Sync>(rt: &R, alloc: Global, times: u32) -> Option<Closed>
    requires { times ≤ 1000000 }
{
    let Ok((lines, zero, one)) = Lines::new(alloc) else {
        return None;
    };
    let shared = &lines;
    let (zero, one) = join(
        rt,
        move || -> IrqSeat
            requires { (zero.table ≡ shared.now) × MadeAtMost 0 zero.view × (times ≤ 1000000) }
            ensures { result.table ≡ shared.entry.now }
        { raise_often(shared, zero, times) },
        move || -> IrqSeat
            requires { (one.table ≡ shared.now) }
            ensures { result.table ≡ shared.entry.now }
        { serve_often(shared, one, times) },
    );
    Some(lines.close(zero, one, [0, 0xFFFF_FFFF]))
}

#[test]
fn one_thread_raises_and_one_serves(rt: HostRuntime) {
    let Some(closed) = on_two_threads(&rt, rt.alloc(), 20_000) else {
        panic!(rt; "opened");
    };
    let Closed {
        pending,
        made,
        raised,
        served,
    } = closed;
    assert_eq!(rt; pending, [0, 0], "nothing left");
    assert_eq!(rt; made[1][5], 20_000, "raised so often");
    assert!(rt; raised[1][5] >= 1, "once it was clear");
    assert_eq!(rt; raised[1][5], served[1][5], "each was served");
}

#[test]
fn a_masked_core_serves_safe_lines_alone(rt: HostRuntime) {
    let own = Regs {
        mask: 3,
        irq: 0b0110,
    };
    let running = Record {
        regs: own,
        saved: None,
    };
    let parked = Record {
        regs: Regs::MASKED,
        saved: Some(own),
    };
    assert_eq!(rt; deliverable(&running, 0b1010), 0b0110);
    assert_eq!(rt; deliverable(&parked, 0b1010), 0b0010);
}
