//! The second core works on its script.

ghost use Rattle.std.specs.Prelude.{length};
ghost use Rattle.flash_ops.specs.Told.{fault_of};
ghost use Rattle.duo_run.specs.Paced.{TellsActs};
ghost use Rattle.duo_run.specs.Works.{CanWork, HasWorked};

use crate::actions::act;
use bus_hub::Duty;
use cache_gate::{Core, Ended, RestCore};
use core_script::Script;
use crash_images::Crash;
use flash_ops::{Pace, Point, StepNo};
use partition_table::Table;
use std::sync::Wait;

/// Does the actions of the script in order, and serves its gate after each. What the core refuses
/// is noted, and the script goes on; where the device refuses, the work is over. The pace is called
/// before and behind each action.
pub(crate) fn work<'w, R: Wait, D: Crash, K: Duty, P: Pace>(
    rt: &R,
    core: Core<'w, D, K>,
    script: &Script,
    table: &Table,
    pace: &P,
) -> (Core<'w, D, K>, Result<(), StepNo>)
    requires can { CanWork K.part K.grants K.moved table.now script.now core }
    ensures worked { HasWorked table.now script.now (fault_of result.1) core.entry result.0 }
    ensures told { TellsActs (P.told pace.now) (length script.now) result.1 }
{
    let mut core = core;
    for i in 0..script.len() {
        let k = i + 1;
        let action = script.action(i);
        pace.at(Point::WorkerAct(k));
        let (next, end) = act(rt, core, k, &action, table);
        core = next;
        pace.at(Point::WorkerActDone(k));
        if let Err(no) = end {
            return (core, Err(no));
        }
        core.serve_gate(rt);
    }
    (core, Ok(()))
}

/// The same from rest to rest.
pub(crate) fn run_worker<'w, R: Wait, D: Crash, K: Duty, P: Pace>(
    rt: &R,
    core: RestCore<'w, D, K>,
    script: &Script,
    table: &Table,
    pace: &P,
) -> (Ended<D, K>, Result<(), StepNo>)
    requires can { CanWork K.part K.grants K.moved table.now script.now core }
    ensures worked { HasWorked table.now script.now (fault_of result.1) core.entry result.0 }
    ensures told { TellsActs (P.told pace.now) (length script.now) result.1 }
{
    let (core, end) = work(rt, core.start(rt), script, table, pace);
    (core.rest(rt).ended(), end)
}
