//! What the share of the second core says of steps and registers.

ghost use Rattle.std.specs.Prelude.{◌≡◌, ℕ, List, Ok, Err};
ghost use Rattle.std.specs.List.{AllByRecursion};
ghost use Rattle.core_state.specs.declared.registers.Regs.{Regs};
ghost use Rattle.nor_device.specs.declared.nor.NorFault.{NorFault};
ghost use Rattle.partition_table.specs.declared.row.Row.{Row};
ghost use Rattle.partition_table.specs.Rules.{FitsFlash};
ghost use Rattle.flash_steps.specs.Parts.{LiesInOpenPart};
ghost use Rattle.core_script.specs.declared.action.Action.{Action};
ghost use Rattle.bus_hub.specs.declared.did.Did.{Did};
ghost use Rattle.bus_hub.specs.Shares.{made};
ghost use Rattle.duo_run.specs.Worker.{IsFirstPart, WorkerShare, regs_at, regs_by, worker_steps};

/// A share that the device did not end made the steps of the script (`made`), and one that it ended
/// a first part of them (`stopped`). Behind a whole script the registers are those of its actions
/// (`registers`). The steps of every script lie in partitions that may be changed (`inside`).
pub fn laws_of_workers()
    ensures made { (rows : List Row) (regs : Regs) (script : List Action) (share : List Did)
        → WorkerShare rows regs script (Ok tt) share → made share ≡ worker_steps rows script }
    ensures stopped { (rows : List Row) (regs : Regs) (script : List Action) (why : NorFault)
        (share : List Did) → WorkerShare rows regs script (Err why) share
        → IsFirstPart (made share) (worker_steps rows script) }
    ensures registers { (rows : List Row) (regs : Regs) (script : List Action) (share : List Did)
        → WorkerShare rows regs script (Ok tt) share → regs_by regs share ≡ regs_at regs script }
    ensures inside { (flash : ℕ) (rows : List Row) (script : List Action) → FitsFlash flash rows
        → AllByRecursion (LiesInOpenPart rows) (worker_steps rows script) }
{}
