//! Both cores in two threads.

ghost use Rattle.std.specs.Prelude.{◌≡◌, ◌<◌, IfOk, IsOk, Ok, length};
ghost use Rattle.partition_table.specs.Layout.{Places, layout_of};
ghost use Rattle.duo_run.specs.Paced.{IsToldLeg, session_ops};
ghost use Rattle.duo_run.specs.Legs.{IsDuoConfirm, IsDuoSession, MayAffirm, MayInstall};

use crate::both::{Beside, leg};
use crate::job::Job;
use boot_run::{Aim, Booted};
use bus_hub::Memory;
use core_script::Script;
use crash_images::CutNor;
use flash_ops::Pace;
use nor_device::RamNor;
use partition_table::{Layout, Table};
use power_cut::Ran;
use rollback::Rewrite;
use std::alloc::Global;
use std::sync::Wait;
use std::thread::Threads;

/// Two cores: core `driver`, 0 or 1, drives an update, and the other one works on the script
/// meanwhile. The pace is called at the points that it names.
#[derive(Drop)]
pub struct Duo<'a, P: Pace> {
    pub table: &'a Table,
    pub script: &'a Script,
    pub driver: u8,
    pub pace: &'a P,
}

/// The layout by a table that has one.
fn layout_of(table: &Table) -> Layout
    requires { IsOk (layout_of table.now) }
    ensures { layout_of table.now ≡ Ok result }
{
    match table.layout() {
        Ok(layout) => layout,
        Err(_) => unreachable!(),
    }
}

impl<'a, P: Pace + Sync> Duo<'a, P> {
    /// What the core beside the driver works on.
    fn beside(&self) -> Beside<'a, P>
        ensures table { result.table.now ≡ self.now.table.now }
        ensures script { result.script.now ≡ self.now.script.now }
        ensures pace { result.pace.now ≡ self.now.pace.now }
    {
        Beside {
            script: self.script,
            table: self.table,
            pace: self.pace,
        }
    }

    /// A session on this device: the image is installed by its aim. All memory is taken before the
    /// first step.
    pub fn session<R: Threads + Wait + Sync>(
        &self,
        rt: &R,
        alloc: Global,
        dev: CutNor<RamNor>,
        aim: &Aim,
        image: &[u8],
    ) -> Result<Ran, Memory>
        requires core { self.now.driver < 2 }
        requires layout { (layout : Places) × (layout_of self.now.table.now ≡ Ok layout)
            × MayInstall self.now.table.now layout aim.now image.now dev }
        ensures leg { IfOk result (λ ran. (layout : Places)
            → layout_of self.now.table.now ≡ Ok layout
            → IsDuoSession self.now.table.now self.now.script.now self.now.driver layout aim.now
            image.now dev ran) }
        ensures told { IfOk result (λ ran. (layout : Places)
            → layout_of self.now.table.now ≡ Ok layout
            → IsToldLeg (P.told self.now.pace.now) (session_ops layout aim.now image.now)
            (length self.now.script.now) ran) }
    {
        let layout = layout_of(self.table);
        let row = layout.place(aim.running);
        let job = Job::Install { aim, image };
        leg(
            rt,
            alloc,
            dev,
            self.driver,
            &layout,
            &job,
            row.offset,
            &aim.info,
            &self.beside(),
        )
    }

    /// A confirmation of what was booted, by this rewrite of its entry. All memory is taken before the
    /// first step.
    pub fn confirm<R: Threads + Wait + Sync>(
        &self,
        rt: &R,
        alloc: Global,
        dev: CutNor<RamNor>,
        at: &Booted,
        write: &Rewrite,
    ) -> Result<Ran, Memory>
        requires core { self.now.driver < 2 }
        requires layout { (layout : Places) × (layout_of self.now.table.now ≡ Ok layout)
            × MayAffirm self.now.table.now layout at.now write.now dev }
        ensures leg { IfOk result (λ ran. (layout : Places)
            → layout_of self.now.table.now ≡ Ok layout
            → IsDuoConfirm self.now.table.now self.now.script.now self.now.driver layout at.now
            write.now dev ran) }
        ensures told { IfOk result
            (IsToldLeg (P.told self.now.pace.now) 2 (length self.now.script.now)) }
    {
        let layout = layout_of(self.table);
        let row = layout.place(at.app);
        let job = Job::Confirm { write };
        leg(
            rt,
            alloc,
            dev,
            self.driver,
            &layout,
            &job,
            row.offset,
            &at.info,
            &self.beside(),
        )
    }
}
