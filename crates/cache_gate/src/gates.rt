//! The words of both cores, opened and closed.

ghost use Rattle.std.specs.Prelude.{◌≡◌, [], None, Some, IfOk, IfErr};
ghost use Rattle.core_state.specs.Registers.{starting, reset, own_registers};
ghost use Rattle.bus_hub.specs.declared.did.Base.{Base};
ghost use Rattle.bus_hub.specs.Legal.{IsLegal};
ghost use Rattle.bus_hub.specs.Told.{IsSafe};
ghost use Rattle.cache_gate.specs.Own.{OnBase, IsFirst, RanBoth, base_of};

use crate::cores::{Ended, RestCore};
use bus_hub::{Bus, Duty};
use core_state::Records;
use crash_images::Crash;
use park_words::{NoWords, Words};
use std::alloc::Global;
use std::marker::Model;

/// The words of both cores, with the bus that goes with the turn.
#[must_use]
#[derive(Drop)]
pub struct Gates<D: Crash, K: Duty> {
    words: Words<Bus<D, K>>,
}

// Clauses see which words they are.
impl<D: Crash, K: Duty> Model for Gates<D, K> {
    ghost use Rattle.atomic_table.specs.Seated.{TableId, table_id_coded};

    ghost Value = { TableId };

    ghost coded = { table_id_coded };

    ghost view = { λ x. x.words };

    ghost invariant = { λ _. Unit {0} };
}

/// Shares the bus between two cores at rest, core 0 and core 1.
pub fn open<D: Crash, K: Duty>(
    alloc: Global,
    bus: Bus<D, K>,
) -> Result<(Gates<D, K>, Ended<D, K>, Ended<D, K>), NoWords<Bus<D, K>>>
    requires resting { (bus.left ≡ starting) × (bus.right ≡ starting) }
    requires idle { bus.running ≡ None }
    requires stands { ⟦<Bus<D, K> as Records>⟧.stands bus
        (base_of D.bytes D.off D.steps D.faults D.setting bus) [] [] }
    ensures left { IfOk result (λ r. IsFirst r.0 0
        (base_of D.bytes D.off D.steps D.faults D.setting bus) r.1) }
    ensures right { IfOk result (λ r. IsFirst r.0 1
        (base_of D.bytes D.off D.steps D.faults D.setting bus) r.2) }
    ensures err { IfErr result (λ e. e.value ≡ bus) }
{
    let (words, left, right) = Words::new(alloc, bus)?;
    Ok((Gates { words }, Ended { seat: left }, Ended { seat: right }))
}

impl<D: Crash, K: Duty> Gates<D, K> {
    /// The resting core of a core that ended, or that was opened.
    pub fn core(&self, ended: Ended<D, K>) -> RestCore<'_, D, K>
        requires { ended.table ≡ self.now }
        ensures { result ≡ ended }
    {
        RestCore {
            words: &self.words,
            seat: ended.seat,
        }
    }

    /// The bus, once both cores have ended.
    pub fn close(self, first: Ended<D, K>, second: Ended<D, K>) -> Bus<D, K>
        requires first { (first.table ≡ self) × (first.core ≡ 0) }
        requires second { (second.table ≡ self) × (second.core ≡ 1) }
        ensures idle { result.running ≡ None }
        ensures stands { OnBase first.base
            (λ b. ⟦<Bus<D, K> as Records>⟧.stands result b first.share second.share) }
        ensures registers { (own_registers result.left ≡ first.regs)
            × (own_registers result.right ≡ second.regs) }
        ensures run { RanBoth first second }
        ensures legal { OnBase first.base (λ _. IsLegal result.journal.entries) }
        ensures leaves { IsSafe ⟦<Bus<D, K> as Records>⟧.stands D.may_leave K.good result }
    {
        let bus = self.words.close(first.seat, second.seat);
        bus.legal();
        bus.safe();
        bus
    }
}
