//! A sum that both cores add to, read through its bound.
ghost use Rattle.std.specs.Prelude.{◌≡◌, ℕ, ◌+◌, ◌<◌, ◌^◌, [], ◌∷◌, sum, None, ⊤};
ghost use Rattle.core_state.specs.Registers.{starting};
ghost use Rattle.core_state.specs.Sharing.{GoesOn};

use crate::{Record, Records, Regs, restore, save_and_mask};

/// What core 0 and core 1 added up, from a first number on.
#[derive(Drop)]
struct Tally {
    total: u64,
}

impl Records for Tally {
    type Base = u64;

    type Did = u64;

    ghost records = { λ t c. starting };

    ghost runs = { λ t. None };

    ghost stands = { λ t b left right. t.total ≡ b + sum left + sum right };

    fn record(&self, _of: u8) -> Record {
        Record::starting()
    }

    fn running(&self) -> Option<u8> {
        None
    }
}

/// One core adds this much.
fn add(t: &mut Tally, _of: u8, amount: u64)
    requires core { _of < 2 }
    requires room { t.old.total + amount < 2 ^ 64 }
    ensures { GoesOn ⟦<Tally as Records>⟧.stands (λ b c items. ⊤) t.old t.new _of (amount ∷ []) }
{
    t.total += amount;
}

/// Whether a core has saved its registers, read through the bound.
fn has_saved<V: Records>(value: &V, core: u8) -> bool
    requires { core < 2 }
{
    value.record(core).saved.is_some()
}

#[test]
fn a_generic_reader_sees_the_records(rt: HostRuntime) {
    let mut tally = Tally { total: 0 };
    add(&mut tally, 1, 5);
    assert!(rt; has_saved(&tally, 1));
    assert!(rt; tally.running().is_none());
}

#[test]
fn a_core_gets_its_own_registers_back(rt: HostRuntime) {
    let mut r = Record::starting();
    restore(&mut r);
    assert_eq!(rt; r.regs, Regs { mask: 3, irq: 1 });
    r.regs = Regs { mask: 2, irq: 5 };
    save_and_mask(&mut r);
    assert_eq!(rt; r.regs, Regs { mask: 0, irq: 0 });
    restore(&mut r);
    assert_eq!(rt; r.regs, Regs { mask: 2, irq: 5 });
}
