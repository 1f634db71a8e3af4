//! The cache mask and the enabled interrupts of one core, in force and saved.
//!
//! While a flash operation runs the cache is off, so a core that fetched, or served an interrupt
//! whose handler lies in flash, would run garbage. Before it parks, or begins the operation, a core
//! saves both registers and clears them; afterwards it puts its own back.
ghost use Rattle.std.specs.Prelude.{◌≡◌, IsNone, IsSome};
ghost use Rattle.core_state.specs.Registers.{starting, saved_and_masked, restored, own_registers};

/// The registers of a core that decide what it may reach.
#[derive(Clone, Copy, Debug, PartialEq, Eq)]
pub struct Regs {
    /// Which spaces the cache serves: bit 0 the data space, bit 1 the code space.
    pub mask: u8,
    /// The enabled interrupt lines, one bit a line.
    pub irq: u32,
}

impl Regs {
    /// Nothing is served: the cache is off and no line is enabled.
    pub const MASKED: Regs = Regs { mask: 0, irq: 0 };
    /// What a core has at reset: both spaces and line 0.
    pub const RESET: Regs = Regs { mask: 3, irq: 1 };
}

/// The registers of a core that are in force, and those that it saved.
#[derive(Clone, Copy, Debug, PartialEq, Eq)]
pub struct Record {
    pub regs: Regs,
    pub saved: Option<Regs>,
}

impl Record {
    /// A core before its first start: the registers at reset are saved, and nothing is in force.
    pub fn starting() -> Record
        ensures { result ≡ starting }
    {
        Record {
            regs: Regs::MASKED,
            saved: Some(Regs::RESET),
        }
    }
}

/// Keeps the registers and clears those in force.
pub fn save_and_mask(r: &mut Record)
    requires { IsNone r.old.saved }
    ensures exact { r.new ≡ saved_and_masked r.old }
    ensures own { own_registers r.new ≡ own_registers r.old }
{
    r.saved = Some(r.regs);
    r.regs = Regs::MASKED;
}

/// Puts the saved registers back in force, and keeps none.
pub fn restore(r: &mut Record)
    requires { IsSome r.old.saved }
    ensures exact { r.new ≡ restored r.old }
    ensures own { own_registers r.new ≡ own_registers r.old }
    ensures in_force { r.new.regs ≡ own_registers r.old }
{
    if let Some(own) = r.saved {
        r.regs = own;
        r.saved = None;
    }
}
