//! Why a loader stops.

ghost use Rattle.std.specs.Prelude.{◌≡◌};
ghost use Rattle.slip_loader.specs.Loads.{fault_by};

use nor_device::NorFault;

/// Why a loader stops.
#[derive(Clone, Copy, Debug, PartialEq, Eq)]
pub enum LoadNo {
    /// The device failed, and counted it.
    Device,
    /// The power is off.
    Cut,
}

/// How a call ends where the device refuses so.
pub(crate) fn load_no(why: NorFault) -> LoadNo
    ensures exact { result ≡ fault_by why }
{
    match why {
        NorFault::Failed => LoadNo::Device,
        NorFault::Off => LoadNo::Cut,
    }
}
