//! The legs of an update: how far it is to go, and how each leg ended.

ghost use Rattle.std.specs.Prelude.{◌≡◌};
ghost use Rattle.power_cut.specs.Whole.{is_done, wants_boot, wants_confirm};

use bus_hub::Journal;
use crash_images::CutNor;
use image_verify::BadImage;
use nor_device::RamNor;

/// How far an update goes.
#[derive(Clone, Copy, Debug, PartialEq, Eq)]
pub enum Upto {
    /// The new application is written and announced.
    Session,
    /// It is booted once.
    Boot,
    /// It confirms itself.
    Confirm,
}

impl Upto {
    /// Whether a boot is to follow the session.
    pub(crate) fn wants_boot(self) -> bool
        ensures exact { result ≡ wants_boot self }
    {
        match self {
            Upto::Session => false,
            Upto::Boot | Upto::Confirm => true,
        }
    }

    /// Whether a confirmation is to follow the boot.
    pub(crate) fn wants_confirm(self) -> bool
        ensures exact { result ≡ wants_confirm self }
    {
        match self {
            Upto::Session | Upto::Boot => false,
            Upto::Confirm => true,
        }
    }
}

/// How a leg ended.
#[derive(Clone, Copy, Debug, Default, PartialEq, Eq)]
pub enum LegEnd {
    /// It was made whole.
    #[default]
    Done,
    /// The device failed in the step of this number.
    Device { step: u64 },
    /// The power went off in the step of this number.
    Cut { step: u64 },
    /// The first byte of the image is not that of an application.
    FirstByte { byte: u8 },
    /// The image has no byte.
    Empty,
    /// The bytes are no whole image within the slot: their first fault.
    Bad(BadImage),
}

impl LegEnd {
    /// Whether the leg was made whole.
    pub fn is_done(self) -> bool
        ensures exact { result ≡ is_done self }
    {
        match self {
            LegEnd::Done => true,
            LegEnd::Device { step: _ }
            | LegEnd::Cut { step: _ }
            | LegEnd::FirstByte { byte: _ }
            | LegEnd::Empty
            | LegEnd::Bad(_) => false,
        }
    }
}

/// One leg: the steps that were begun in it, and its end.
#[derive(Clone, Copy, Debug, Default, PartialEq, Eq)]
pub struct Leg {
    pub steps: u64,
    pub end: LegEnd,
}

/// What a leg of two cores leaves: the device, the journal, and the leg.
#[derive(Drop)]
pub struct Ran {
    pub dev: CutNor<RamNor>,
    pub journal: Journal,
    pub leg: Leg,
}
