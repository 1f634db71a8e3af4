//! The states of an entry that have a name (ESP-IDF, `esp_ota_img_states_t`). Every other number is
//! a state too.

ghost use Rattle.std.specs.Prelude.{◌≡◌};

/// The application was written and has not been started.
pub const NEW: u32 = 0;

/// The application was started and has not confirmed itself.
pub const PENDING_VERIFY: u32 = 1;

/// The application has confirmed itself.
pub const VALID: u32 = 2;

/// The application has rejected itself.
pub const INVALID: u32 = 3;

/// The application did not confirm itself before the next start.
pub const ABORTED: u32 = 4;

/// What an erased sector reads as.
pub const UNDEFINED: u32 = 0xFFFF_FFFF;

/// The numbers of the states.
pub fn states_are_numbered()
    ensures new { NEW ≡ 0 }
    ensures pending_verify { PENDING_VERIFY ≡ 1 }
    ensures valid { VALID ≡ 2 }
    ensures invalid { INVALID ≡ 3 }
    ensures aborted { ABORTED ≡ 4 }
    ensures undefined { UNDEFINED ≡ 0xFFFF_FFFF }
{}
