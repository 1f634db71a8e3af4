//! What whole images, faults and slots are, over all bytes.

ghost use Rattle.std.specs.Prelude.{◌≡◌, ◌↔◌, ◌++◌, ℕ, List, None, Some, length, take};
ghost use Rattle.image_layout.specs.Whole.{Whole};
ghost use Rattle.image_verify.specs.declared.bad.BadImage.{BadImage};
ghost use Rattle.image_verify.specs.Bad.{early, bad};
ghost use Rattle.image_verify.specs.Held.{held, IsHeld};

/// Bytes show no fault exactly where they are a whole image.
pub fn whole_images_show_no_fault()
    ensures { (limit : ℕ) (bytes : List ℕ) → (bad limit bytes ≡ None ↔ Whole bytes limit) }
{}

/// At most one whole image begins any bytes, whatever the limits.
pub fn one_whole_image_begins_any_bytes()
    ensures { (first second more others : List ℕ) (limit other_limit : ℕ) → Whole first limit
        → Whole second other_limit → first ++ more ≡ second ++ others → first ≡ second }
{}

/// A fault that showed as the bytes came stays the first one, whatever bytes follow.
pub fn faults_stay()
    ensures early { (limit : ℕ) (bytes more : List ℕ) (why : BadImage)
        → early limit bytes ≡ Some why → early limit (bytes ++ more) ≡ Some why }
    ensures bad { (limit : ℕ) (bytes more : List ℕ) (why : BadImage)
        → early limit bytes ≡ Some why → bad limit (bytes ++ more) ≡ Some why }
{}

/// A slot holds an image exactly where its bytes begin with it and it is whole within the slot.
pub fn slots_hold_what_they_begin_with()
    ensures { (slot image : List ℕ) → (held slot ≡ Some image ↔ IsHeld slot image) }
{}
