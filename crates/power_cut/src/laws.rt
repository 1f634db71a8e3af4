//! What follows of every update.

ghost use Rattle.power_cut.specs.Behind.{AnnouncedBootHasTwoSteps};

/// Behind the data of an update, a boot of the entry that announces the new application has two
/// steps: the rewrite that lets the entry wait, and no other.
pub fn a_boot_of_an_announced_entry_has_two_steps()
    ensures steps { AnnouncedBootHasTwoSteps }
{}
