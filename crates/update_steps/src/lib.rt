//! An update: its steps, and what a loss of power leaves of them.
#![tactic(auto)]

mod laws;

pub use laws::{
    aimed_updates_open, data_steps_fill_their_slot, lost_updates_boot_old_or_new,
    open_partitions_are_apart, rewrites_stand_beside_another_core, steps_stand_beside_another_core,
    tables_open_updates, updates_are_their_steps, updates_stand_beside_another_core,
};
