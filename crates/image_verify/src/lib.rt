//! Application images, verified as they come: piece by piece, without keeping them and without taking memory.
#![tactic(auto)]

mod bad;
mod faults;
mod feed;
mod finish;
mod info;
mod keep;
mod laws;
mod reader;
mod seen;
mod slot;
#[cfg(test)]
mod tests;
mod verifier;

pub use bad::BadImage;
pub use feed::Fed;
pub use info::{ImageInfo, SegmentNote};
pub use laws::{
    faults_stay, one_whole_image_begins_any_bytes, slots_hold_what_they_begin_with,
    whole_images_show_no_fault,
};
pub use slot::verify_slot;
pub use verifier::Verifier;
