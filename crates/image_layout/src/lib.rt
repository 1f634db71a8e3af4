//! The app image of the ESP32: header, segment heads, description, footer, the address spaces of the cache, and what a
//! whole image is.
#![tactic(auto)]

mod checksum;
mod description;
mod fields;
mod footer;
mod header;
mod laws;
mod segment;
mod space;
#[cfg(test)]
mod tests;

pub use checksum::xor_bytes;
pub use description::AppDesc;
pub use footer::footer_end;
pub use header::Header;
pub use laws::{footers_are_least, head_has_its_bytes, headers_are_their_bytes};
pub use segment::SegmentHead;
pub use space::{Space, is_code, is_data};
