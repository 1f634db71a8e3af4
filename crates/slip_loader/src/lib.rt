//! A loader that answers the requests of the serial protocol, however their stream is cut into pieces.
#![tactic(auto)]

mod answer;
mod fault;
mod frame;
mod laws;
mod loader;
mod plan;
mod planning;
mod request;
#[cfg(test)]
mod tests;
mod work;

pub use fault::LoadNo;
pub use laws::{laws_of_frames, laws_of_pieces, streams_are_the_same_in_any_pieces};
pub use loader::{Fed, Loader};
