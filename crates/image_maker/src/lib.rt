//! The maker of application images: the text of a plan, and the image that a plan and its parts
//! make.
#![tactic(auto)]

mod check;
mod draft;
mod image;
mod laws;
mod part;
mod place;
mod plan;
mod refusal;
#[cfg(test)]
mod tests;

pub use image::make;
pub use laws::{made_images_are_whole, memory_is_no_refusal, plans_are_their_lines};
pub use plan::Plan;
pub use refusal::{MakeNo, PlanNo, PlanWhy};
