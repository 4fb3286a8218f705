//! What a train that asks is shown: how far it may run, what stands beyond, and the speeds and gradients up to there.
#![tactic(auto)]

mod parts;
mod sameness;
mod search;
mod views;

pub use parts::ViewParts;
pub use rbc_scene::Scene;
pub use search::view;
pub use views::View;
