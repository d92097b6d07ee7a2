//! What tests of several crates share: four known frames, the definition of a frame by a slow
//! function, every cut and damaged stream of these frames, and a check of the texts of faults.
#![tactic(auto)]

mod damage;
mod frames;
mod texts;

pub use damage::agrees_on_each;
pub use frames::{FOUR_FRAMES, PLACES, SIZE, claimed, four_frames, is_frame};
pub use texts::have_texts;
