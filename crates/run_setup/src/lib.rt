//! What the words of the program ask for, and what a run is set up from: the text of its script, and the frames of its
//! cache.
#![tactic(auto)]

mod asked;
mod frames;
mod make_settings;
mod number;
mod script_text;
mod settings;

pub use asked::{Asked, asked_of, asks_threads};
pub use frames::make_frames;
pub use make_settings::MakeSettings;
pub use script_text::read_script;
pub use settings::RunSettings;
