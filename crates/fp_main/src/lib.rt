//! The call that a program makes: words and files go in, and what is written comes out.
#![tactic(auto)]

mod answer;
mod deliver;
mod laws;
mod lines;
mod load_files;
mod load_scenario;
mod load_source;
mod making;
mod running;
mod serving;
mod status;
mod topologies;
mod words;

pub use laws::worked_lines;
pub use load_files::{LoadFiles, SCENARIO, SOURCE};
pub use load_scenario::scenario_text;
pub use load_source::source_text;
pub use serving::serve;
pub use status::Status;
