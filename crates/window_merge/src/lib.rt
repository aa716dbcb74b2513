//! Windows: the six lanes run ahead of each other, and are kept as far as they all would go the same together.
#![tactic(auto)]

pub mod accepting;
pub mod alone;
mod compare;
pub mod copies;
pub mod crew;
pub mod here;
mod inward;
pub mod jobs;
pub mod lane_job;
pub mod lane_run;
pub mod laws;
pub mod merge;
mod notes;
mod pass;
mod patch;
pub mod position;
mod questions;
pub mod quiet;
pub mod reports;
pub mod runs;
mod start;
mod walk;

pub use accepting::{Stranger, accept};
pub use alone::advance_alone;
pub use copies::Copies;
pub use here::window;
pub use jobs::{back, job, run_job};
pub use lane_job::{Crew, LaneJob, LaneReport};
pub use lane_run::{LaneRun, LaneSet};
pub use merge::merge_runs;
pub use notes::Notes;
pub use position::{Moved, advance};
pub use quiet::pass_windows;
pub use runs::{Rests, Runs};
