//! A list of calls, played on a new sheet: what is promised of histories stands in its contract.
#![tactic(auto)]

pub mod answer;
pub mod playing;
pub mod serving;

pub use answer::{Answer, Reply, Stopped};
pub use playing::play;
