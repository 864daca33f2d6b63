// How the answers of the crates, and what is kept between two calls, cross to C as numbers. What is exported stands on this:
// `hoursquall_c` and `hoursquall_replay`.
#![tactic(auto)]

pub mod answer;
pub mod frames;
pub mod messages;
pub mod notices;
pub mod sfi_tables;
pub mod state;
