// The static library: what C and Rust link. Each function passes numbers and byte slices to the crate that does the
// work. Where that can refuse, the answer is 0 or the refusal's number (or, of a message delivered and of a table
// chosen, a number from 100 on), and results go to what the caller lends.
#![tactic(auto)]

mod frames;
mod log_records;
mod messages;
mod notices;
mod sfi_tables;
mod sums;
mod ubios_tables;
