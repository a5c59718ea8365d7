// What a Rust prover links: the calls on the tables and on operation files by C linkage, on numbers and slices of words
// or bytes. A slice is a pointer, then a length. An enum can't pass, so each answer is a flat struct, returned by
// value. The archive is made of `keccak_tables_c`, which passes these calls on.
#![tactic(auto)]

pub mod core_calls;
pub mod counters;
pub mod evaluators;
pub mod job_calls;
pub mod judge_calls;
pub mod key_rows;
pub mod lookup_calls;
pub mod lookups;
pub mod message_calls;
pub mod month_calls;
pub mod register_calls;
pub mod round_calls;
pub mod same_calls;
pub mod segment_calls;
pub mod state_calls;
pub mod tally_calls;
