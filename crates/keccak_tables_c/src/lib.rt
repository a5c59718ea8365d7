// What a host links: the calls of `keccak_tables` by C linkage, under their names and with their clauses. A library exports
// nothing to C, and no crate can stand on a static library, so the calls are there and these pass them on. Made by `.ci/exports write`.
#![tactic(auto)]

pub mod core_calls;
pub mod counters;
pub mod evaluators;
pub mod job_calls;
pub mod judge_calls;
pub mod key_rows;
pub mod lookup_calls;
pub mod lookups;
pub mod message_calls;
pub mod month_calls;
pub mod register_calls;
pub mod round_calls;
pub mod same_calls;
pub mod segment_calls;
pub mod state_calls;
pub mod tally_calls;
