//! Sessions of many rooms at once, as tests of the call `rooms` over ends in memory. The crate has no code of its own.
//!
//! It rests on `rooms_run` for the call, on `room_pool` for outputs in memory, on `edge_io` for ends that fail at planned calls, and on
//! `enc_worker` for the gate that never waits. Right answers are spelled out here. It has no must-fail edits, since it has no contract that
//! could refuse one: those of the call stand in `rooms_run`.
#![tactic(auto)]

#[cfg(test)]
mod rows;
