//! Sessions from end to end, octets in and octets out, as tests of the calls of the program. The crate has no code of its own.
//!
//! It rests on `bridge_calls` for the calls, on `edge_io` for ends that fail at planned calls, on `enc_worker` for gates, and on `demo_gen`
//! for a large session.
//! Right answers are spelled out here, or come from programs of others. It has no must-fail edits, since it has no contract that could
//! refuse one: those of the calls stand in `bridge_calls`, and of the steps below in their own crates.
#![tactic(auto)]

#[cfg(test)]
mod answers;
#[cfg(test)]
mod captures;
#[cfg(test)]
mod cuts;
#[cfg(test)]
mod ends;
#[cfg(test)]
mod failing_calls;
#[cfg(test)]
mod large_session;
#[cfg(test)]
mod long_sessions;
#[cfg(test)]
mod sessions;
#[cfg(test)]
mod workers;
