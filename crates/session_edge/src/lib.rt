//! What every program over sessions has in common: the lines that it tells, and what a roster is that it is given.
//!
//! Rests on `program_edge` for lines that are made in place, on `roster_text` and `rtp_dump` for the kinds of faults, on
//! `session_spec` for the summary, and on `edge_io` for what a shelf holds. It promises the octets of each line, exactly.
#![tactic(auto)]

mod lines;

pub use lines::{
    MAX_ROSTER_LEN, dump_fault_line, memory_line, read_failed_line, roster_fault_line,
    roster_long_line, summary_text, write_failed_line,
};
