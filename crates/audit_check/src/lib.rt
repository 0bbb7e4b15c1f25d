//! What the program `audit` does, as a call over any ends: it says whether octets are the answer of a session.
//!
//! Rests on `desk_run` with a roster's desk and a Book for the session, whose packets are compared one by one as they are handed
//! out, on `edge_io` for the ends, on `roster_text` for rosters, and on `program_edge` for lines. It promises of [`audit`] the
//! status for what it is given, exactly: whether the octets are the answer, and where, in which part and in whose packet they
//! first differ from it. No second answer is kept: the memory is that of the octets and of the session.
#![tactic(auto)]

mod calls;
mod checking;
mod compare;
mod nowhere;
mod spelling;
mod status;
mod steps;
mod texts;

pub use calls::{audit, report};
pub use compare::Difference;
pub use status::{AuditStatus, Part, Where};

#[cfg(test)]
mod tests;
