//! What the Book's seats, tables, queue and outbox stand for, and that each of its steps carries the core's.
//!
//! It rests on conference_spec (the core machine) and on triple_table (a table's rows).
//! It promises laws, each the contract of a function with an empty body: where open ticks, present listeners and waiting
//! runs stand for a core, they stand for the next core after a join, a leave, a close, a claim, a publication, a job given
//! back, a collect, a cut and the end, each done as the Book does it: only the published tick and those after it are looked at.
//! The outbox has a mail for each listener that is owed something: what its packets are made of, as far as ticks were
//! collected. What a collect hands out of it is what is sent at that tick, and what is left in it at the end is the rest.
//! What a cut keeps of the listeners is kept of the outbox, mail by mail.
//! It is a crate of definitions and laws: what its edits get wrong is a definition, and a law refuses it.
#![tactic(auto)]

mod laws;
mod mails;
mod seats;

pub use laws::{
    begun_carries, claim_carries, close_carries, collect_carries, collect_hands_out, cut_carries,
    end_carries, give_back_carries, join_carries, leave_carries, mails_are_short, mails_go_on,
    mails_keep_their_specs, publish_carries, queue_counts, rest_is_in_mails, stays_are_in_mails,
};
pub use mails::Mail;
pub use seats::{Origin, Rest, Seat, Ticket};
