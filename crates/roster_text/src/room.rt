//! The members of a session, in tables.

ghost use Rattle.std.specs.Prelude.{◌≡◌, ◌∷◌, [], ℕ, List, None, OnOk};
ghost use Rattle.roster_text.specs.declared.commands.Timed.{Timed};
ghost use Rattle.roster_text.specs.Places.{talks_on, listens_on, misplaced};
ghost use Rattle.roster_text.specs.Tables.{Keeps, Adds, Drops};

use crate::commands::{Command, Listen, Talk};
use crate::faults::RosterKind;
use crate::seat::Seat;
use crate::tables::{forget, is_taken, note, put, remove};
use std::alloc::{AllocError, Global};
use std::collections::{HashMap, HashSet};

/// The most members that are present at a time.
const MAX_MEMBERS: usize = 1024;

/// Who joined so far, who is present, and the SSRCs that the present talk and listen with.
#[derive(Drop)]
pub(crate) struct Room {
    joined: HashSet<u32>,
    seats: HashMap<u32, Seat>,
    talking: HashSet<u32>,
    listening: HashSet<u32>,
}

impl Room {
    /// A room that nobody joined.
    pub(crate) fn new(alloc: Global) -> Room
        ensures { Keeps result [] }
    {
        Room {
            joined: HashSet::new(alloc),
            seats: HashMap::new(alloc),
            talking: HashSet::new(alloc),
            listening: HashSet::new(alloc),
        }
    }

    /// What is wrong with a command here.
    #[tactic(auto, using(crate::proofs::Seats::here_seat))]
    pub(crate) fn fault(&self, command: Command) -> Option<RosterKind>
        ensures { (past : List Timed) → Keeps self.now past → result ≡ misplaced past command }
    {
        match command {
            Command::Join {
                member,
                talk,
                listen,
            } => {
                if self.joined.contains(&member) {
                    return Some(RosterKind::Used);
                }
                if is_taken(&self.talking, talking_ssrc(talk))
                    || is_taken(&self.listening, listening_ssrc(listen))
                {
                    return Some(RosterKind::SsrcTaken);
                }
                if self.seats.len() >= MAX_MEMBERS {
                    return Some(RosterKind::Full);
                }
                None
            }
            Command::Leave { member } => {
                if self.seats.contains_key(&member) {
                    None
                } else {
                    Some(RosterKind::Absent)
                }
            }
        }
    }

    /// Lets a member join or leave, where nothing is wrong with that.
    ///
    /// After want of memory the tables are those of no list of commands.
    pub(crate) fn apply(&mut self, command: Command) -> Result<(), AllocError>
        ensures { OnOk result ((past : List Timed) (at : ℕ) → Keeps self.old past → misplaced past command ≡ None →
            Keeps self.new (record { at = at; command = command } ∷ past)) }
    {
        match command {
            Command::Join {
                member,
                talk,
                listen,
            } => self.seat(Seat {
                member,
                talk: talking_ssrc(talk),
                listen: listening_ssrc(listen),
            }),
            Command::Leave { member } => {
                self.unseat(member);
                Ok(())
            }
        }
    }

    /// Lets a member join.
    fn seat(&mut self, seat: Seat) -> Result<(), AllocError>
        ensures { OnOk result (Adds self.old self.new seat) }
    {
        self.joined.insert(seat.member)?;
        note(&mut self.talking, seat.talk)?;
        note(&mut self.listening, seat.listen)?;
        put(&mut self.seats, seat)
    }

    /// Lets a member leave.
    fn unseat(&mut self, member: u32)
        ensures { Drops self.old self.new member }
    {
        if let Some(seat) = remove(&mut self.seats, member) {
            forget(&mut self.talking, seat.talk);
            forget(&mut self.listening, seat.listen);
        }
    }
}

/// The SSRC that a member sends with.
fn talking_ssrc(talk: Option<Talk>) -> Option<u32>
    ensures { result ≡ talks_on talk }
{
    match talk {
        None => None,
        Some(talk) => Some(talk.ssrc),
    }
}

/// The SSRC that a member gets its packets with.
fn listening_ssrc(listen: Option<Listen>) -> Option<u32>
    ensures { result ≡ listens_on listen }
{
    match listen {
        None => None,
        Some(listen) => Some(listen.ssrc),
    }
}
