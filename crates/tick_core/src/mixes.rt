//! What those hear who aren't heard in a tick, and where their runs are.

ghost use Rattle.std.specs.Prelude.{◌≡◌, ◌^◌, ◌<◌, ◌≤◌, true, false, List, length, IfSome};
ghost use Rattle.talk_mix.specs.Mix.{others};
ghost use Rattle.talk_mix.specs.Mix.{mix as heard_by};
ghost use Rattle.triple_table.specs.Rows.{Row};
ghost use Rattle.book_lists.specs.Levels.{IsAt};
ghost use Rattle.tick_core.specs.Queued.{Places};
ghost use Rattle.tick_core.specs.Hearing.{whole, IsRowFor, IsLast, IsMade, Remembers};

use crate::queue::Queue;
use conference_spec::JoinSpec;
use g726_bits::{Frame, Rate};
use g726_codec::{EncState, Triple};
use talk_mix::{Tick, mix};
use triple_table::Table;

/// What those hear who aren't heard in a tick, once it is made, and at each rate the place of the run of theirs that was
/// asked for last.
///
/// The next of them is mostly in the state of that run, and then has the same run: nothing is made or looked up for it.
#[derive(Drop)]
pub(crate) struct Mixes {
    others: Option<Frame>,
    r16: Option<usize>,
    r24: Option<usize>,
    r32: Option<usize>,
    r40: Option<usize>,
}

impl Mixes {
    /// Nothing is made yet.
    pub fn new() -> Mixes
        ensures remembers { (tick : Tick) (rows : List Row) → Remembers tick rows result }
        ensures made { (tick : Tick) → IsMade (whole tick) result.others }
    {
        Mixes {
            others: None,
            r16: None,
            r24: None,
            r32: None,
            r40: None,
        }
    }

    /// Keeps what those hear who aren't heard, and forgets which runs they have.
    pub fn forget_runs(&mut self)
        ensures { (tick : Tick) (rows : List Row) → IsMade (whole tick) self.old.others → Remembers tick rows self.new }
    {
        self.r16 = None;
        self.r24 = None;
        self.r32 = None;
        self.r40 = None;
    }

    /// The place of the run of a listener of this tick in this state: it gets the next number and a ticket where it is new.
    pub fn place(
        &mut self,
        number: u64,
        talkers: &Tick,
        spec: &JoinSpec,
        state: &EncState,
        table: &mut Table,
        queue: &mut Queue,
    ) -> usize
        requires remembers { Remembers talkers.now table.old.rows self.old }
        requires rows { length table.old.rows < table.old.room }
        requires room { length queue.old.tickets < queue.old.room }
        requires numbers { queue.old.issued < 2 ^ 62 }
        ensures places { Places number (record { rate = spec.now.rate; state = state.now; mix = heard_by spec.now.member talkers.now }) table.old.rows queue.old table.new.rows queue.new result }
        ensures remembers { Remembers talkers.now table.new.rows self.new }
        ensures room { table.old.room ≤ table.new.room }
    {
        if is_heard(spec.member, talkers) {
            return place_own(number, talkers, spec, state, table, queue);
        }
        if let Some(at) = self.joined(spec.rate, state, table) {
            return at;
        }
        self.place_last(number, talkers, spec, state, table, queue)
    }

    /// The same of one who isn't heard; its run is the last one of its rate then.
    fn place_last(
        &mut self,
        number: u64,
        talkers: &Tick,
        spec: &JoinSpec,
        state: &EncState,
        table: &mut Table,
        queue: &mut Queue,
    ) -> usize
        requires other { others spec.now.member talkers.now ≡ talkers.now }
        requires remembers { Remembers talkers.now table.old.rows self.old }
        requires rows { length table.old.rows < table.old.room }
        requires room { length queue.old.tickets < queue.old.room }
        requires numbers { queue.old.issued < 2 ^ 62 }
        ensures places { Places number (record { rate = spec.now.rate; state = state.now; mix = heard_by spec.now.member talkers.now }) table.old.rows queue.old table.new.rows queue.new result }
        ensures remembers { Remembers talkers.now table.new.rows self.new }
        ensures room { table.old.room ≤ table.new.room }
    {
        let all = self.whole(spec.member, talkers);
        let triple = Triple {
            rate: spec.rate,
            state: *state,
            mix: all,
        };
        let at = queue.place(table, number, triple);
        self.put(spec.rate, at);
        at
    }

    /// The place of the last run at this rate, if it is in this state.
    fn joined(&self, rate: Rate, state: &EncState, table: &Table) -> Option<usize>
        ensures { (tick : Tick) → Remembers tick table.now.rows self.now →
            IfSome result (λ at. IsAt table.now.rows at (record { rate = rate; state = state.now; mix = whole tick })) }
    {
        let at = self.last(rate)?;
        if table.is_in_state(at, state) {
            Some(at)
        } else {
            None
        }
    }

    /// What those hear who aren't heard, as this member.
    fn whole(&mut self, member: u32, talkers: &Tick) -> Frame
        requires { others member talkers.now ≡ talkers.now }
        ensures mixed { (rows : List Row) → Remembers talkers.now rows self.old → result ≡ whole talkers.now }
        ensures remembers { (rows : List Row) → Remembers talkers.now rows self.old → Remembers talkers.now rows self.new }
    {
        if let Some(made) = self.others {
            return made;
        }
        let made = mix(member, talkers);
        self.others = Some(made);
        made
    }

    /// The place of the last run at a rate.
    fn last(&self, rate: Rate) -> Option<usize>
        ensures { (tick : Tick) (rows : List Row) → Remembers tick rows self.now → IsLast rows rate (whole tick) result }
    {
        match rate {
            Rate::R16 => self.r16,
            Rate::R24 => self.r24,
            Rate::R32 => self.r32,
            Rate::R40 => self.r40,
        }
    }

    /// The run at this place is the last one at a rate.
    fn put(&mut self, rate: Rate, at: usize)
        ensures { (tick : Tick) (rows : List Row) → Remembers tick rows self.old → IsRowFor rows rate (whole tick) at → Remembers tick rows self.new }
    {
        match rate {
            Rate::R16 => self.r16 = Some(at),
            Rate::R24 => self.r24 = Some(at),
            Rate::R32 => self.r32 = Some(at),
            Rate::R40 => self.r40 = Some(at),
        }
    }
}

/// The same with a mix that is made for this listener.
fn place_own(
    number: u64,
    talkers: &Tick,
    spec: &JoinSpec,
    state: &EncState,
    table: &mut Table,
    queue: &mut Queue,
) -> usize
    requires rows { length table.old.rows < table.old.room }
    requires room { length queue.old.tickets < queue.old.room }
    requires numbers { queue.old.issued < 2 ^ 62 }
    ensures places { Places number (record { rate = spec.now.rate; state = state.now; mix = heard_by spec.now.member talkers.now }) table.old.rows queue.old table.new.rows queue.new result }
    ensures room { table.old.room ≤ table.new.room }
{
    let own = mix(spec.member, talkers);
    let triple = Triple {
        rate: spec.rate,
        state: *state,
        mix: own,
    };
    queue.place(table, number, triple)
}

/// Whether a member is heard in a tick; where it isn't, it hears all voices.
fn is_heard(member: u32, talkers: &Tick) -> bool
    ensures { result ≡ false → others member talkers.now ≡ talkers.now }
{
    for i in 0..talkers.len() {
        if talkers.talker(i).0 == member {
            return true;
        }
    }
    false
}
