//! The Book and its calls.

ghost use Rattle.std.specs.Prelude.{◌≡◌, ◌≤◌, ◌↔◌, ℕ, true, false, not, [], ◌∷◌, ◌<◌, ◌+◌, ◌-◌, ◌^◌, ◌==◌, length, filter, OnOk, OnErr, IfOk, Ok, Err, IsErr, Some, slice_get, vec_len, vec_capacity};
ghost use Rattle.std.specs.Bool.{OnTrue, OnFalse};
ghost use Rattle.std.specs.List.{list_any, All};
ghost use Rattle.conference_spec.specs.declared.Entry.TheVariants.{Join, Leave, Close, Collect, Cut, End};
ghost use Rattle.conference_spec.specs.Codec.{g726};
ghost use Rattle.conference_spec.specs.Feed.{closes, collects, ended, kept, joined, listeners};
ghost use Rattle.conference_spec.specs.Machine.{Core, Enters, accepts, begun, next, waits, Publish, GiveBack};
ghost use Rattle.conference_spec.specs.Kept.{Holds};
ghost use Rattle.conference_spec.specs.Packets.{rest};
ghost use Rattle.tick_core.specs.declared.faults.JoinFault.TheVariants as join_fault;
ghost use Rattle.tick_core.specs.declared.faults.CloseFault.TheVariants as close_fault;
ghost use Rattle.book_feed.specs.Logged.{closed_in, joined_in};
ghost use Rattle.tick_core.specs.Standing.{Stands, StandsOn, BeforeEnd, IsKnown, IsCollected, CanCut, HaveOneBase, Takes, Keeps, Claims, Publishes, GivesBack, Collects};
ghost use Rattle.tick_core.specs.Steps.{IsKnownOn, BeforeEndOn, TakesOn, KeepsOn, CollectsOn, IsReady, OpensTick, HasTicketAt, TakesRunOut, FindsOut, IsOutThere, IsOldestOver};
ghost use Rattle.tick_core.specs.Sweeping.{all_seats};
ghost use Rattle.tick_core.specs.Opened.{HasRoom};

use crate::faults::{Absent, CloseFault, JoinFault, NotYet};
use crate::jobs::{Claim, Done, Job};
use crate::mails::{count_rests, first_mail, keep_stays, mail_leaves, rest_at, stays_after};
use crate::open::Open;
use crate::packets::Packets;
use crate::queue::Queue;
use crate::seating::{Blank, seated, settle_after};
use crate::sweep::sweep_from;
use book_feed::FeedLog;
use book_lists::{Mail, Origin, Rest, Ticket};
use conference_spec::{JoinSpec, Packet, Stay};
use edge_io::Memory;
use g726_codec::{EncState, Triple};
use std::alloc::Global;
use talk_mix::Tick;

/// How many listeners can be present.
pub const LISTENERS_MOST: usize = 1024;

/// How many ticks can be closed: a day.
pub const TICKS_MOST: u64 = 4_320_000;

/// How many of them can be closed without a cut.
pub const KEPT_MOST: u64 = 18_000;

/// How many closed ticks can wait to be collected.
pub const BACKLOG_MOST: u64 = 64;

/// A conference: who listens, the ticks that were closed, and one encoder run for each different triple of a tick.
///
/// Contracts say of a Book that it stands for a core: a feed, how many numbers were given out, and the runs of the ticks that
/// aren't collected. Each call is the core's step of its name. Of what was done up to its last cut a Book keeps a base alone,
/// so it stands for a core with each feed that has this base and goes on in the same way.
#[derive(Drop)]
pub struct Book {
    alloc: Global,
    /// Joins, leaves, closes, collects and the end since the last cut, and counts of what was before it.
    log: FeedLog,
    /// What the last cut kept of the listeners, in the order of their joins.
    stays: Vec<Stay>,
    /// The ticks that aren't collected, the newest first.
    open_ticks: Vec<Open>,
    /// An empty list for the packets of each of them, the newest first.
    rooms: Vec<Vec<Packet>>,
    /// The listeners, in the order of their joins.
    present: Vec<Rest>,
    /// What the packets to come are made of, in the order of joins: of each listener, and of those who left and whose last
    /// packet's tick isn't collected.
    outbox: Vec<Mail>,
    queue: Queue,
}

impl Book {
    /// A Book to which nothing has happened.
    pub fn new(alloc: Global) -> Book
        ensures begun { Stands result begun }
        ensures only { (c : Core) → Stands result c → c.feed ≡ [] }
    {
        Book {
            alloc,
            log: FeedLog::new(alloc),
            stays: Vec::new(alloc),
            open_ticks: Vec::new(alloc),
            rooms: Vec::new(alloc),
            present: Vec::new(alloc),
            outbox: Vec::new(alloc),
            queue: Queue::new(alloc),
        }
    }

    /// A listener joins; the next tick that is closed is its first. Its packets carry 1 to 4 ticks each, as it asks. A refusal
    /// leaves the Book as it was.
    ///
    /// # Errors
    ///
    /// `Used` where a listener of this number has joined before, `Full` where 1,024 are present, then `Memory`.
    pub fn join(&mut self, spec: JoinSpec) -> Result<(), JoinFault>
        requires before_end { BeforeEnd self.old }
        requires payload_type { spec.pt ≤ 127 }
        requires ticks { (1 ≤ spec.ticks) × (spec.ticks ≤ 4) }
        ensures ok { OnOk result (Takes self.old self.new (Join spec)) }
        ensures err { OnErr result (Keeps self.old self.new) }
        ensures used { (c : Core) → Stands self.old c → (result ≡ Err join_fault.Used) ↔ (list_any (λ m. m == spec.member) (joined c.feed) ≡ true) }
        ensures full { (c : Core) → Stands self.old c → (result ≡ Err join_fault.Full) ↔ ((list_any (λ m. m == spec.member) (joined c.feed) ≡ false) × (length (listeners g726 c.feed) ≡ 1024)) }
    {
        if self.log.has_joined(spec.member) {
            return Err(JoinFault::Used);
        }
        if self.present.len() >= LISTENERS_MOST {
            return Err(JoinFault::Full);
        }
        self.enter(spec)?;
        Ok(())
    }

    /// The new listener rests in the start state, once all memory is there.
    fn enter(&mut self, spec: JoinSpec) -> Result<(), Memory>
        requires before_end { BeforeEndOn self.old }
        requires new { list_any (λ m. m == spec.member) (joined_in self.old.log.feed) ≡ false }
        requires few { length self.old.present.items < 1024 }
        requires ticks { spec.ticks ≤ 4 }
        ensures ok { OnOk result (TakesOn self.old self.new (Join spec)) }
        ensures err { OnErr result (KeepsOn self.old self.new) }
    {
        let n = self.present.len() + self.open_ticks.len() + 2;
        self.log.reserve(n)?;
        self.present.reserve(1)?;
        self.outbox.reserve(1)?;
        self.stays.reserve(self.outbox.len() + 1)?;
        self.log.join(spec)?;
        self.outbox
            .push_reserved(first_mail(spec, self.log.closed()));
        self.present.push_reserved(Rest {
            spec,
            heard: 0,
            origin: Origin::Known(EncState::start()),
        });
        Ok(())
    }

    /// A listener leaves; its packets of the ticks that are closed already are still made, and what no full packet carries goes
    /// out with the next tick that is closed. It takes no memory.
    ///
    /// # Errors
    ///
    /// `Absent` where no listener of this number is present.
    pub fn leave(&mut self, member: u32) -> Result<(), Absent>
        requires before_end { BeforeEnd self.old }
        ensures ok { OnOk result (Takes self.old self.new (Leave member)) }
        ensures err { OnErr result (Keeps self.old self.new) }
        ensures absent { (c : Core) → Stands self.old c → IsErr result ↔ (list_any (λ l. l.spec.member == member) (listeners g726 c.feed) ≡ false) }
    {
        if !is_present(&self.present, member) {
            return Err(Absent);
        }
        self.present.retain(|rest| rest.spec.member != member);
        mail_leaves(&mut self.outbox, member, self.log.closed());
        self.log.leave(member);
        Ok(())
    }

    /// Closes a tick with these talkers: each present listener is to be sent it. A refusal leaves the Book as it was.
    ///
    /// # Errors
    ///
    /// `TicksOver` where 4,320,000 ticks were closed, `Long` where 18,000 of them were closed since the last cut, `Backlog`
    /// where 64 of them aren't collected, then `Memory`.
    pub fn close(&mut self, tick: Tick) -> Result<(), CloseFault>
        requires before_end { BeforeEnd self.old }
        ensures ok { OnOk result (Takes self.old self.new (Close tick)) }
        ensures err { OnErr result (Keeps self.old self.new) }
        ensures ticks_over { (c : Core) → Stands self.old c → (result ≡ Err close_fault.TicksOver) ↔ (closes c.feed ≡ 4320000) }
        ensures long { (c : Core) → Stands self.old c → (result ≡ Err close_fault.Long) ↔ ((closes c.feed < 4320000) × (kept c.feed ≡ 18000)) }
        ensures backlog { (c : Core) → Stands self.old c → (result ≡ Err close_fault.Backlog) ↔ ((closes c.feed < 4320000) × (kept c.feed < 18000) × (closes c.feed ≡ collects c.feed + 64)) }
    {
        let closed = self.log.closed();
        if closed >= TICKS_MOST {
            return Err(CloseFault::TicksOver);
        }
        if self.log.kept() >= KEPT_MOST {
            return Err(CloseFault::Long);
        }
        if closed - self.log.collected() >= BACKLOG_MOST {
            return Err(CloseFault::Backlog);
        }
        let blank = self.take_room(tick)?;
        self.open_tick(closed, tick, blank);
        Ok(())
    }

    /// Takes the memory for a tick, its runs and packets, and for the entries to come; then the close enters the feed.
    fn take_room(&mut self, tick: Tick) -> Result<Blank, Memory>
        requires before_end { BeforeEndOn self.old }
        requires seats { all_seats self.old.open_ticks.items ≤ 65536 }
        requires listeners { length self.old.present.items ≤ 1024 }
        ensures ok { IfOk result (λ blank. IsReady self.old tick self.new blank) }
        ensures err { OnErr result (KeepsOn self.old self.new) }
    {
        let n = self.present.len();
        self.log.reserve(n + self.open_ticks.len() + 2)?;
        self.open_ticks.reserve(1)?;
        self.rooms.reserve(1)?;
        self.queue.reserve(seats_of(&self.open_ticks) + n)?;
        let blank = Blank::with_room(self.alloc, n)?;
        let room = Vec::with_capacity(self.alloc, self.outbox.len())?;
        self.log.close(tick)?;
        put_first(&mut self.rooms, room);
        Ok(blank)
    }

    /// Seats the present listeners at the tick of this number.
    fn open_tick(&mut self, number: u64, tick: Tick, blank: Blank)
        requires blank { HasRoom blank (length self.old.present.items) }
        requires place { vec_len self.old.open_ticks < vec_capacity self.old.open_ticks }
        requires room { length self.old.queue.tickets + length self.old.present.items ≤ self.old.queue.room }
        requires numbers { self.old.queue.issued + length self.old.present.items ≤ 2 ^ 62 }
        requires heard { All (λ r. r.heard < 2 ^ 63) self.old.present.items }
        ensures log { self.new.log ≡ self.old.log }
        ensures opened { OpensTick number tick self.old self.new }
    {
        let open = Open::closed(
            number,
            tick,
            blank,
            &self.present,
            &self.open_ticks,
            &mut self.queue,
        );
        put_first(&mut self.open_ticks, open);
        seated(&mut self.present);
    }

    /// Claims the waiting run of the least number, which is out from then on. It takes no memory.
    pub fn claim(&mut self) -> Claim
        requires stands { IsKnown self.old }
        ensures claims { (c : Core) → Stands self.old c → Claims result self.new c }
    {
        match self.queue.pop() {
            Some(ticket) => Claim::Job(self.take(ticket)),
            None => {
                if self.log.ended() {
                    Claim::Over
                } else {
                    Claim::Idle
                }
            }
        }
    }

    /// The job of a ticket.
    fn take(&mut self, ticket: Ticket) -> Job
        requires there { HasTicketAt self.old ticket }
        ensures taken { TakesRunOut self.old ticket self.new result }
    {
        let place = self.place_of(ticket.tick);
        let open = &mut self.open_ticks[place];
        open.take(ticket.tick, ticket.at)
    }

    /// The place of an open tick.
    fn place_of(&self, tick: u64) -> usize
        requires { tick < closed_in self.now.log.feed }
        ensures { result ≡ closed_in self.now.log.feed - 1 - tick }
    {
        (self.log.closed() - 1 - tick) as usize
    }

    /// Takes the result of a run that is out: whoever waited for it goes on, and the runs that are reached by that get
    /// their numbers. It takes no memory.
    ///
    /// # Errors
    ///
    /// The Done comes back, and nothing changes, where no run of its number, tick and triple is out.
    pub fn publish(&mut self, done: Done) -> Result<(), Done>
        requires stands { IsKnown self.old }
        ensures publishes { (c : Core) → Stands self.old c → Publishes done result self.new c }
    {
        let Some((place, at)) = self.find_out(
            done.number(),
            done.tick(),
            done.triple(),
            done.place(),
        ) else {
            return Err(done);
        };
        self.finish(place, at, &done);
        Ok(())
    }

    /// The open tick and the place there of a run that is out; it is looked for at the place `from` there first.
    fn find_out(
        &self,
        number: u64,
        tick: u64,
        triple: &Triple,
        from: usize,
    ) -> Option<(usize, usize)>
        requires { IsKnownOn self.now }
        ensures { FindsOut self.now (record { number = number; task = record { tick = tick; triple = triple.now } }) result }
    {
        if tick < self.log.collected() || tick >= self.log.closed() {
            return None;
        }
        let place = self.place_of(tick);
        let at = self.open_ticks[place].find_out(number, triple, from)?;
        Some((place, at))
    }

    /// Keeps a result, and lets the ticks from there on take their states.
    fn finish(&mut self, place: usize, at: usize, done: &Done)
        requires known { IsKnownOn self.old }
        requires out { IsOutThere self.old done.now place at }
        ensures finished { (c : Core) → StandsOn self.old c → StandsOn self.new (next g726 c (Publish done.now.number done.now.task)) }
    {
        let open = &mut self.open_ticks[place];
        open.finish(at, done.encoded());
        sweep_from(&mut self.open_ticks, place, &mut self.queue);
    }

    /// Takes a job back that wasn't run: it waits again, with its number. It takes no memory.
    ///
    /// # Errors
    ///
    /// The Job comes back, and nothing changes, where no run of its number, tick and triple is out.
    pub fn give_back(&mut self, job: Job) -> Result<(), Job>
        requires stands { IsKnown self.old }
        ensures gives_back { (c : Core) → Stands self.old c → GivesBack job result self.new c }
    {
        let Some((place, at)) = self.find_out(job.number(), job.tick(), job.triple(), job.place())
        else {
            return Err(job);
        };
        self.wait_again(place, at, job);
        Ok(())
    }

    /// Puts a job back.
    fn wait_again(&mut self, place: usize, at: usize, job: Job)
        requires known { IsKnownOn self.old }
        requires out { IsOutThere self.old job place at }
        ensures waits { (c : Core) → StandsOn self.old c → StandsOn self.new (next g726 c (GiveBack job.number job.task)) }
    {
        let number = job.number();
        let tick = job.tick();
        let open = &mut self.open_ticks[place];
        open.put_back(at, job.into_permit());
        self.queue.put_back(Ticket { number, tick, at });
    }

    /// Hands out the packets of the next tick, in the order of their listeners' joins. It takes no memory.
    ///
    /// # Errors
    ///
    /// `NotYet` where that tick isn't closed, or a listener of it has no payload yet.
    pub fn collect(&mut self) -> Result<Packets, NotYet>
        requires stands { IsKnown self.old }
        ensures collects { (c : Core) → Stands self.old c → Collects result self.new c }
    {
        if !self.can_collect() {
            return Err(NotYet);
        }
        Ok(self.hand_out())
    }

    /// Whether a tick is open and each run of the oldest one is finished.
    fn can_collect(&self) -> bool
        requires known { IsKnownOn self.now }
        ensures over { OnTrue result (IsOldestOver self.now.open_ticks.items) }
        ensures not_yet { OnFalse result ((c : Core) → StandsOn self.now c → accepts g726 c Collect ≡ false) }
    {
        match self.open_ticks.last() {
            Some(oldest) => oldest.is_over(),
            None => false,
        }
    }

    /// The packets of the oldest open tick, whose runs are all finished.
    fn hand_out(&mut self) -> Packets
        requires known { IsKnownOn self.old }
        requires over { IsOldestOver self.old.open_ticks.items }
        ensures { (c : Core) → StandsOn self.old c → CollectsOn result self.new c }
    {
        let Some(oldest) = self.open_ticks.pop() else {
            unreachable!()
        };
        let Some(room) = self.rooms.pop() else {
            unreachable!()
        };
        settle_after(&mut self.present, &self.open_ticks, &oldest);
        self.log.collect();
        let packets = oldest.into_packets(&mut self.outbox, room);
        let tick = packets.tick();
        self.outbox.retain(|mail| stays_after(tick, mail.left));
        packets
    }

    /// How many packets are left where each closed tick is collected: one for each listener with ticks that no packet has
    /// carried yet. It takes no memory, and changes nothing.
    pub fn rests(&self) -> usize
        requires collected { IsCollected self.now }
        ensures { (c : Core) → Stands self.now c → result ≡ length (rest g726 c.feed) }
    {
        count_rests(&self.outbox)
    }

    /// The i-th of these packets, from 0, in the order of their listeners' joins. It takes no memory, and changes nothing.
    pub fn rest(&self, i: usize) -> Packet
        requires collected { IsCollected self.now }
        requires there { (c : Core) → Stands self.now c → i < length (rest g726 c.feed) }
        ensures { (c : Core) → Stands self.now c → slice_get (rest g726 c.feed) i ≡ Some result }
    {
        rest_at(&self.outbox, i)
    }

    /// Forgets what was done, all but what later packets need. It takes no memory.
    pub fn cut(&mut self)
        requires may_cut { CanCut self.old }
        ensures cut { Takes self.old self.new Cut }
    {
        self.stays.clear();
        keep_stays(&mut self.stays, &self.outbox, self.log.closed());
        self.log.cut(self.queue.issued());
    }

    /// Nothing but claims, results and collects comes after the end. A second call changes nothing. It takes no memory.
    pub fn end(&mut self)
        requires stands { IsKnown self.old }
        ensures end { (c : Core) → Stands self.old c → Stands self.new (next g726 c (Enters End)) }
    {
        self.log.end();
    }

    /// How many ticks were closed.
    pub fn closed(&self) -> u64
        ensures { (c : Core) → Stands self.now c → result ≡ closes c.feed }
    {
        self.log.closed()
    }

    /// How many ticks were collected.
    pub fn collected(&self) -> u64
        ensures { (c : Core) → Stands self.now c → result ≡ collects c.feed }
    {
        self.log.collected()
    }

    /// How many ticks were closed since the last cut.
    pub fn kept(&self) -> u64
        ensures { (c : Core) → Stands self.now c → result ≡ kept c.feed }
    {
        self.log.kept()
    }

    /// Whether the end has come.
    pub fn ended(&self) -> bool
        ensures { (c : Core) → Stands self.now c → result ≡ ended c.feed }
    {
        self.log.ended()
    }

    /// How many runs wait.
    pub fn waiting(&self) -> u64
        ensures { (c : Core) → Stands self.now c → result ≡ length (filter (λ r. waits r.stage) c.runs) }
    {
        self.queue.len() as u64
    }

    /// How many permits were given out: one for each run of each tick.
    pub fn issued(&self) -> u64
        ensures { (c : Core) → Stands self.now c → result ≡ c.issued }
    {
        self.queue.issued()
    }

    /// How many entries the feed has.
    pub fn fed(&self) -> u64
        ensures { (c : Core) → Stands self.now c → result ≡ length c.feed }
    {
        self.log.len()
    }

    /// Of what was done up to its last cut a Book knows the base alone: it stands for each core whose feed has this base and the
    /// same entries since, with the same runs, and for none whose feed has another.
    pub fn knows_its_base(&self)
        ensures each { (c d : Core) → Stands self.now c → HaveOneBase c.feed d.feed → c.issued ≡ d.issued → c.runs ≡ d.runs → Stands self.now d }
        ensures only { (c d : Core) → Stands self.now c → Stands self.now d → HaveOneBase c.feed d.feed }
    {}

    /// What holds in every Book: a legal feed, no task with two numbers, numbers for just what is reached, the runs of a
    /// finished tick just its triples, and how many numbers were given out.
    pub fn holds(&self)
        ensures { (c : Core) → Stands self.now c → Holds g726 c }
    {}
}

/// How many seats these ticks have.
fn seats_of(ticks: &[Open]) -> usize
    requires { all_seats ticks.now < 2 ^ 63 }
    ensures { result ≡ all_seats ticks.now }
{
    let mut seats = 0;
    for tick in ticks {
        seats += tick.len();
    }
    seats
}

/// Whether a listener of this number is present.
fn is_present(present: &[Rest], member: u32) -> bool
    ensures { result ≡ list_any (λ r. r.spec.member == member) present.now }
{
    for rest in present {
        if rest.spec.member == member {
            return true;
        }
    }
    false
}

/// Puts what came last before the others, where there is room.
fn put_first<T: Drop>(items: &mut Vec<T>, newest: T)
    requires { vec_len items.old < vec_capacity items.old }
    ensures { items.new.items ≡ newest ∷ items.old.items }
{
    let Ok(()) = items.insert(0, newest) else {
        unreachable!()
    };
}
