//! The feed of a conference, kept compactly: its entries since the last cut, and counts of what was done up to it.
//!
//! It rests on conference_spec (what a feed is and how it is counted), talk_mix (ticks) and edge_io.
//! It promises that each call adds just its own entry, that the counts and `has_joined` are those of the whole feed,
//! that a cut keeps just the counts of the entries before it, and that a call that found no memory changes nothing.
//! `leave`, `collect`, `cut` and `end` take no memory.
#![tactic(auto)]

ghost use Rattle.std.specs.Prelude.{◌≡◌, ◌+◌, ◌-◌, ◌^◌, ◌<◌, ◌≤◌, ◌==◌, [], ◌∷◌, ◌++◌, length, false, if◌then◌else◌, IsOk, OnOk, OnErr, vec_len, vec_capacity};
ghost use Rattle.std.specs.List.{list_any};
ghost use Rattle.conference_spec.specs.declared.Entry.TheVariants as entry;
ghost use Rattle.conference_spec.specs.Feed as feed;
ghost use Rattle.book_feed.specs.Logged.{Logged, IsModest, blank, with_entry, cut_off, closed_in, collected_in, joined_in, entries_in};

use conference_spec::JoinSpec;
use edge_io::Memory;
use std::alloc::Global;
use std::collections::HashSet;
use std::marker::Model;
use talk_mix::Tick;

#[cfg(test)]
mod tests;

/// An entry from before the end. A tick is about 1 KB, so it stands apart.
#[derive(Drop)]
enum Mark {
    Join(JoinSpec),
    Leave(u32),
    Close(Box<Tick>),
    Collect,
}

/// Counts of all that was done up to and with the last cut.
#[derive(Clone, Copy)]
struct Base {
    entries: u64,
    closed: u64,
    runs: u64,
    joins: usize,
}

/// The feed of a conference.
///
/// Contracts see the counts up to the last cut, the entries since, the newest one first, and `room`, how many entries
/// it can take without memory for its list.
#[derive(Drop)]
pub struct FeedLog {
    alloc: Global,
    /// What was done since the last cut, the oldest first.
    marks: Vec<Mark>,
    ended: bool,
    after_end: u64,
    closed: u64,
    collected: u64,
    members: HashSet<u32>,
    /// The same numbers, in the order of their joins.
    joined: Vec<u32>,
    base: Base,
}

impl Model for FeedLog {
    ghost use Rattle.book_feed.specs.Logged.{Logged};

    ghost Value = { Logged };

    ghost use Rattle.book_feed.specs.Inside.{logged, IsSound};

    ghost view = { logged };

    ghost invariant = { IsSound };
}

impl FeedLog {
    /// An empty feed. Takes no memory.
    pub fn new(alloc: Global) -> FeedLog
        ensures feed { result.feed ≡ blank }
    {
        FeedLog {
            alloc,
            marks: Vec::new(alloc),
            ended: false,
            after_end: 0,
            closed: 0,
            collected: 0,
            members: HashSet::new(alloc),
            joined: Vec::new(alloc),
            base: Base {
                entries: 0,
                closed: 0,
                runs: 0,
                joins: 0,
            },
        }
    }

    /// How many ticks were closed.
    pub fn closed(&self) -> u64
        ensures { result ≡ closed_in self.now.feed }
    {
        self.closed
    }

    /// How many ticks were handed out.
    pub fn collected(&self) -> u64
        ensures { result ≡ collected_in self.now.feed }
    {
        self.collected
    }

    /// How many ticks were closed since the last cut.
    pub fn kept(&self) -> u64
        ensures { result ≡ feed.closes self.now.feed.since }
    {
        self.closed - self.base.closed
    }

    /// Whether the conference has ended.
    pub fn ended(&self) -> bool
        ensures { result ≡ feed.ended self.now.feed.since }
    {
        self.ended
    }

    /// How many entries there are, where nobody joined twice.
    pub fn len(&self) -> u64
        ensures { IsModest self.now.feed → result ≡ entries_in self.now.feed }
    {
        let marks = self.marks.len() as u64;
        let ends = u64::from(self.ended);
        let since = marks.saturating_add(ends).saturating_add(self.after_end);
        self.base.entries.saturating_add(since)
    }

    /// Whether the member of this number ever joined.
    pub fn has_joined(&self, member: u32) -> bool
        ensures { result ≡ list_any (λ m. m == member) (joined_in self.now.feed) }
    {
        self.members.contains(&member)
    }

    /// Makes room for `n` more entries. Takes no memory where there is room for them.
    ///
    /// # Errors
    ///
    /// `Memory` where there was none. Then the feed is as before.
    pub fn reserve(&mut self, n: usize) -> Result<(), Memory>
        ensures feed { self.new.feed ≡ self.old.feed }
        ensures room { self.old.room ≤ self.new.room }
        ensures ok { OnOk result (n ≤ self.new.room) }
        ensures succeeds { n ≤ self.old.room → IsOk result }
    {
        self.marks.reserve(n)?;
        Ok(())
    }

    /// Adds that a listener came.
    ///
    /// # Errors
    ///
    /// `Memory` where there was none to keep the member's number. Then the feed is as before.
    pub fn join(&mut self, spec: JoinSpec) -> Result<(), Memory>
        requires room { 0 < self.old.room }
        requires not_ended { feed.ended self.old.feed.since ≡ false }
        ensures ok { OnOk result (self.new.feed ≡ with_entry (entry.Join spec) self.old.feed) }
        ensures err { OnErr result (self.new.feed ≡ self.old.feed) }
        ensures room { OnOk result (self.old.room ≤ self.new.room + 1) }
        ensures room_kept { OnErr result (self.old.room ≤ self.new.room) }
    {
        self.joined.reserve(1)?;
        self.members.insert(spec.member)?;
        put_number(&mut self.joined, spec.member);
        put_mark(&mut self.marks, Mark::Join(spec));
        Ok(())
    }

    /// Adds that a tick was closed with these talkers.
    ///
    /// # Errors
    ///
    /// `Memory` where there was none to keep the tick. Then the feed is as before.
    pub fn close(&mut self, tick: Tick) -> Result<(), Memory>
        requires room { 0 < self.old.room }
        requires not_ended { feed.ended self.old.feed.since ≡ false }
        requires count { closed_in self.old.feed < 2 ^ 63 }
        ensures ok { OnOk result (self.new.feed ≡ with_entry (entry.Close tick) self.old.feed) }
        ensures err { OnErr result (self.new.feed ≡ self.old.feed) }
        ensures room { OnOk result (self.old.room ≤ self.new.room + 1) }
        ensures room_kept { OnErr result (self.old.room ≤ self.new.room) }
    {
        let kept = Box::new(self.alloc, tick)?;
        put_mark(&mut self.marks, Mark::Close(kept));
        self.closed += 1;
        Ok(())
    }

    /// Adds that the listener of this number went. Takes no memory.
    pub fn leave(&mut self, member: u32)
        requires room { 0 < self.old.room }
        requires not_ended { feed.ended self.old.feed.since ≡ false }
        ensures feed { self.new.feed ≡ with_entry (entry.Leave member) self.old.feed }
        ensures room { self.old.room ≤ self.new.room + 1 }
    {
        put_mark(&mut self.marks, Mark::Leave(member));
    }

    /// Adds that the packets of the next tick were handed out. Takes no memory.
    pub fn collect(&mut self)
        requires room { 0 < self.old.room }
        requires closed { collected_in self.old.feed < closed_in self.old.feed }
        ensures feed { self.new.feed ≡ with_entry entry.Collect self.old.feed }
        ensures room { self.old.room ≤ self.new.room + 1 }
    {
        self.collected += 1;
        if self.ended {
            self.after_end += 1;
        } else {
            put_mark(&mut self.marks, Mark::Collect);
        }
    }

    /// Adds a cut, up to which so many runs were due, and forgets the entries before it but for their counts. Takes no
    /// memory, and needs no room.
    pub fn cut(&mut self, runs: u64)
        requires not_ended { feed.ended self.old.feed.since ≡ false }
        requires collected { collected_in self.old.feed ≡ closed_in self.old.feed }
        requires modest { IsModest self.old.feed }
        ensures feed { self.new.feed ≡ cut_off runs self.old.feed }
        ensures room { self.old.room ≤ self.new.room }
    {
        self.base = Base {
            entries: self.len() + 1,
            closed: self.closed,
            runs,
            joins: self.joined.len(),
        };
        self.marks.clear();
    }

    /// Adds the end, if it isn't there. Takes no memory, and needs no room.
    pub fn end(&mut self)
        ensures feed { self.new.feed ≡ (if feed.ended self.old.feed.since then self.old.feed else with_entry entry.End self.old.feed) }
        ensures room { self.old.room ≤ self.new.room }
    {
        self.ended = true;
    }
}

/// Adds a mark, where there is room.
fn put_mark(marks: &mut Vec<Mark>, mark: Mark)
    requires { vec_len marks.old < vec_capacity marks.old }
    ensures items { marks.new.items ≡ marks.old.items ++ mark ∷ [] }
    ensures len { vec_len marks.new ≡ vec_len marks.old + 1 }
    ensures room { vec_capacity marks.old ≤ vec_capacity marks.new }
{
    let Ok(()) = marks.push(mark) else {
        unreachable!()
    };
}

/// Adds a number, where there is room.
fn put_number(numbers: &mut Vec<u32>, number: u32)
    requires { vec_len numbers.old < vec_capacity numbers.old }
    ensures items { numbers.new.items ≡ numbers.old.items ++ number ∷ [] }
    ensures small { number < 2 ^ 32 }
{
    numbers.push_reserved(number);
}
