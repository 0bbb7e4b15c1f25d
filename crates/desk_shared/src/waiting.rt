//! A desk whose runs are made by workers, as the conference of a session.
ghost use Rattle.std.specs.Prelude.{◌≡◌, ◌≤◌, ◌<◌, ◌+◌, ◌∷◌, ℕ, IfOk, OnOk, length};
ghost use Rattle.conference_spec.specs.declared.Entry.TheVariants.{Close, Collect};
ghost use Rattle.conference_spec.specs.Codec.{g726};
ghost use Rattle.conference_spec.specs.Feed.{Feed, closes, ended};
ghost use Rattle.conference_spec.specs.Packets.{sent};
ghost use Rattle.desk_run.specs.Handing.{IsSendable};
ghost use Rattle.desk_shared.specs.Handed.{HandedOut, Ready};

use crate::helper::Help;
use conference_spec::JoinSpec;
use desk_run::{Audience, Conference};
use edge_io::Memory;
use std::alloc::Global;
use std::collections::LinkedList;
use std::sync::Wait;
use std::thread;
use talk_mix::Tick;
use tick_core::{CloseFault, DeskCalls, JoinFault, Packets};

/// What goes with a desk and its help. No value of it is made.
#[derive(Drop)]
pub struct Posts<P, L> {
    desk: P,
    help: LinkedList<L>,
}

/// A desk, who helps it, and the runtime that it waits by.
///
/// It closes each tick at once and hands out what is ready. It waits for the next tick's runs only where 64 ticks that were
/// closed weren't handed out, and where it is asked for the next tick; while it waits it makes runs itself.
#[derive(Drop)]
pub struct Waiting<'a, W: Wait, D: DeskCalls, H: Help> {
    pub rt: &'a W,
    pub desk: D,
    pub help: H,
}

impl<'a, W: Wait, D: DeskCalls, H: Help> Audience for Waiting<'a, W, D, H> {
    type Post = Posts<D::Post, H::Lock>;

    ghost stands = { λ c h n. HandedOut (λ f. D.stands c.desk f) h n × H.ready c.help };

    ghost post = { λ c. record { desk = D.post c.desk; help = H.home c.help } };

    fn join(&mut self, spec: JoinSpec) -> Result<(), Memory> {
        match self.desk.join(spec) {
            Ok(()) => {
                self.help.joined(spec.member);
                Ok(())
            }
            Err(JoinFault::Memory) => Err(Memory),
            Err(JoinFault::Used) => unreachable!(),
            Err(JoinFault::Full) => unreachable!(),
        }
    }

    fn leave(&mut self, member: u32) {
        let _left = self.desk.leave(member);
    }
}

impl<'a, W: Wait, D: DeskCalls, H: Help> Conference for Waiting<'a, W, D, H> {
    /// Closes the tick, and hands out what is ready. Where 64 ticks weren't handed out it waits for the first of them before.
    fn encode(&mut self, alloc: Global, tick: Tick) -> Result<Vec<Packets>, Memory> {
        let mut ready = Vec::new(alloc);
        make_place(self.rt, &mut self.desk, &mut self.help, &mut ready)?;
        match self.desk.close(tick) {
            Ok(()) => {}
            Err(CloseFault::Memory) => return Err(Memory),
            Err(CloseFault::TicksOver) => unreachable!(),
            Err(CloseFault::Long) => unreachable!(),
            Err(CloseFault::Backlog) => unreachable!(),
        }
        take_ready(&mut self.desk, &mut ready)?;
        Ok(ready)
    }

    fn next(&mut self) -> Option<Packets> {
        if backlog(&mut self.desk) == 0 {
            return None;
        }
        Some(wait_for_next(self.rt, &mut self.desk, &mut self.help))
    }

    fn cut(&mut self) {
        self.desk.cut();
    }
}

/// Waits, where 64 ticks that were closed weren't handed out, until one fewer is.
///
/// # Errors
///
/// `Memory` where there was no memory. Then nothing is said of the feed.
fn make_place<W: Wait, D: DeskCalls, H: Help>(
    rt: &W,
    desk: &mut D,
    help: &mut H,
    ready: &mut Vec<Packets>,
) -> Result<(), Memory>
    requires known { (h : Feed) × (n : ℕ) × Ready (λ f. D.stands desk.old f) h n ready.old.items }
    requires ready { H.ready help.old }
    ensures taken { OnOk result ((h : Feed) (n : ℕ) → Ready (λ f. D.stands desk.old f) h n ready.old.items →
        Ready (λ f. D.stands desk.new f) h n ready.new.items × (closes h < n + length ready.new.items + 64)) }
    ensures ready { H.ready help.new }
    ensures post { D.post desk.new ≡ D.post desk.old }
    ensures home { H.home help.new ≡ H.home help.old }
{
    if backlog(desk) < 64 {
        return Ok(());
    }
    ready.push(wait_for_next(rt, desk, help))?;
    Ok(())
}

/// How many ticks that were closed weren't handed out.
fn backlog<D: DeskCalls>(desk: &mut D) -> u64
    requires known { (h : Feed) × (n : ℕ) × HandedOut (λ f. D.stands desk.old f) h n }
    ensures count { (h : Feed) (n : ℕ) → HandedOut (λ f. D.stands desk.old f) h n → n + result ≡ closes h }
    ensures stands { (h : Feed) (n : ℕ) → HandedOut (λ f. D.stands desk.old f) h n → HandedOut (λ f. D.stands desk.new f) h n }
    ensures post { D.post desk.new ≡ D.post desk.old }
{
    let closed = desk.closed();
    closed - desk.collected()
}

/// Takes all ticks that are ready, 64 at most.
///
/// # Errors
///
/// `Memory` where there was no memory. Then nothing is said of the feed.
fn take_ready<D: DeskCalls>(desk: &mut D, ready: &mut Vec<Packets>) -> Result<(), Memory>
    requires known { (h : Feed) × (n : ℕ) × Ready (λ f. D.stands desk.old f) h n ready.old.items }
    ensures taken { OnOk result ((h : Feed) (n : ℕ) → Ready (λ f. D.stands desk.old f) h n ready.old.items →
        Ready (λ f. D.stands desk.new f) h n ready.new.items) }
    ensures post { D.post desk.new ≡ D.post desk.old }
{
    for _ in 0..64 {
        let Ok(packets) = desk.collect() else {
            return Ok(());
        };
        ready.push(packets)?;
    }
    Ok(())
}

/// Takes the next tick, and waits for it; while it waits it makes runs.
fn wait_for_next<W: Wait, D: DeskCalls, H: Help>(rt: &W, desk: &mut D, help: &mut H) -> Packets
    requires known { (h : Feed) × (n : ℕ) × HandedOut (λ f. D.stands desk.old f) h n }
    requires ready { H.ready help.old }
    ensures packets { (h : Feed) (n : ℕ) → HandedOut (λ f. D.stands desk.old f) h n → result.packets ≡ sent g726 n h }
    ensures stands { (h : Feed) (n : ℕ) → HandedOut (λ f. D.stands desk.old f) h n →
        (n < closes h) × HandedOut (λ f. D.stands desk.new f) h (n + 1) }
    ensures ready { H.ready help.new }
    ensures post { D.post desk.new ≡ D.post desk.old }
    ensures home { H.home help.new ≡ H.home help.old }
{
    for _ in rt.forever() {
        if let Ok(packets) = desk.collect() {
            return packets;
        }
        if !help.make_run() {
            thread::yield_now();
        }
    }
    unreachable!()
}
