//! The desk's calls, each one turn.

ghost use Rattle.std.specs.Prelude.{◌≡◌, ◌≤◌, ◌<◌, ◌+◌, ◌↔◌, ◌∷◌, ◌==◌, true, false, length, OnOk, OnErr, IfOk, Err, IsErr, if◌then◌else◌};
ghost use Rattle.std.specs.List.{list_any};
ghost use Rattle.conference_spec.specs.declared.Entry.TheVariants.{Join, Leave, Close, Collect, Cut, End};
ghost use Rattle.conference_spec.specs.Codec.{g726};
ghost use Rattle.conference_spec.specs.Feed.{Feed, closes, collects, ended, joined, kept, listeners};
ghost use Rattle.conference_spec.specs.Packets.{sent};
ghost use Rattle.conference_spec.specs.Tasks.{due};
ghost use Rattle.tick_core.specs.declared.faults.JoinFault.TheVariants as join_fault;
ghost use Rattle.tick_core.specs.declared.faults.CloseFault.TheVariants as close_fault;
ghost use Rattle.book_seat.specs.Steps.{JoinGives, LeaveGives, CloseGives, CollectGives, CutGives, EndGives, ClosedGives, CollectedGives, KeptGives, IssuedGives};
ghost use Rattle.book_seat.specs.Seated.{post_of};
ghost use Rattle.book_seat.specs.Taken.{TookTurn};

use crate::desk_pass::DeskPass;
use crate::in_turn::{
    close_in, closed_in, collect_in, collected_in, cut_in, end_in, issued_in, join_in, kept_in,
    leave_in,
};
use crate::names::DeskPost;
use std::sync::Wait;
use talk_mix::Tick;
use tick_core::{Absent, Book, CloseFault, DeskCalls, JoinFault, JoinSpec, NotYet, Packets};

impl<'a, W: Wait> DeskCalls for DeskPass<'a, W> {
    type Post = DeskPost;

    ghost stands = { λ d h. d.view.seen ≡ h };

    ghost post = { post_of };

    fn join(&mut self, spec: JoinSpec) -> Result<(), JoinFault>
        requires before_end { (h : Feed) × (self.old.view.seen ≡ h) × (ended h ≡ false) }
        requires payload_type { spec.pt ≤ 127 }
        requires ticks { (1 ≤ spec.ticks) × (spec.ticks ≤ 4) }
        ensures ok { OnOk result ((h : Feed) → self.old.view.seen ≡ h → self.new.view.seen ≡ Join spec ∷ h) }
        ensures err { OnErr result ((h : Feed) → self.old.view.seen ≡ h → self.new.view.seen ≡ h) }
        ensures used { (h : Feed) → self.old.view.seen ≡ h → (result ≡ Err join_fault.Used) ↔ (list_any (λ m. m == spec.member) (joined h) ≡ true) }
        ensures full { (h : Feed) → self.old.view.seen ≡ h → (result ≡ Err join_fault.Full) ↔ ((list_any (λ m. m == spec.member) (joined h) ≡ false) × (length (listeners g726 h) ≡ 1024)) }
        ensures post { post_of self.new ≡ post_of self.old }
        ensures turn { TookTurn self.old.view self.new.view (JoinGives spec result) }
    {
        self.lock.turn(
            self.rt,
            &mut self.pass,
            move |book: &mut Book| join_in(book, spec),
        )
    }

    fn leave(&mut self, member: u32) -> Result<(), Absent>
        requires before_end { (h : Feed) × (self.old.view.seen ≡ h) × (ended h ≡ false) }
        ensures ok { OnOk result ((h : Feed) → self.old.view.seen ≡ h → self.new.view.seen ≡ Leave member ∷ h) }
        ensures err { OnErr result ((h : Feed) → self.old.view.seen ≡ h → self.new.view.seen ≡ h) }
        ensures absent { (h : Feed) → self.old.view.seen ≡ h → IsErr result ↔ (list_any (λ l. l.spec.member == member) (listeners g726 h) ≡ false) }
        ensures post { post_of self.new ≡ post_of self.old }
        ensures turn { TookTurn self.old.view self.new.view (LeaveGives member result) }
    {
        self.lock.turn(
            self.rt,
            &mut self.pass,
            move |book: &mut Book| leave_in(book, member),
        )
    }

    fn close(&mut self, tick: Tick) -> Result<(), CloseFault>
        requires before_end { (h : Feed) × (self.old.view.seen ≡ h) × (ended h ≡ false) }
        ensures ok { OnOk result ((h : Feed) → self.old.view.seen ≡ h → self.new.view.seen ≡ Close tick ∷ h) }
        ensures err { OnErr result ((h : Feed) → self.old.view.seen ≡ h → self.new.view.seen ≡ h) }
        ensures ticks_over { (h : Feed) → self.old.view.seen ≡ h → (result ≡ Err close_fault.TicksOver) ↔ (closes h ≡ 4320000) }
        ensures long { (h : Feed) → self.old.view.seen ≡ h → (result ≡ Err close_fault.Long) ↔ ((closes h < 4320000) × (kept h ≡ 18000)) }
        ensures backlog { (h : Feed) → self.old.view.seen ≡ h → (result ≡ Err close_fault.Backlog) ↔ ((closes h < 4320000) × (kept h < 18000) × (closes h ≡ collects h + 64)) }
        ensures post { post_of self.new ≡ post_of self.old }
        ensures turn { TookTurn self.old.view self.new.view (CloseGives tick result) }
    {
        self.lock.turn(
            self.rt,
            &mut self.pass,
            move |book: &mut Book| close_in(book, tick),
        )
    }

    fn collect(&mut self) -> Result<Packets, NotYet>
        requires known { (h : Feed) × (self.old.view.seen ≡ h) }
        ensures tick { IfOk result (λ p. (h : Feed) → self.old.view.seen ≡ h → p.tick ≡ collects h) }
        ensures packets { IfOk result (λ p. (h : Feed) → self.old.view.seen ≡ h → p.packets ≡ sent g726 (collects h) h) }
        ensures ok { OnOk result ((h : Feed) → self.old.view.seen ≡ h → (collects h < closes h) × (self.new.view.seen ≡ Collect ∷ h)) }
        ensures err { OnErr result ((h : Feed) → self.old.view.seen ≡ h → self.new.view.seen ≡ h) }
        ensures post { post_of self.new ≡ post_of self.old }
        ensures turn { TookTurn self.old.view self.new.view (CollectGives result) }
    {
        self.lock.turn(
            self.rt,
            &mut self.pass,
            move |book: &mut Book| collect_in(book),
        )
    }

    fn cut(&mut self)
        requires may_cut { (h : Feed) × (self.old.view.seen ≡ h) × (closes h ≡ collects h) × (0 < kept h) × (ended h ≡ false) }
        ensures cut { (h : Feed) → self.old.view.seen ≡ h → self.new.view.seen ≡ Cut ∷ h }
        ensures post { post_of self.new ≡ post_of self.old }
        ensures turn { TookTurn self.old.view self.new.view CutGives }
    {
        self.lock.turn(self.rt, &mut self.pass, move |book: &mut Book| cut_in(book));
    }

    fn end(&mut self)
        requires known { (h : Feed) × (self.old.view.seen ≡ h) }
        ensures end { (h : Feed) → self.old.view.seen ≡ h → self.new.view.seen ≡ (if ended h then h else End ∷ h) }
        ensures post { post_of self.new ≡ post_of self.old }
        ensures turn { TookTurn self.old.view self.new.view EndGives }
    {
        self.lock.turn(self.rt, &mut self.pass, move |book: &mut Book| end_in(book));
    }

    fn closed(&mut self) -> u64
        requires known { (h : Feed) × (self.old.view.seen ≡ h) }
        ensures value { (h : Feed) → self.old.view.seen ≡ h → result ≡ closes h }
        ensures stands { (h : Feed) → self.old.view.seen ≡ h → self.new.view.seen ≡ h }
        ensures post { post_of self.new ≡ post_of self.old }
        ensures turn { TookTurn self.old.view self.new.view (ClosedGives result) }
    {
        self.lock.turn(
            self.rt,
            &mut self.pass,
            move |book: &mut Book| closed_in(book),
        )
    }

    fn collected(&mut self) -> u64
        requires known { (h : Feed) × (self.old.view.seen ≡ h) }
        ensures value { (h : Feed) → self.old.view.seen ≡ h → result ≡ collects h }
        ensures stands { (h : Feed) → self.old.view.seen ≡ h → self.new.view.seen ≡ h }
        ensures post { post_of self.new ≡ post_of self.old }
        ensures turn { TookTurn self.old.view self.new.view (CollectedGives result) }
    {
        self.lock.turn(
            self.rt,
            &mut self.pass,
            move |book: &mut Book| collected_in(book),
        )
    }

    fn kept(&mut self) -> u64
        requires known { (h : Feed) × (self.old.view.seen ≡ h) }
        ensures value { (h : Feed) → self.old.view.seen ≡ h → result ≡ kept h }
        ensures stands { (h : Feed) → self.old.view.seen ≡ h → self.new.view.seen ≡ h }
        ensures post { post_of self.new ≡ post_of self.old }
        ensures turn { TookTurn self.old.view self.new.view (KeptGives result) }
    {
        self.lock.turn(
            self.rt,
            &mut self.pass,
            move |book: &mut Book| kept_in(book),
        )
    }

    fn issued(&mut self) -> u64
        requires known { (h : Feed) × (self.old.view.seen ≡ h) }
        ensures value { (h : Feed) → self.old.view.seen ≡ h → collects h ≡ closes h → result ≡ due g726 h }
        ensures stands { (h : Feed) → self.old.view.seen ≡ h → self.new.view.seen ≡ h }
        ensures post { post_of self.new ≡ post_of self.old }
        ensures turn { TookTurn self.old.view self.new.view (IssuedGives result) }
    {
        self.lock.turn(
            self.rt,
            &mut self.pass,
            move |book: &mut Book| issued_in(book),
        )
    }
}
