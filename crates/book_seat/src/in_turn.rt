//! What is done to the Book in each turn: its call of the same name, said as a step of the core.

ghost use Rattle.std.specs.Prelude.{◌≡◌, ◌≤◌};
ghost use Rattle.tick_core.specs.Standing.{BeforeEnd, CanCut, IsKnown};
ghost use Rattle.book_seat.specs.Steps.{JoinGives, LeaveGives, CloseGives, CollectGives, CutGives, EndGives, ClosedGives, CollectedGives, KeptGives, IssuedGives, ClaimGives, PublishGives, BackGives};
ghost use Rattle.book_seat.specs.Taken.{Steps};

use talk_mix::Tick;
use tick_core::{Absent, Book, Claim, CloseFault, Done, Job, JoinFault, JoinSpec, NotYet, Packets};

pub(crate) fn join_in(book: &mut Book, spec: JoinSpec) -> Result<(), JoinFault>
    requires before_end { BeforeEnd book.old }
    requires payload_type { spec.pt ≤ 127 }
    requires ticks { (1 ≤ spec.ticks) × (spec.ticks ≤ 4) }
    ensures { Steps (JoinGives spec result) book.old book.new }
{
    book.join(spec)
}

pub(crate) fn leave_in(book: &mut Book, member: u32) -> Result<(), Absent>
    requires { BeforeEnd book.old }
    ensures { Steps (LeaveGives member result) book.old book.new }
{
    book.leave(member)
}

pub(crate) fn close_in(book: &mut Book, tick: Tick) -> Result<(), CloseFault>
    requires { BeforeEnd book.old }
    ensures { Steps (CloseGives tick result) book.old book.new }
{
    book.close(tick)
}

pub(crate) fn collect_in(book: &mut Book) -> Result<Packets, NotYet>
    requires { IsKnown book.old }
    ensures { Steps (CollectGives result) book.old book.new }
{
    book.collect()
}

pub(crate) fn cut_in(book: &mut Book)
    requires { CanCut book.old }
    ensures { Steps CutGives book.old book.new }
{
    book.cut();
}

pub(crate) fn end_in(book: &mut Book)
    requires { IsKnown book.old }
    ensures { Steps EndGives book.old book.new }
{
    book.end();
}

pub(crate) fn closed_in(book: &mut Book) -> u64
    ensures { Steps (ClosedGives result) book.old book.new }
{
    book.closed()
}

pub(crate) fn collected_in(book: &mut Book) -> u64
    ensures { Steps (CollectedGives result) book.old book.new }
{
    book.collected()
}

pub(crate) fn kept_in(book: &mut Book) -> u64
    ensures { Steps (KeptGives result) book.old book.new }
{
    book.kept()
}

pub(crate) fn issued_in(book: &mut Book) -> u64
    ensures { Steps (IssuedGives result) book.old book.new }
{
    book.issued()
}

pub(crate) fn claim_in(book: &mut Book) -> Claim
    requires { IsKnown book.old }
    ensures { Steps (ClaimGives result) book.old book.new }
{
    book.claim()
}

pub(crate) fn publish_in(book: &mut Book, done: Done) -> Result<(), Done>
    requires { IsKnown book.old }
    ensures { Steps (PublishGives done result) book.old book.new }
{
    book.publish(done)
}

pub(crate) fn give_back_in(book: &mut Book, job: Job) -> Result<(), Job>
    requires { IsKnown book.old }
    ensures { Steps (BackGives job result) book.old book.new }
{
    book.give_back(job)
}
