//! A whole session, from a capture to a sink.
ghost use Rattle.std.specs.Prelude.{◌≡◌, ◌<◌, ◌≤◌, [], None, IfOk, IfErr, IfSome, OnOk, IsErrOf};
ghost use Rattle.edge_io.specs.Told.{Counts, Rose};
ghost use Rattle.rtp_dump.specs.Reading.{IsFresh};
ghost use Rattle.conference_spec.specs.Feed.{closes};
ghost use Rattle.session_spec.specs.Talkers.{Events};
ghost use Rattle.session_spec.specs.Events.{feed_of};
ghost use Rattle.desk_run.specs.BookSide.{StandsFor};
ghost use Rattle.desk_run.specs.Stops.{write_failed};
ghost use Rattle.desk_run.specs.Whole.{HasRun, HasStopped, RunEnds, run_write_failed};

use crate::leftovers::sum_up;
use crate::session::run_ticks;
use crate::sides::{Conference, DeskSide};
use crate::stops::Stop;
use edge_io::{Sink, Source};
use rtp_dump::{DumpKind, DumpWriter, Reader};
use session_spec::Summary;
use std::alloc::Global;
use tick_core::Book;

/// How a run ended.
#[derive(Clone, Copy, PartialEq, Eq, Debug)]
pub enum RunEnd {
    /// Every tick was run, and the whole answer was written.
    Done(Summary),
    /// The capture is broken at this octet, counted from 0.
    Dump { at: u64, kind: DumpKind },
    /// A read failed.
    Read,
    /// A write failed.
    Write,
    /// There was no memory, or there are more packets than 64 bits can count.
    Memory,
}

impl From<Stop> for RunEnd {
    ghost use Rattle.desk_run.specs.Whole.{end_of};

    ghost from_gives = { λ stop end. end ≡ end_of stop };

    fn from(stop: Stop) -> RunEnd {
        match stop {
            Stop::Dump { at, kind } => RunEnd::Dump { at, kind },
            Stop::Read => RunEnd::Read,
            Stop::Write => RunEnd::Write,
            Stop::Memory => RunEnd::Memory,
        }
    }
}

/// Runs all ticks of a session over a capture, and writes their packets behind the head of the answer. Answers how many packets
/// that were. What no full packet has carried by then stays in the conference.
///
/// The capture is read up to and with the record that ends the last tick, and no further.
///
/// # Errors
///
/// What ended the session. Where the capture has a fault, or a read failed, the ticks before the one that met it were written;
/// after a failed write, or want of memory, a front of what the session writes.
pub fn run_session<S: Source, K: Sink, D: DeskSide, C: Conference>(
    alloc: Global,
    ticks: u32,
    desk: &mut D,
    conference: &mut C,
    dump: &mut S,
    out: &mut K,
) -> Result<u64, Stop>
    requires stands { D.begins desk.old [] × C.stands conference.old [] 0 }
    requires short { ticks < 4320001 }
    ensures ran { IfOk result (λ packets. IfSome (S.rest dump.old) (λ bytes.
        HasRun (record { plan = D.plan desk.old; ticks = ticks; bytes = bytes })
        (record { left = S.rest dump.new; old = K.held out.old; new = K.held out.new })
        (λ h. D.begins desk.new h) (λ f. C.stands conference.new f ticks) packets)) }
    ensures stands { OnOk result ((h : Events) × D.begins desk.new h × C.stands conference.new (feed_of h) ticks × (closes (feed_of h) ≡ ticks)) }
    ensures stopped { IfErr result (λ stop. IfSome (S.rest dump.old) (λ bytes.
        HasStopped (record { plan = D.plan desk.old; ticks = ticks; bytes = bytes })
        (record { left = S.rest dump.new; old = K.held out.old; new = K.held out.new }) stop)) }
    ensures post { C.post conference.new ≡ C.post conference.old }
    ensures read { IsErrOf result Stop.Read → Rose (S.faults dump.old) (S.faults dump.new) }
    ensures never_falls { S.faults dump.old ≤ S.faults dump.new }
    ensures counts { Counts (K.faults out.old) (write_failed result) (K.faults out.new) }
{
    let mut reader = Reader::new(dump);
    let mut writer = DumpWriter::new(out);
    let end = run_whole(alloc, ticks, &mut reader, desk, conference, &mut writer);
    let _dump = reader.into_source();
    let _out = writer.into_sink();
    end
}

/// The same over a reader and a writer: the heads, and then the ticks.
fn run_whole<S: Source, K: Sink, D: DeskSide, C: Conference>(
    alloc: Global,
    ticks: u32,
    reader: &mut Reader<S>,
    desk: &mut D,
    conference: &mut C,
    writer: &mut DumpWriter<K>,
) -> Result<u64, Stop>
    requires stands { D.begins desk.old [] × C.stands conference.old [] 0 }
    requires short { ticks < 4320001 }
    requires fresh { IsFresh reader.old × (reader.old.held ≡ None) }
    ensures same_source { reader.new.ghost_name ≡ reader.old.ghost_name }
    ensures same_sink { writer.new.ghost_name ≡ writer.old.ghost_name }
    ensures ran { IfOk result (λ packets. IfSome (S.rest reader.old.source) (λ bytes.
        HasRun (record { plan = D.plan desk.old; ticks = ticks; bytes = bytes })
        (record { left = S.rest reader.new.source; old = K.held writer.old.sink; new = K.held writer.new.sink })
        (λ h. D.begins desk.new h) (λ f. C.stands conference.new f ticks) packets)) }
    ensures stands { OnOk result ((h : Events) × D.begins desk.new h × C.stands conference.new (feed_of h) ticks × (closes (feed_of h) ≡ ticks)) }
    ensures stopped { IfErr result (λ stop. IfSome (S.rest reader.old.source) (λ bytes.
        HasStopped (record { plan = D.plan desk.old; ticks = ticks; bytes = bytes })
        (record { left = S.rest reader.new.source; old = K.held writer.old.sink; new = K.held writer.new.sink }) stop)) }
    ensures post { C.post conference.new ≡ C.post conference.old }
    ensures read { IsErrOf result Stop.Read → Rose (S.faults reader.old.source) (S.faults reader.new.source) }
    ensures never_falls { S.faults reader.old.source ≤ S.faults reader.new.source }
    ensures counts { Counts (K.faults writer.old.sink) (write_failed result) (K.faults writer.new.sink) }
{
    reader.head()?;
    writer.head(alloc)?;
    run_ticks(alloc, ticks, reader, desk, conference, writer)
}

/// Runs a session of so many ticks over a capture on this thread, and writes its answer: the packets of each tick, and after
/// the last one those of what is left, a tick later. The Book is one that nothing has happened to.
pub fn run_alone<S: Source, K: Sink, D: DeskSide>(
    alloc: Global,
    ticks: u32,
    desk: &mut D,
    book: &mut Book,
    dump: &mut S,
    out: &mut K,
) -> RunEnd
    requires stands { D.begins desk.old [] × StandsFor book.old [] }
    requires short { ticks < 4320001 }
    ensures told { IfSome (S.rest dump.old) (λ bytes.
        RunEnds (record { plan = D.plan desk.old; ticks = ticks; bytes = bytes })
        (record { left = S.rest dump.new; old = K.held out.old; new = K.held out.new }) (λ f. StandsFor book.new f) result) }
    ensures read { result ≡ RunEnd.Read → Rose (S.faults dump.old) (S.faults dump.new) }
    ensures never_falls { S.faults dump.old ≤ S.faults dump.new }
    ensures counts { Counts (K.faults out.old) (run_write_failed result) (K.faults out.new) }
{
    match run_session(alloc, ticks, desk, book, dump, out) {
        Ok(packets) => match sum_up(alloc, ticks, packets, desk, book, out) {
            Ok(summary) => RunEnd::Done(summary),
            Err(fault) => RunEnd::from(Stop::from(fault)),
        },
        Err(stop) => RunEnd::from(stop),
    }
}
