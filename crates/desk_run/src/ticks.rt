//! One tick of a session.
ghost use Rattle.std.specs.Prelude.{◌≡◌, ◌<◌, ◌≤◌, ◌+◌, ◌*◌, ℕ, List, Option, OnOk, OnErr, IfErr, IsErrOf};
ghost use Rattle.edge_io.specs.Answers.{put_failed};
ghost use Rattle.edge_io.specs.Told.{Counts, Grows, GrowsByFront, Rose};
ghost use Rattle.conference_spec.specs.Codec.{g726};
ghost use Rattle.conference_spec.specs.Feed.{Feed, closes, kept};
ghost use Rattle.session_spec.specs.Talkers.{Events};
ghost use Rattle.session_spec.specs.Events.{feed_of, after_cut, kept_before};
ghost use Rattle.session_spec.specs.Answer.{ticks_text};
ghost use Rattle.desk_run.specs.Taking.{IsGoing};
ghost use Rattle.desk_run.specs.Stops.{is_write, write_failed};
ghost use Rattle.desk_run.specs.Ends.{Between, HasWritten, GivesUp, HearsTick, TickStops};

use crate::hearing::hear;
use crate::sides::{Conference, DeskSide};
use crate::stops::Stop;
use crate::writing::{write_rest, write_ticks};
use crate::written::Written;
use edge_io::{PutFault, Sink, Source};
use rtp_dump::{DumpFault, DumpWriter, Reader};
use std::alloc::Global;

/// After so many ticks a conference is cut.
const TICKS_A_CUT: u32 = 9000;

/// Runs one tick: the cut where it begins with one, its commands, its records, the frames, the close, and the packets of the
/// ticks that are ready.
///
/// # Errors
///
/// What ended the session. Where the reader gave up, the ticks before this one were written; else a front of what the session
/// writes.
pub(crate) fn run_tick<S: Source, K: Sink, D: DeskSide, C: Conference>(
    alloc: Global,
    tick: u32,
    reader: &mut Reader<S>,
    desk: &mut D,
    conference: &mut C,
    writer: &mut DumpWriter<K>,
    written: &mut Written,
) -> Result<(), Stop>
    requires stands { (start : Option (List ℕ)) × (h : Events) ×
        Between (λ e. D.begins desk.old e) (λ f n. C.stands conference.old f n) start (K.held writer.old.sink) written.old tick h }
    requires early { tick < 4320000 }
    requires going { IsGoing reader.old }
    ensures same_source { reader.new.ghost_name ≡ reader.old.ghost_name }
    ensures same_sink { writer.new.ghost_name ≡ writer.old.ghost_name }
    ensures going { OnOk result (IsGoing reader.new) }
    ensures plan { D.plan desk.new ≡ D.plan desk.old }
    ensures post { C.post conference.new ≡ C.post conference.old }
    ensures ran { OnOk result (HearsTick (λ s. S.rest s) reader.old reader.new (D.plan desk.old) tick
        (λ start h. Between (λ e. D.begins desk.old e) (λ f n. C.stands conference.old f n) start (K.held writer.old.sink) written.old tick h)
        (λ start h. Between (λ e. D.begins desk.new e) (λ f n. C.stands conference.new f n) start (K.held writer.new.sink) written.new (tick + 1) h)) }
    ensures stopped { IfErr result (λ stop. TickStops (λ s. S.rest s) reader.old reader.new (D.plan desk.old) tick
        (λ start h. Between (λ e. D.begins desk.old e) (λ f n. C.stands conference.old f n) start (K.held writer.old.sink) written.old tick h)
        (K.held writer.new.sink) stop) }
    ensures read { IsErrOf result Stop.Read → Rose (S.faults reader.old.source) (S.faults reader.new.source) }
    ensures never_falls { S.faults reader.old.source ≤ S.faults reader.new.source }
    ensures counts { Counts (K.faults writer.old.sink) (write_failed result) (K.faults writer.new.sink) }
{
    begin(alloc, tick, conference, writer, written)?;
    desk.commands(alloc, tick, conference)?;
    if let Err(fault) = hear(alloc, reader, desk, 20 * (tick + 1)) {
        return Err(give_up(alloc, tick, fault, conference, writer, written));
    }
    let ticks = conference.encode(alloc, desk.frames())?;
    write_ticks(alloc, writer, written, &ticks)?;
    Ok(())
}

/// Begins a tick. Where it begins with a cut, the ticks before it are handed out and written, and the conference is cut.
///
/// # Errors
///
/// What the sink answered. Then a front of the ticks before was written.
fn begin<K: Sink, C: Conference>(
    alloc: Global,
    tick: u32,
    conference: &mut C,
    writer: &mut DumpWriter<K>,
    written: &mut Written,
) -> Result<(), PutFault>
    requires stands { (h : Events) × C.stands conference.old (feed_of h) written.old.ticks × (closes (feed_of h) ≡ tick)
        × (kept (feed_of h) ≡ kept_before tick) }
    requires early { tick < 4320000 }
    requires behind { written.old.ticks ≤ tick }
    ensures same_sink { writer.new.ghost_name ≡ writer.old.ghost_name }
    ensures behind { OnOk result (written.new.ticks ≤ tick) }
    ensures stands { OnOk result ((h : Events) → C.stands conference.old (feed_of h) written.old.ticks → closes (feed_of h) ≡ tick →
        C.stands conference.new (feed_of (after_cut tick h)) written.new.ticks) }
    ensures whole { OnOk result ((start : Option (List ℕ)) (h : Events) → C.stands conference.old (feed_of h) written.old.ticks →
        closes (feed_of h) ≡ tick → HasWritten start (K.held writer.old.sink) written.old (feed_of h) →
        HasWritten start (K.held writer.new.sink) written.new (feed_of (after_cut tick h))) }
    ensures fault { OnErr result ((start : Option (List ℕ)) (h : Events) → C.stands conference.old (feed_of h) written.old.ticks →
        closes (feed_of h) ≡ tick → HasWritten start (K.held writer.old.sink) written.old (feed_of h) →
        GrowsByFront start (K.held writer.new.sink) (ticks_text g726 tick (feed_of h))) }
    ensures post { C.post conference.new ≡ C.post conference.old }
    ensures counts { Counts (K.faults writer.old.sink) (put_failed result) (K.faults writer.new.sink) }
{
    if tick > 0 && tick % TICKS_A_CUT == 0 {
        write_rest(alloc, tick, conference, writer, written)?;
        conference.cut();
    }
    Ok(())
}

/// Writes the ticks that were closed before the reader gave up, unless that was for want of memory, and says what then ended
/// the session.
fn give_up<K: Sink, C: Conference>(
    alloc: Global,
    tick: u32,
    fault: DumpFault,
    conference: &mut C,
    writer: &mut DumpWriter<K>,
    written: &mut Written,
) -> Stop
    requires stands { (f : Feed) × C.stands conference.old f written.old.ticks × (closes f ≡ tick) }
    requires early { tick < 4320000 }
    requires behind { written.old.ticks ≤ tick }
    ensures same_sink { writer.new.ghost_name ≡ writer.old.ghost_name }
    ensures gives_up { GivesUp fault
        ((start : Option (List ℕ)) (f : Feed) → C.stands conference.old f written.old.ticks → closes f ≡ tick →
        HasWritten start (K.held writer.old.sink) written.old f → Grows start (K.held writer.new.sink) (ticks_text g726 tick f))
        ((start : Option (List ℕ)) (f : Feed) → C.stands conference.old f written.old.ticks → closes f ≡ tick →
        HasWritten start (K.held writer.old.sink) written.old f → GrowsByFront start (K.held writer.new.sink) (ticks_text g726 tick f))
        result }
    ensures post { C.post conference.new ≡ C.post conference.old }
    ensures counts { Counts (K.faults writer.old.sink) (is_write result) (K.faults writer.new.sink) }
{
    match fault {
        DumpFault::Memory => Stop::Memory,
        DumpFault::Bad { .. } | DumpFault::Read => {
            match write_rest(alloc, tick, conference, writer, written) {
                Ok(()) => Stop::from(fault),
                Err(put) => Stop::from(put),
            }
        }
    }
}
