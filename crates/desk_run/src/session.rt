//! All ticks of a session.
ghost use Rattle.std.specs.Prelude.{◌≡◌, ◌<◌, ◌≤◌, [], None, IfOk, IfErr, IfSome, OnOk, IsErrOf};
ghost use Rattle.edge_io.specs.Told.{Counts, Rose};
ghost use Rattle.conference_spec.specs.Feed.{closes};
ghost use Rattle.session_spec.specs.Talkers.{Events};
ghost use Rattle.session_spec.specs.Events.{feed_of};
ghost use Rattle.desk_run.specs.Taking.{IsGoing};
ghost use Rattle.desk_run.specs.Stops.{write_failed};
ghost use Rattle.desk_run.specs.Ends.{AllRun, OnStop};

use crate::sides::{Conference, DeskSide};
use crate::stops::Stop;
use crate::ticks::run_tick;
use crate::writing::write_rest;
use crate::written::Written;
use edge_io::{Sink, Source};
use rtp_dump::{DumpWriter, Reader};
use std::alloc::Global;

/// Runs all ticks of a session, over what lies ahead of a reader. Answers how many packets were sent.
///
/// # Errors
///
/// What ended the session. Where the capture has a fault, or a read failed, the ticks before the one that met it were written;
/// after a failed write, or want of memory, a front of what the session writes.
pub(crate) fn run_ticks<S: Source, K: Sink, D: DeskSide, C: Conference>(
    alloc: Global,
    ticks: u32,
    reader: &mut Reader<S>,
    desk: &mut D,
    conference: &mut C,
    writer: &mut DumpWriter<K>,
) -> Result<u64, Stop>
    requires stands { D.begins desk.old [] × C.stands conference.old [] 0 }
    requires short { ticks < 4320001 }
    requires going { IsGoing reader.old }
    requires bare { reader.old.held ≡ None }
    ensures same_source { reader.new.ghost_name ≡ reader.old.ghost_name }
    ensures same_sink { writer.new.ghost_name ≡ writer.old.ghost_name }
    ensures ran { IfOk result (λ packets. IfSome (S.rest reader.old.source) (λ rest.
        AllRun reader.old rest (S.rest reader.new.source) (D.plan desk.old) ticks (K.held writer.old.sink) (K.held writer.new.sink)
        (λ h. D.begins desk.new h) (λ f. C.stands conference.new f ticks) packets)) }
    ensures stands { OnOk result ((h : Events) × D.begins desk.new h × C.stands conference.new (feed_of h) ticks × (closes (feed_of h) ≡ ticks)) }
    ensures stopped { IfErr result (λ stop. IfSome (S.rest reader.old.source) (λ rest.
        OnStop reader.old rest (S.rest reader.new.source) (D.plan desk.old) ticks (K.held writer.old.sink) (K.held writer.new.sink) stop)) }
    ensures post { C.post conference.new ≡ C.post conference.old }
    ensures read { IsErrOf result Stop.Read → Rose (S.faults reader.old.source) (S.faults reader.new.source) }
    ensures never_falls { S.faults reader.old.source ≤ S.faults reader.new.source }
    ensures counts { Counts (K.faults writer.old.sink) (write_failed result) (K.faults writer.new.sink) }
{
    let mut written = Written::nothing();
    for tick in 0..ticks {
        run_tick(alloc, tick, reader, desk, conference, writer, &mut written)?;
    }
    write_rest(alloc, ticks, conference, writer, &mut written)?;
    Ok(written.packets())
}
