//! What is left after the last tick.
ghost use Rattle.std.specs.Prelude.{◌≡◌, ◌≤◌, OnOk, OnErr, IfOk};
ghost use Rattle.edge_io.specs.Answers.{put_failed};
ghost use Rattle.edge_io.specs.Told.{Counts, Grows, GrowsByFront};
ghost use Rattle.conference_spec.specs.Codec.{g726};
ghost use Rattle.conference_spec.specs.Feed.{Feed};
ghost use Rattle.conference_spec.specs.Packets.{rest};
ghost use Rattle.session_spec.specs.Talkers.{Events};
ghost use Rattle.session_spec.specs.Events.{feed_of};
ghost use Rattle.session_spec.specs.Answer.{tick_text};
ghost use Rattle.desk_run.specs.BookSide.{StandsFor, IsEven};
ghost use Rattle.desk_run.specs.Whole.{Leaves, TellsSame};

use crate::sides::DeskSide;
use crate::writing::write_packet;
use crate::written::counted;
use edge_io::{PutFault, Sink};
use rtp_dump::DumpWriter;
use session_spec::Summary;
use std::alloc::Global;
use tick_core::Book;

/// Ends a session whose ticks were all run and written: what is left goes out, and the session is summed up.
///
/// The Book may have collected at other places than the session's feed says, as long as both tell the same in the end.
///
/// # Errors
///
/// What the sink answered; `Memory` also where there are more packets than 64 bits can count. Then a front of what is left
/// was written.
pub fn sum_up<K: Sink, D: DeskSide>(
    alloc: Global,
    ticks: u32,
    packets: u64,
    desk: &D,
    book: &Book,
    out: &mut K,
) -> Result<Summary, PutFault>
    requires even { IsEven book.now }
    requires short { ticks ≤ 4320000 }
    ensures left { IfOk result (λ summary. (h : Events) (f : Feed) → D.begins desk.now h → StandsFor book.now f → TellsSame f (feed_of h) →
        Leaves ticks packets (K.held out.old) (K.held out.new) h summary) }
    ensures fault { OnErr result ((f : Feed) → StandsFor book.now f → GrowsByFront (K.held out.old) (K.held out.new) (tick_text ticks (rest g726 f))) }
    ensures counts { Counts (K.faults out.old) (put_failed result) (K.faults out.new) }
{
    write_leftovers(alloc, ticks, book, out)?;
    let Ok(packets) = counted(packets, book.rests()) else {
        return Err(PutFault::Memory);
    };
    Ok(Summary {
        ticks: u64::from(ticks),
        runs: book.issued(),
        packets,
        refused: desk.refused(),
    })
}

/// Writes what is left after so many ticks, each packet as a record one tick later.
///
/// # Errors
///
/// What the sink answered. Then a front of these records was written.
pub(crate) fn write_leftovers<K: Sink>(
    alloc: Global,
    ticks: u32,
    book: &Book,
    out: &mut K,
) -> Result<(), PutFault>
    requires even { IsEven book.now }
    requires short { ticks ≤ 4320000 }
    ensures whole { OnOk result ((f : Feed) → StandsFor book.now f → Grows (K.held out.old) (K.held out.new) (tick_text ticks (rest g726 f))) }
    ensures fault { OnErr result ((f : Feed) → StandsFor book.now f → GrowsByFront (K.held out.old) (K.held out.new) (tick_text ticks (rest g726 f))) }
    ensures counts { Counts (K.faults out.old) (put_failed result) (K.faults out.new) }
{
    let mut writer = DumpWriter::new(out);
    let end = write_each(alloc, ticks, book, &mut writer);
    let _out = writer.into_sink();
    end
}

/// The same over a writer, packet by packet.
fn write_each<K: Sink>(
    alloc: Global,
    ticks: u32,
    book: &Book,
    writer: &mut DumpWriter<K>,
) -> Result<(), PutFault>
    requires even { IsEven book.now }
    requires short { ticks ≤ 4320000 }
    ensures same_sink { writer.new.ghost_name ≡ writer.old.ghost_name }
    ensures whole { OnOk result ((f : Feed) → StandsFor book.now f →
        Grows (K.held writer.old.sink) (K.held writer.new.sink) (tick_text ticks (rest g726 f))) }
    ensures fault { OnErr result ((f : Feed) → StandsFor book.now f →
        GrowsByFront (K.held writer.old.sink) (K.held writer.new.sink) (tick_text ticks (rest g726 f))) }
    ensures counts { Counts (K.faults writer.old.sink) (put_failed result) (K.faults writer.new.sink) }
{
    for i in 0..book.rests() {
        write_packet(alloc, writer, ticks, &book.rest(i))?;
    }
    Ok(())
}
