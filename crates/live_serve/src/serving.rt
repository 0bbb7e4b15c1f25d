//! The call of the program.
ghost use Rattle.std.specs.Prelude.{◌≡◌, ◌≢◌, ◌≤◌, ◌⊎◌, ℕ, List, false, IfErr, IfSome, IsErrOf, None};
ghost use Rattle.edge_io.specs.Told.{Grows, Rose};
ghost use Rattle.edge_io.specs.File.{content};
ghost use Rattle.program_edge.specs.Report.{Tells, TellsAfter};
ghost use Rattle.udp_edge.specs.Known.{peer_at};
ghost use Rattle.live_serve.specs.CommandLine.{form_of};
ghost use Rattle.live_serve.specs.Asked.{asked, session_of, OnEnd, OnSession, MayAsk};
ghost use Rattle.live_serve.specs.Texts.{line_of, summary_line};
ghost use Rattle.live_serve.specs.Ends.{MayEnd, IsAskedEnd, IsSessionEnd, IsRunEnd, IsWorkEnd, IsBeforeOpen, CallEnds, WorkEnds, EndsEarly, Reported, PortTold, WorkPort};

use crate::preparing::{Prepared, prepare};
use crate::status::ServeStatus;
use crate::texts::{fault_line, summary_text};
use edge_io::{Failed, Shelf, Sink, Words, write_all};
use live_run::{LiveEnd, run_live};
use live_spec::LiveSummary;
use program_edge::tell_once;
use std::alloc::Global;
use udp_edge::{Clock, Link};

/// Runs a live session: `PORT PEERS ROSTER`.
///
/// `words` are those of the command line after the program's name. The roster and the peers are taken from `shelf`, the link
/// is opened at the port, the session is run over it with the times of `clock`, and what became of it is written to `err`, as
/// one line.
pub fn serve<F: Shelf, L: Link, C: Clock, E: Sink>(
    alloc: Global,
    words: &Words,
    shelf: &mut F,
    link: &mut L,
    clock: &mut C,
    err: &mut E,
) -> ServeStatus
    // The words decide first, and without them nothing is used.
    ensures usage { form_of words.now ≡ None → (result ≡ ServeStatus.Usage) × (shelf.new ≡ shelf.old) }

    // What words and files ask for ends the call so, unless a read fails or there is no memory; and nothing else ends it so.
    ensures asked_end { OnEnd (asked (form_of words.now) (F.file shelf.old)) (λ status.
        MayEnd result status × (link.new ≡ link.old) × (clock.new ≡ clock.old)) }
    ensures only { IsAskedEnd result → MayAsk (form_of words.now) (F.file shelf.old) result }

    // A session that is asked is run: what was tried, what it came to, and what is told of it.
    ensures session { OnSession (asked (form_of words.now) (F.file shelf.old)) (λ session.
        IfSome (L.traffic link.old) (λ told. IfSome (C.answers clock.old) (λ answers.
        CallEnds session told answers (L.traffic link.new) (E.held err.old) (E.held err.new)
        (Rose (E.faults err.old) (E.faults err.new) ⊎ Rose (E.lacks err.old) (E.lacks err.new)) result))) }
    ensures complete { OnSession (asked (form_of words.now) (F.file shelf.old)) (λ session. IsSessionEnd result) }

    // A failed call has its count.
    ensures read { result ≡ ServeStatus.ReadFault → Rose (F.faults shelf.old) (F.faults shelf.new) }
    ensures link { result ≡ ServeStatus.LinkFault →
        Rose (L.faults link.old) (L.faults link.new) × (L.is_open link.new ≡ false) }
    ensures write { result ≡ ServeStatus.WriteFault → Rose (E.faults err.old) (E.faults err.new) }
    ensures calm { IfSome (form_of words.now) (λ form. (roster peers : List ℕ) → F.file shelf.old form.roster ≡ content roster →
        F.file shelf.old form.peers ≡ content peers → F.calm shelf.old → F.faults shelf.new ≡ F.faults shelf.old) }

    // What stands on the link and on the error stream.
    ensures port { IfSome (form_of words.now) (λ form. PortTold result (L.traffic link.old) (L.traffic link.new) form.port) }
    ensures untouched { IsBeforeOpen result → (link.new ≡ link.old) × (clock.new ≡ clock.old) }
    ensures reported { Reported result (E.held err.old) (E.held err.new)
        (Rose (E.faults err.old) (E.faults err.new) ⊎ Rose (E.lacks err.old) (E.lacks err.new)) }
{
    match work(alloc, words, shelf, link, clock) {
        Ok(summary) => finish(alloc, err, summary),
        Err(status) => report(alloc, err, status),
    }
}

/// The steps of the call, up to its summary.
fn work<F: Shelf, L: Link, C: Clock>(
    alloc: Global,
    words: &Words,
    shelf: &mut F,
    link: &mut L,
    clock: &mut C,
) -> Result<LiveSummary, ServeStatus>
    ensures usage { form_of words.now ≡ None → IsErrOf result ServeStatus.Usage × (shelf.new ≡ shelf.old) }
    ensures asked_end { OnEnd (asked (form_of words.now) (F.file shelf.old)) (λ status.
        EndsEarly result status × (link.new ≡ link.old) × (clock.new ≡ clock.old)) }
    ensures only { IfErr result (λ end. IsAskedEnd end → MayAsk (form_of words.now) (F.file shelf.old) end) }
    ensures session { OnSession (asked (form_of words.now) (F.file shelf.old)) (λ session.
        IfSome (L.traffic link.old) (λ told. IfSome (C.answers clock.old) (λ answers. WorkEnds session told answers (L.traffic link.new) result))) }
    ensures complete { OnSession (asked (form_of words.now) (F.file shelf.old)) (λ session. IfErr result IsSessionEnd) }
    ensures ends { IfErr result IsWorkEnd }
    ensures read { IsErrOf result ServeStatus.ReadFault → Rose (F.faults shelf.old) (F.faults shelf.new) }
    ensures link { IsErrOf result ServeStatus.LinkFault → Rose (L.faults link.old) (L.faults link.new) × (L.is_open link.new ≡ false) }
    ensures calm { IfSome (form_of words.now) (λ form. (roster peers : List ℕ) → F.file shelf.old form.roster ≡ content roster →
        F.file shelf.old form.peers ≡ content peers → F.calm shelf.old → F.faults shelf.new ≡ F.faults shelf.old) }
    ensures port { IfSome (form_of words.now) (λ form. WorkPort result (L.traffic link.old) (L.traffic link.new) form.port) }
    ensures untouched { IfErr result (λ end. IsBeforeOpen end → (link.new ≡ link.old) × (clock.new ≡ clock.old)) }
{
    match prepare(alloc, words, shelf) {
        Ok(prepared) => run(alloc, prepared, link, clock),
        Err(status) => Err(status),
    }
}

/// Opens the link and runs the session.
fn run<L: Link, C: Clock>(
    alloc: Global,
    prepared: Prepared,
    link: &mut L,
    clock: &mut C,
) -> Result<LiveSummary, ServeStatus>
    ensures told { IfSome (L.traffic link.old) (λ told. IfSome (C.answers clock.old) (λ answers.
        WorkEnds (session_of prepared.port prepared.roster (peer_at prepared.peers)) told answers (L.traffic link.new) result)) }
    ensures ends { IfErr result IsRunEnd }
    ensures link { IsErrOf result ServeStatus.LinkFault → Rose (L.faults link.old) (L.faults link.new) × (L.is_open link.new ≡ false) }
    ensures port { WorkPort result (L.traffic link.old) (L.traffic link.new) prepared.port }
{
    let Prepared {
        port,
        roster,
        peers,
    } = prepared;
    if let Err(Failed) = link.open(port) {
        return Err(ServeStatus::LinkFault);
    }
    match run_live(alloc, roster, &peers, link, clock) {
        LiveEnd::Done(summary) => Ok(summary),
        LiveEnd::Memory => Err(ServeStatus::Memory),
    }
}

/// Writes the line of a status other than Done to `err`, tried once. Its failure changes no status.
pub fn report<E: Sink>(alloc: Global, err: &mut E, status: ServeStatus) -> ServeStatus
    ensures same { result ≡ status }
    ensures line { Tells (E.held err.old) (E.held err.new) (line_of status)
        (Rose (E.faults err.old) (E.faults err.new) ⊎ Rose (E.lacks err.old) (E.lacks err.new)) }
    ensures never_falls { E.faults err.old ≤ E.faults err.new }
    ensures lacks_never_fall { E.lacks err.old ≤ E.lacks err.new }
{
    tell_once(alloc, err, &fault_line(status));
    status
}

/// Writes the summary's line, and where that fails the line of the fault.
fn finish<E: Sink>(alloc: Global, err: &mut E, summary: LiveSummary) -> ServeStatus
    ensures done { result ≡ ServeStatus.Done → Grows (E.held err.old) (E.held err.new) (summary_line summary) }
    ensures ends { (result ≡ ServeStatus.Done) ⊎ (result ≡ ServeStatus.WriteFault) ⊎ (result ≡ ServeStatus.Memory) }
    ensures write { result ≡ ServeStatus.WriteFault → Rose (E.faults err.old) (E.faults err.new) }
    ensures fault { result ≢ ServeStatus.Done → TellsAfter (E.held err.old) (E.held err.new) (summary_line summary) (line_of result)
        (Rose (E.faults err.old) (E.faults err.new) ⊎ Rose (E.lacks err.old) (E.lacks err.new)) }
    ensures rose { result ≢ ServeStatus.Done →
        Rose (E.faults err.old) (E.faults err.new) ⊎ Rose (E.lacks err.old) (E.lacks err.new) }
{
    let line = summary_text(summary);
    match write_all(alloc, err, line.as_str().as_bytes()) {
        Ok(()) => ServeStatus::Done,
        Err(fault) => report(alloc, err, ServeStatus::from(fault)),
    }
}
