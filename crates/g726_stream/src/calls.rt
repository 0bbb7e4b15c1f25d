//! The call of the program.
ghost use Rattle.std.specs.Prelude.{◌≡◌, ◌≢◌, ◌⊎◌, ◌≤◌, None, Some, [], length, IfOk, IfErr, OnOk, OnErr, IfSome, IsErrOf};
ghost use Rattle.edge_io.specs.Told.{Grows, GrowsByFront, Rose};
ghost use Rattle.g726_stream.specs.CommandLine.{asked_of, IfCoding};
ghost use Rattle.g726_stream.specs.Streams.{made, end_of};
ghost use Rattle.g726_stream.specs.Causes.{CanEnd, IsCallEnd, IsInputEnd, IsOutputEnd};
ghost use Rattle.g726_stream.specs.Texts.{line_of, IfText};
ghost use Rattle.program_edge.specs.Report.{Tells};

use crate::asked::{Asked, Way, request};
use crate::decoding::decode_all;
use crate::encoding::encode_all;
use crate::status::Status;
use crate::texts::{fault_line, help, version};
use edge_io::{Sink, Source, Words, write_all};
use g726_bits::Rate;
use program_edge::tell_once;
use std::alloc::Global;

/// Does what the words ask for: `encode RATE`, `decode RATE`, `--help` or `--version`.
///
/// `words` are those of the command line after the program's name. A stream is read from `input` to
/// its end and written to `out`, frame by frame; a status other than Done has one line on `err`.
pub fn run<S: Source, K: Sink, E: Sink>(
    alloc: Global,
    words: &Words,
    input: &mut S,
    out: &mut K,
    err: &mut E,
) -> Status
    // The words decide first, and without them nothing is used.
    ensures usage { result ≡ Status.Usage → asked_of words.now ≡ None }
    ensures usage_only { asked_of words.now ≡ None → result ≡ Status.Usage }
    ensures unused { asked_of words.now ≡ None → (input.new ≡ input.old) × (out.new ≡ out.old) }

    // A text is written, and nothing is read.
    ensures text { IfText (asked_of words.now) (λ text. (input.new ≡ input.old)
        × GrowsByFront (K.held out.old) (K.held out.new) text
        × (((result ≡ Status.Done) × Grows (K.held out.old) (K.held out.new) text) ⊎ IsOutputEnd result)) }

    // A stream that was read to its end is written whole, and the status says how its octets end; none is left.
    ensures ends { IfCoding (asked_of words.now) (λ way _. CanEnd way result ⊎ IsCallEnd result) }
    ensures coded { IsInputEnd result → IfCoding (asked_of words.now) (λ way rate. IfSome (S.rest input.old) (λ octets.
        (result ≡ end_of way rate (length octets))
        × Grows (K.held out.old) (K.held out.new) (made way rate octets)
        × (S.rest input.new ≡ Some []))) }

    // A failed call has its count.
    ensures read { result ≡ Status.ReadFault → Rose (S.faults input.old) (S.faults input.new) }
    ensures write { result ≡ Status.WriteFault → Rose (K.faults out.old) (K.faults out.new) }

    // Nothing but a failed call or want of memory keeps a stream from that.
    ensures complete { IfCoding (asked_of words.now) (λ way rate. IfSome (S.rest input.old) (λ octets.
        ((result ≡ end_of way rate (length octets)) ⊎ (result ≡ Status.Memory))
        ⊎ (Rose (S.faults input.old) (S.faults input.new) ⊎ Rose (K.faults out.old) (K.faults out.new)))) }

    // What stands on the output after each status is a front of that.
    ensures front { IfCoding (asked_of words.now) (λ way rate. IfSome (S.rest input.old) (λ octets.
        GrowsByFront (K.held out.old) (K.held out.new) (made way rate octets))) }

    // What stands on the error stream.
    ensures silent { result ≡ Status.Done → err.new ≡ err.old }
    ensures reported { Tells (E.held err.old) (E.held err.new) (line_of result)
        (Rose (E.faults err.old) (E.faults err.new) ⊎ Rose (E.lacks err.old) (E.lacks err.new)) }
{
    let status = match request(words) {
        None => Status::Usage,
        Some(Asked::Help) => tell(alloc, out, help()),
        Some(Asked::Version) => tell(alloc, out, version()),
        Some(Asked::Coding { way, rate }) => code(alloc, way, rate, input, out),
    };
    report(alloc, err, status)
}

/// Takes a stream through the codec.
fn code<S: Source, K: Sink>(
    alloc: Global,
    way: Way,
    rate: Rate,
    input: &mut S,
    out: &mut K,
) -> Status
    ensures ends { CanEnd way result ⊎ IsCallEnd result }
    ensures coded { IsInputEnd result → IfSome (S.rest input.old) (λ octets.
        (result ≡ end_of way rate (length octets))
        × Grows (K.held out.old) (K.held out.new) (made way rate octets)
        × (S.rest input.new ≡ Some [])) }
    ensures read { result ≡ Status.ReadFault → Rose (S.faults input.old) (S.faults input.new) }
    ensures write { result ≡ Status.WriteFault → Rose (K.faults out.old) (K.faults out.new) }
    ensures front { IfSome (S.rest input.old) (λ octets.
        GrowsByFront (K.held out.old) (K.held out.new) (made way rate octets)) }
{
    match way {
        Way::Encode => match encode_all(alloc, rate, input, out) {
            Ok(status) => status,
            Err(status) => status,
        },
        Way::Decode => match decode_all(alloc, rate, input, out) {
            Ok(status) => status,
            Err(status) => status,
        },
    }
}

/// Writes a text to `out`.
fn tell<K: Sink>(alloc: Global, out: &mut K, text: &str) -> Status
    ensures front { GrowsByFront (K.held out.old) (K.held out.new) text.now }
    ensures ends { ((result ≡ Status.Done) × Grows (K.held out.old) (K.held out.new) text.now) ⊎ IsOutputEnd result }
    ensures write { result ≡ Status.WriteFault → Rose (K.faults out.old) (K.faults out.new) }
{
    match write_all(alloc, out, text.as_bytes()) {
        Ok(()) => Status::Done,
        Err(fault) => Status::from(fault),
    }
}

/// Writes the line of a status other than Done to `err`, tried once. Its failure changes no status.
pub fn report<E: Sink>(alloc: Global, err: &mut E, status: Status) -> Status
    ensures same { result ≡ status }
    ensures silent { status ≡ Status.Done → err.new ≡ err.old }
    ensures line { Tells (E.held err.old) (E.held err.new) (line_of status)
        (Rose (E.faults err.old) (E.faults err.new) ⊎ Rose (E.lacks err.old) (E.lacks err.new)) }
{
    if status == Status::Done {
        return status;
    }
    tell_once(alloc, err, &fault_line(status));
    status
}
