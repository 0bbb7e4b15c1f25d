//! The lines that are written to the error stream. They are made in place, without memory.
ghost use Rattle.std.specs.Prelude.{◌≡◌, ◌≤◌, length};
ghost use Rattle.session_edge.specs.Texts.{kind_text, roster_text, roster_fault_line, dump_fault_line, roster_long_line, read_failed_line, write_failed_line, memory_line, summary_line};

use program_edge::{Line, add_number, line, place_line};
use roster_text::RosterKind;
use rtp_dump::DumpKind;
use session_spec::Summary;

/// Octets of the longest roster that is read.
pub const MAX_ROSTER_LEN: usize = 1_048_576;

/// The line of a roster's fault: the first bad line, counted from 1, and what is wrong with it.
pub fn roster_fault_line(line: u32, kind: RosterKind) -> Line
    ensures { result.bytes ≡ roster_fault_line line kind }
{
    place_line("roster line ", u64::from(line), roster_kind_name(kind))
}

/// The line of a capture's fault: the octet where it lies, counted from 0, and what is wrong there.
pub fn dump_fault_line(at: u64, kind: DumpKind) -> Line
    ensures { result.bytes ≡ dump_fault_line at kind }
{
    place_line("dump at ", at, kind_name(kind))
}

/// The line of a roster of more than 1,048,576 octets.
pub fn roster_long_line() -> Line
    ensures { result.bytes ≡ roster_long_line }
{
    line("roster longer than 1048576 octets\n")
}

/// The line of a read that failed.
pub fn read_failed_line() -> Line
    ensures { result.bytes ≡ read_failed_line }
{
    line("read failed\n")
}

/// The line of a write that failed.
pub fn write_failed_line() -> Line
    ensures { result.bytes ≡ write_failed_line }
{
    line("write failed\n")
}

/// The line of want of memory.
pub fn memory_line() -> Line
    ensures { result.bytes ≡ memory_line }
{
    line("out of memory\n")
}

/// The line of a session that was run whole: how many ticks, runs of the encoder, packets and refused packets it had.
pub fn summary_text(summary: Summary) -> Line
    ensures { result.bytes ≡ summary_line summary }
{
    let mut text = line("ticks ");
    add_number(&mut text, "", summary.ticks);
    add_number(&mut text, " runs ", summary.runs);
    add_number(&mut text, " packets ", summary.packets);
    add_number(&mut text, " refused ", summary.refused);
    text.push_str("\n");
    text
}

fn kind_name(kind: DumpKind) -> &'static str
    ensures text { result.now ≡ kind_text kind }
    ensures short { length result.now ≤ 16 }
{
    match kind {
        DumpKind::NotDump => "not a dump",
        DumpKind::TornHead => "torn head",
        DumpKind::ShortLength => "short length",
        DumpKind::TornRecord => "torn record",
        DumpKind::TooMany => "too many records",
    }
}

fn roster_kind_name(kind: RosterKind) -> &'static str
    ensures text { result.now ≡ roster_text kind }
    ensures short { length result.now ≤ 16 }
{
    match kind {
        RosterKind::Words => "words",
        RosterKind::Number => "number",
        RosterKind::Rate => "rate",
        RosterKind::PayType => "payload type",
        RosterKind::Bundle => "bundle",
        RosterKind::Back => "time goes back",
        RosterKind::Used => "number used",
        RosterKind::Absent => "not present",
        RosterKind::SsrcTaken => "SSRC taken",
        RosterKind::Full => "full",
        RosterKind::NoEnd => "no end",
        RosterKind::AfterEnd => "after end",
        RosterKind::TicksOver => "too many ticks",
    }
}
