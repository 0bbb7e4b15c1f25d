//! The lines that are written. They are made in place, without memory.
ghost use Rattle.std.specs.Prelude.{◌≡◌, ◌≤◌, ◌+◌, ◌++◌, Some, length};
ghost use Rattle.audit_check.specs.Texts.{part_text, place_text, line_of};

use crate::status::{AuditStatus, Part, Where};
use program_edge::{Line, add_number, line};
use session_edge::{
    dump_fault_line, memory_line, read_failed_line, roster_fault_line, roster_long_line,
    write_failed_line,
};

/// The line of a status.
pub(crate) fn status_line(status: AuditStatus) -> Line
    ensures { result.bytes ≡ line_of status }
{
    match status {
        AuditStatus::Yes => line("yes\n"),
        AuditStatus::No { at, part, place } => difference_line(at, part, place),
        AuditStatus::Usage => line("usage: audit ROSTER OUT\n"),
        AuditStatus::RosterFault { line, kind } => roster_fault_line(line, kind),
        AuditStatus::RosterLong => roster_long_line(),
        AuditStatus::OutLong => line("answer longer than 1073741824 octets\n"),
        AuditStatus::DumpFault { at, kind } => dump_fault_line(at, kind),
        AuditStatus::ReadFault => read_failed_line(),
        AuditStatus::WriteFault => write_failed_line(),
        AuditStatus::Memory => memory_line(),
    }
}

/// The line that names a first difference.
fn difference_line(at: u64, part: Part, place: Option<Where>) -> Line
    ensures { result.bytes ≡ line_of (AuditStatus.No at part place) }
{
    let mut text = line("no at ");
    add_number(&mut text, "", at);
    text.push_str(": ");
    text.push_str(part_name(part));
    if let Some(found) = place {
        add_place(&mut text, found);
    }
    text.push_str("\n");
    text
}

/// Adds a packet, its tick and its member.
fn add_place(text: &mut Line, found: Where)
    requires { length text.old.bytes ≤ 40 }
    ensures text { text.new.bytes ≡ text.old.bytes ++ place_text (Some found) }
    ensures short { length text.new.bytes ≤ length text.old.bytes + 82 }
{
    add_number(text, " packet ", found.packet);
    add_number(text, " tick ", found.tick);
    add_number(text, " member ", u64::from(found.member));
}

fn part_name(part: Part) -> &'static str
    ensures text { result.now ≡ part_text part }
    ensures short { length result.now ≤ 11 }
{
    match part {
        Part::FileHead => "file head",
        Part::RecordHead => "record head",
        Part::RtpHead => "RTP head",
        Part::Payload => "payload",
        Part::Missing => "missing",
        Part::Extra => "extra",
    }
}
