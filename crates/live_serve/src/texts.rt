//! The lines that are written to the error stream. They are made in place, without memory.
ghost use Rattle.std.specs.Prelude.{◌≡◌, ◌≤◌, length};
ghost use Rattle.live_serve.specs.Texts.{kind_text, line_of, summary_line};

use crate::status::ServeStatus;
use live_spec::LiveSummary;
use program_edge::{Line, add_number, line, place_line};
use session_edge::{
    memory_line, read_failed_line, roster_fault_line, roster_long_line, write_failed_line,
};
use udp_edge::PeerKind;

/// The line of a status other than Done.
pub(crate) fn fault_line(status: ServeStatus) -> Line
    ensures { result.bytes ≡ line_of status }
{
    match status {
        ServeStatus::Done => Line::new(),
        ServeStatus::Usage => line("usage: serve PORT PEERS ROSTER\n"),
        ServeStatus::RosterFault { line, kind } => roster_fault_line(line, kind),
        ServeStatus::RosterLong => roster_long_line(),
        ServeStatus::PeersLong => line("peers longer than 1048576 octets\n"),
        ServeStatus::PeerFault { line, kind } => {
            place_line("peers line ", u64::from(line), kind_name(kind))
        }
        ServeStatus::PeerMissing { member } => missing_line(member),
        ServeStatus::LinkFault => line("link failed\n"),
        ServeStatus::ReadFault => read_failed_line(),
        ServeStatus::WriteFault => write_failed_line(),
        ServeStatus::Memory => memory_line(),
    }
}

/// The line of a member without a peer.
fn missing_line(member: u32) -> Line
    ensures { result.bytes ≡ line_of (ServeStatus.PeerMissing member) }
{
    let mut text = Line::new();
    add_number(&mut text, "peer missing ", u64::from(member));
    text.push_str("\n");
    text
}

/// The line of Done.
pub(crate) fn summary_text(summary: LiveSummary) -> Line
    ensures { result.bytes ≡ summary_line summary }
{
    let mut text = Line::new();
    add_number(&mut text, "ticks ", summary.ticks);
    add_number(&mut text, " runs ", summary.runs);
    add_number(&mut text, " packets ", summary.packets);
    add_number(&mut text, " refused ", summary.refused);
    add_number(&mut text, " unsent ", summary.unsent);
    add_number(&mut text, " reports ", summary.reports);
    add_number(&mut text, " heard ", summary.heard);
    text.push_str("\n");
    text
}

fn kind_name(kind: PeerKind) -> &'static str
    ensures text { result.now ≡ kind_text kind }
    ensures short { length result.now ≤ 16 }
{
    match kind {
        PeerKind::Words => "words",
        PeerKind::Number => "number",
        PeerKind::Address => "address",
        PeerKind::Used => "member used",
    }
}
