//! The words of the command line, and the lines of what ends a call.
ghost use Rattle.std.specs.Prelude.{◌≡◌, Some, IsSome};
ghost use Rattle.session_report.specs.CommandLine.{asked_of, roster_of, form_of};
ghost use Rattle.session_report.specs.Texts.{line_of};

use crate::status::ReportStatus;
use edge_io::Words;
use program_edge::{Line, is_plain_word, line};
use session_account::Form;
use session_edge::{
    dump_fault_line, memory_line, read_failed_line, roster_fault_line, roster_long_line,
    write_failed_line,
};

/// The form that the words ask for: they are `ROSTER`, or `json ROSTER`.
pub(crate) fn form(words: &Words) -> Option<Form>
    ensures { result ≡ form_of words.now }
{
    if words.len() == 1 && is_plain_word(words.word(0)) {
        return Some(Form::Table);
    }
    if words.len() == 2 && words.word(0) == "json" && is_plain_word(words.word(1)) {
        return Some(Form::Json);
    }
    None
}

/// The roster's name: the last word.
pub(crate) fn roster_name(words: &Words) -> &str
    requires { IsSome (form_of words.now) }
    ensures { roster_of words.now ≡ Some result.now }
{
    words.word(words.len() - 1)
}

/// The line of a status other than Done.
pub(crate) fn status_line(status: ReportStatus) -> Line
    ensures { result.bytes ≡ line_of status }
{
    match status {
        ReportStatus::Done => Line::new(),
        ReportStatus::Usage => line("usage: report ROSTER or report json ROSTER\n"),
        ReportStatus::RosterFault { line, kind } => roster_fault_line(line, kind),
        ReportStatus::RosterLong => roster_long_line(),
        ReportStatus::DumpFault { at, kind } => dump_fault_line(at, kind),
        ReportStatus::ReadFault => read_failed_line(),
        ReportStatus::WriteFault => write_failed_line(),
        ReportStatus::Memory => memory_line(),
    }
}
