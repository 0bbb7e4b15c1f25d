//! The texts of the program. Lines are made in place, without memory.
ghost use Rattle.std.specs.Prelude.{◌≡◌};
ghost use Rattle.g726_stream.specs.Texts.{line_of, help_text, version_text};

use crate::status::Status;
use program_edge::{Line, line, place_line};

/// The line of a status other than Done.
pub fn fault_line(status: Status) -> Line
    ensures { result.bytes ≡ line_of status }
{
    match status {
        Status::Done => Line::new(),
        Status::Usage => line("usage: g726 encode RATE or g726 decode RATE\n"),
        Status::ReadFault => line("read failed\n"),
        Status::WriteFault => line("write failed\n"),
        Status::Memory => line("out of memory\n"),
        Status::OddOctet { at } => place_line("samples at ", at, "odd octet"),
        Status::TornFrame { at } => place_line("codes at ", at, "torn frame"),
    }
}

/// What `--help` writes.
pub fn help() -> &'static str
    ensures { result.now ≡ help_text }
{
    "usage: g726 encode RATE or g726 decode RATE\n\n\
     G.726 at RATE 16, 24, 32 or 40 kbit/s, from standard input to standard output.\n\
     Samples are 16 bits, low octet first, at 8000 a second; codes are packed as RFC 3551 says.\n"
}

/// What `--version` writes.
pub fn version() -> &'static str
    ensures { result.now ≡ version_text }
{
    "g726 0.1.0\n"
}
