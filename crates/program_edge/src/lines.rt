//! Lines that are made in place, without memory, and written in one try.
ghost use Rattle.std.specs.Prelude.{◌≡◌, ◌≤◌, ◌+◌, ◌++◌, ◌⊎◌, length, codes, decimal};
ghost use Rattle.edge_io.specs.Told.{Rose};
ghost use Rattle.program_edge.specs.Report.{Tells};

use arrayvec::ArrayString;
use edge_io::{Sink, write_all};
use itoa::Buffer;
use std::alloc::Global;

/// More octets than any line has.
const LINE_LEN: usize = 256;

/// A line with its newline.
pub type Line = ArrayString<LINE_LEN>;

/// A line of this text, of at most 256 octets.
pub fn line(text: &str) -> Line
    requires { length text.now ≤ LINE_LEN }
    ensures { result.bytes ≡ text.now }
{
    let mut line = Line::new();
    line.push_str(text);
    line
}

/// Adds words and a number in decimal, without leading zeros.
pub fn add_number(line: &mut Line, before: &str, number: u64)
    requires { length line.old.bytes + length before.now + 20 ≤ LINE_LEN }
    ensures text { line.new.bytes ≡ line.old.bytes ++ before.now ++ decimal number }
    ensures short { length line.new.bytes ≤ length line.old.bytes + length before.now + 20 }
{
    let mut digits = Buffer::new();
    line.push_str(before);
    line.push_str(digits.format(number));
}

/// The line that names a place and what is wrong there: words, a number, a colon and a kind, of at most 32 octets each.
pub fn place_line(before: &str, place: u64, kind: &str) -> Line
    requires before { length before.now ≤ 32 }
    requires kind { length kind.now ≤ 32 }
    ensures { result.bytes ≡ before.now ++ decimal place ++ codes ": " ++ kind.now ++ codes "\n" }
{
    let mut line = Line::new();
    add_number(&mut line, before, place);
    line.push_str(": ");
    line.push_str(kind);
    line.push_str("\n");
    line
}

/// Writes a line to an end, tried once: where that fails, a front of it stands there and a count of the end rose.
pub fn tell_once<E: Sink>(alloc: Global, end: &mut E, line: &Line)
    ensures told { Tells (E.held end.old) (E.held end.new) line.now.bytes
        (Rose (E.faults end.old) (E.faults end.new) ⊎ Rose (E.lacks end.old) (E.lacks end.new)) }
    ensures never_falls { E.faults end.old ≤ E.faults end.new }
    ensures lacks_never_fall { E.lacks end.old ≤ E.lacks end.new }
{
    let _ = write_all(alloc, end, line.as_str().as_bytes());
}
