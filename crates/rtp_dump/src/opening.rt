//! The octets before the records: a line and a file head.
ghost use Rattle.std.specs.Prelude.{◌≡◌, ◌≤◌, ◌+◌, ℕ, List, length, IfOk, IfSome, OnOk, IsErrOf, nat_le, ◌||◌, ◌==◌, slice_index};
ghost use Rattle.edge_io.specs.Told.{Counts, Loses};
ghost use Rattle.rtp_dump.specs.Spelling.{BeginsLine, IsLine, magic};
ghost use Rattle.rtp_dump.specs.Capture.{line_at, opening};
ghost use Rattle.rtp_dump.specs.Faults.{head_failed};
ghost use Rattle.rtp_dump.specs.Reading.{AnswersLine, AnswersOpening, IsOpening, IsPartOfOpening};

use crate::faults::{DumpKind, HeadEnd};
use crate::item::MAX_LINE_LEN;
use edge_io::{Source, read_full};

/// What the line begins with.
const MAGIC: &[u8; 12] = b"#!rtpplay1.0";

/// Octets of the file head: start seconds and microseconds, source, port and padding, none of them
/// looked at.
const FILE_HEAD_LEN: usize = 16;

/// Reads the line and the file head, and says how many octets they have.
pub(crate) fn read_opening<S: Source>(source: &mut S) -> Result<u64, HeadEnd>
    ensures answer { IfSome (S.rest source.old) (λ octets. AnswersOpening result (opening octets)) }
    ensures taken { IfOk result (λ len. Loses (S.rest source.old) (S.rest source.new) (λ front. IsOpening front × (length front ≡ len))) }
    ensures read_taken { IsErrOf result HeadEnd.Read → Loses (S.rest source.old) (S.rest source.new) IsPartOfOpening }
    ensures short { IfOk result (λ len. len ≤ 1040) }
    ensures counts { Counts (S.faults source.old) (head_failed result) (S.faults source.new) }
{
    let line = read_line(source)?;
    let mut file_head = [0; FILE_HEAD_LEN];
    let Ok(got) = read_full(source, &mut file_head) else {
        return Err(HeadEnd::Read);
    };
    if got < FILE_HEAD_LEN {
        return Err(HeadEnd::Bad {
            at: line,
            kind: DumpKind::TornHead,
        });
    }
    Ok(line + 16)
}

/// Reads the line, octet by octet, and says how many octets it has.
fn read_line<S: Source>(source: &mut S) -> Result<u64, HeadEnd>
    ensures answer { IfSome (S.rest source.old) (λ octets. AnswersLine result (line_at octets)) }
    ensures taken { IfOk result (λ len. Loses (S.rest source.old) (S.rest source.new) (λ front. IsLine front × (length front ≡ len))) }
    ensures read_taken { IsErrOf result HeadEnd.Read → Loses (S.rest source.old) (S.rest source.new) BeginsLine }
    ensures short { IfOk result (λ len. len ≤ MAX_LINE_LEN) }
    ensures counts { Counts (S.faults source.old) (head_failed result) (S.faults source.new) }
{
    for at in 0..MAX_LINE_LEN {
        let mut octet = [0; 1];
        let Ok(got) = read_full(source, &mut octet) else {
            return Err(HeadEnd::Read);
        };
        if got == 0 {
            return Err(not_dump(at));
        }
        if !may_stand(octet[0], at) {
            return Err(not_dump(at));
        }
        if octet[0] == b'\n' {
            return Ok(at + 1);
        }
    }
    Err(not_dump(MAX_LINE_LEN - 1))
}

/// An octet may stand at this place of a line.
fn may_stand(octet: u8, at: u64) -> bool
    ensures { result ≡ (nat_le 12 at || octet == slice_index magic at) }
{
    at >= 12 || octet == MAGIC[at as usize]
}

/// No line goes on past this octet.
fn not_dump(at: u64) -> HeadEnd
    ensures { result ≡ HeadEnd.Bad at DumpKind.NotDump }
{
    HeadEnd::Bad {
        at,
        kind: DumpKind::NotDump,
    }
}
