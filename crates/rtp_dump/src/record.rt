//! One record of a capture.
ghost use Rattle.std.specs.Prelude.{◌≡◌, ◌<◌, ◌≤◌, ◌-◌, ◌+◌, ◌++◌, ◌∷◌, [], Option, Result, length, IfOk, IfErr, IfSome, IfNone, OnOk, IsErrOf};
ghost use Rattle.edge_io.specs.Told.{Counts, Loses, LosesFewer, Takes};
ghost use Rattle.rtp_dump.specs.Spelling.{Fault, Fits, length_word, record_octets};
ghost use Rattle.rtp_dump.specs.Capture.{records_from};
ghost use Rattle.rtp_dump.specs.declared.item.DumpItem.{DumpItem};
ghost use Rattle.rtp_dump.specs.Faults.{read_failed};
ghost use Rattle.rtp_dump.specs.Reading.{AnswersNext, first, IsPartOfRecord, len_behind};

use crate::faults::{DumpFault, DumpKind};
use crate::item::{DumpItem, MAX_OCTETS, MAX_RECORDS};
use crate::stage::Progress;
use byteorder::{BigEndian, ByteOrder};
use edge_io::{Octets, Source, read_full};
use std::alloc::Global;

/// Octets of a record's head: its length, the packet's length on the wire, and its offset.
const HEAD_LEN: usize = 8;

/// Reads the record that stands next, if any, to the memory of `spare`, if any.
pub(crate) fn read_record<S: Source>(
    alloc: Global,
    source: &mut S,
    progress: Progress,
    spare: Option<Vec<u8>>,
) -> Result<Option<DumpItem>, DumpFault>
    ensures answer { IfSome (S.rest source.old) (λ rest.
        AnswersNext result (first (records_from (MAX_RECORDS - progress.records) progress.place rest))) }
    ensures taken { IfOk result (λ found. IfSome found (λ item.
        Loses (S.rest source.old) (S.rest source.new) (λ front. front ≡ record_octets item))) }
    ensures end { IfOk result (λ found. IfNone found (S.rest source.new ≡ S.rest source.old)) }
    ensures over { IfOk result (λ found. IfNone found (IfSome (S.rest source.new) (λ octets. octets ≡ []))) }
    ensures read_taken { IsErrOf result DumpFault.Read → Loses (S.rest source.old) (S.rest source.new) IsPartOfRecord }
    ensures fits { IfOk result (λ found. IfSome found Fits) }
    ensures counted { IfOk result (λ found. IfSome found (λ _. progress.records < MAX_RECORDS)) }
    ensures counts { Counts (S.faults source.old) (read_failed result) (S.faults source.new) }
{
    let mut head = [0; HEAD_LEN];
    let Ok(got) = read_full(source, &mut head) else {
        return Err(DumpFault::Read);
    };
    if got == 0 {
        return Ok(None);
    }
    let len = match octets_len(&head[..got], progress.records) {
        Ok(len) => len,
        Err(kind) => return Err(progress.broken(kind)),
    };
    match read_octets(alloc, source, len, spare) {
        Ok(Some(octets)) => Ok(Some(item_of(&head, octets))),
        Ok(None) => Err(progress.broken(DumpKind::TornRecord)),
        Err(fault) => Err(fault),
    }
}

/// How many octets follow a record's head, or why this is no head of one.
fn octets_len(front: &[u8], records: u32) -> Result<usize, DumpKind>
    ensures len { result ≡ len_behind records front.now }
    ensures fits { IfOk result (λ len. len ≤ MAX_OCTETS) }
{
    if records == MAX_RECORDS {
        return Err(DumpKind::TooMany);
    }
    if front.len() < HEAD_LEN {
        return Err(DumpKind::TornHead);
    }
    let length = usize::from(BigEndian::read_u16(front));
    if length < HEAD_LEN {
        return Err(DumpKind::ShortLength);
    }
    Ok(length - HEAD_LEN)
}

/// The record that this head and these octets spell.
fn item_of(head: &[u8; 8], octets: Octets) -> DumpItem
    requires { length_word head.now ≡ length octets + 8 }
    ensures spelled { record_octets result ≡ head.now ++ octets }
    ensures fits { Fits result }
{
    DumpItem {
        plen: BigEndian::read_u16(&head[2..]),
        offset: BigEndian::read_u32(&head[4..]),
        octets,
    }
}

/// Reads so many octets; `None` where fewer are left.
fn read_octets<S: Source>(
    alloc: Global,
    source: &mut S,
    len: usize,
    spare: Option<Vec<u8>>,
) -> Result<Option<Octets>, DumpFault>
    ensures some { IfOk result (λ found. IfSome found (λ octets. (length octets ≡ len) × Takes (S.rest source.old) (S.rest source.new) len octets)) }
    ensures none { IfOk result (λ found. IfNone found (IfSome (S.rest source.old) (λ rest. length rest < len))) }
    ensures unbroken { IfErr result (λ fault. (found : Result (Option DumpItem) Fault) → AnswersNext (Err fault) found) }
    ensures read_taken { IsErrOf result DumpFault.Read → LosesFewer (S.rest source.old) (S.rest source.new) len }
    ensures counts { Counts (S.faults source.old) (read_failed result) (S.faults source.new) }
{
    let mut octets = spare.unwrap_or(Vec::new(alloc));
    if octets.resize(len, 0).is_err() {
        return Err(DumpFault::Memory);
    }
    let Ok(got) = read_full(source, &mut octets) else {
        return Err(DumpFault::Read);
    };
    if got < len {
        return Ok(None);
    }
    Ok(Some(Octets::of(octets)))
}
