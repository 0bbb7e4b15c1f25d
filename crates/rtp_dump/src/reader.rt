//! A capture, record by record.
ghost use Rattle.std.specs.Prelude.{◌≡◌, ◌<◌, ◌≤◌, ◌+◌, ◌++◌, ℕ, List, Some, None, Ok, length, IfOk, IfErr, IfSome, IfNone, OnOk, IsErrOf};
ghost use Rattle.edge_io.specs.Told.{Counts, Loses};
ghost use Rattle.rtp_dump.specs.Spelling.{Fits, record_octets};
ghost use Rattle.rtp_dump.specs.Capture.{before, capture, opening};
ghost use Rattle.rtp_dump.specs.Faults.{head_failed, read_failed};
ghost use Rattle.rtp_dump.specs.Reading.{after, after_head, ahead, answered, fetched, AnswersBefore, AnswersHead, AnswersNext, first, from_here, IsBegun, IsFresh, IsLate, IsOpening, IsPartOfOpening, IsPartOfRecord, IsSound, octets_of};

use crate::faults::{DumpFault, HeadEnd};
use crate::item::{DumpItem, MAX_RECORDS};
use crate::opening::read_opening;
use crate::record::read_record;
use crate::stage::{Progress, Stage};
use edge_io::Source;
use std::alloc::Global;
use std::marker::Model;

/// Reads a capture from a source, one record at a time. Contracts see the source as it stands, what was
/// met, where the next record begins, how many were handed out, and the one that is held back.
///
/// Whoever is to know what the source was left with ends the loan with [`Reader::into_source`].
#[derive(Drop)]
pub struct Reader<'a, S: Source> {
    source: &'a mut S,
    stage: Stage,
    progress: Progress,
    held: Option<DumpItem>,
    spare: Option<Vec<u8>>,
}

impl<'a, S: Source> Model for Reader<'a, S> {
    ghost use Rattle.rtp_dump.specs.Reading.{Reading};
    ghost use Rattle.rtp_dump.specs.Standing.{reading_of, Stands};

    ghost Value = { Reading S };

    ghost view = { λ r. reading_of r.source.ghost_name r.source.now r.stage r.progress r.held };

    ghost invariant = { λ r. Stands (S.rest r.source.now) r.stage r.progress r.held };
}

impl<'a, S: Source> Reader<'a, S> {
    /// A reader that has read nothing yet. Takes no memory.
    pub fn new(source: &'a mut S) -> Reader<'a, S>
        ensures { result ≡ record {
          ghost_name = source.entry.ghost_name;
          source = source.old;
          stage = Stage.Fresh;
          place = 0;
          records = 0;
          held = None;
        } }
    {
        Reader {
            source,
            stage: Stage::Fresh,
            progress: Progress::start(0),
            held: None,
            spare: None,
        }
    }

    /// Gives the source back.
    pub fn into_source(self) -> &'a mut S
        ensures same_source { result.ghost_name ≡ self.entry.ghost_name }
        ensures left { result.now ≡ self.entry.source }
    {
        self.source
    }

    /// Reads the line and the file head. To be called once, before any record. Takes no memory.
    ///
    /// # Errors
    ///
    /// `Bad` where the capture is broken before its records, as `NotDump` or `TornHead`; `Read` where a
    /// read failed. Every later call for a record then answers the same fault.
    pub fn head(&mut self) -> Result<(), HeadEnd>
        requires { IsFresh self.old }

        // What the octets give, unless a read failed, and what was taken of them.
        ensures answer { IfSome (S.rest self.old.source) (λ octets. AnswersHead result (opening octets)) }
        ensures taken { OnOk result (Loses (S.rest self.old.source) (S.rest self.new.source)
            (λ front. IsOpening front × ((more : List ℕ) → capture (front ++ more) ≡ ahead self.new more))) }
        ensures read_taken { IsErrOf result HeadEnd.Read →
            Loses (S.rest self.old.source) (S.rest self.new.source) IsPartOfOpening }

        ensures state { self.new ≡ after_head self.old result self.new.place self.new.source }
        ensures sound { IsSound self.new }
        ensures counts { Counts (S.faults self.old.source) (head_failed result) (S.faults self.new.source) }
    {
        match read_opening(self.source) {
            Ok(place) => {
                self.stage = Stage::Open;
                self.progress = Progress::start(place);
                Ok(())
            }
            Err(end) => {
                self.stage = Stage::Stopped(end.into());
                Err(end)
            }
        }
    }

    /// The next record; `None` where the capture ends. To be called after `head`.
    ///
    /// # Errors
    ///
    /// `Bad` where the capture is broken here; `Read` where a read failed; `Memory` where there was no
    /// memory for the record. Every later call then answers the same fault and reads nothing.
    pub fn next(&mut self, alloc: Global) -> Result<Option<DumpItem>, DumpFault>
        requires { IsBegun self.old }

        // What the octets that are left give, unless a read failed or memory ran out.
        ensures answer { IfNone (answered self.old) (IfSome (S.rest self.old.source) (λ rest.
            AnswersNext result (first (ahead self.old rest)))) }
        ensures goes_on { IfOk result (λ found. IfSome found (λ item. (more : List ℕ) →
            from_here self.old (record_octets item ++ more) ≡ before (record { at = self.old.place; item = item }) (from_here self.new more))) }
        ensures fits { IfOk result (λ found. IfSome found Fits) }

        // What was taken of them.
        ensures taken { IfOk result (λ found. Loses (S.rest self.old.source) (S.rest self.new.source)
            (λ front. octets_of self.old.held ++ front ≡ octets_of found)) }
        ensures read_taken { IsErrOf result DumpFault.Read →
            Loses (S.rest self.old.source) (S.rest self.new.source) IsPartOfRecord }

        ensures state { self.new ≡ after self.old result None self.new.source }
        ensures sound { IsSound self.new }
        ensures again { IfSome (answered self.old) (λ fault. (result ≡ Err fault) × (self.new ≡ self.old)) }
        ensures counts { IfNone (answered self.old) (Counts (S.faults self.old.source) (read_failed result) (S.faults self.new.source)) }
    {
        match self.fetch(alloc)? {
            Some(item) => {
                self.progress = self.progress.after(&item);
                Ok(Some(item))
            }
            None => Ok(None),
        }
    }

    /// The next record, where its offset is below `limit` milliseconds; `None` where it isn't, or the
    /// capture ends. To be called after `head`.
    ///
    /// No octet past the next record is read. A record at or past the limit is held back, for the call
    /// that it lies before the limit of, or for `next`.
    ///
    /// # Errors
    ///
    /// As `next`.
    pub fn next_before(&mut self, alloc: Global, limit: u32) -> Result<Option<DumpItem>, DumpFault>
        requires { IsBegun self.old }

        // What the octets that are left give, unless a read failed or memory ran out.
        ensures answer { IfNone (answered self.old) (IfSome (S.rest self.old.source) (λ rest.
            AnswersBefore result self.new.held (first (ahead self.old rest)))) }
        ensures goes_on { IfOk result (λ found. IfSome found (λ item. (more : List ℕ) →
            from_here self.old (record_octets item ++ more) ≡ before (record { at = self.old.place; item = item }) (from_here self.new more))) }
        ensures early { IfOk result (λ found. IfSome found (λ item. Fits item × (item.offset < limit))) }
        ensures late { IfOk result (λ found. IfNone found (IsLate limit self.new.stage self.new.held)) }

        // What was taken of them.
        ensures taken { IfOk result (λ found. Loses (S.rest self.old.source) (S.rest self.new.source)
            (λ front. octets_of self.old.held ++ front ≡ octets_of found ++ octets_of self.new.held)) }
        ensures read_taken { IsErrOf result DumpFault.Read →
            Loses (S.rest self.old.source) (S.rest self.new.source) IsPartOfRecord }

        // A read fails only where no record is held back and the end wasn't met.
        ensures read_open { IfNone (answered self.old) (IsErrOf result DumpFault.Read → (self.old.held ≡ None) × (self.old.stage ≡ Stage.Open)) }

        ensures state { self.new ≡ after self.old result self.new.held self.new.source }
        ensures sound { IsSound self.new }
        ensures again { IfSome (answered self.old) (λ fault. (result ≡ Err fault) × (self.new ≡ self.old)) }
        ensures counts { IfNone (answered self.old) (Counts (S.faults self.old.source) (read_failed result) (S.faults self.new.source)) }
    {
        match self.fetch(alloc)? {
            Some(item) if item.offset < limit => {
                self.progress = self.progress.after(&item);
                Ok(Some(item))
            }
            found => {
                self.held = found;
                Ok(None)
            }
        }
    }

    /// Takes back a record that is done with, so that the next one is read to its memory.
    pub fn reuse(&mut self, item: DumpItem)
        ensures { self.new ≡ self.old }
    {
        self.spare = Some(item.octets.into_vec());
    }

    /// Takes the record that is held back, or reads the next one. It isn't counted yet.
    fn fetch(&mut self, alloc: Global) -> Result<Option<DumpItem>, DumpFault>
        requires { IsBegun self.old }
        ensures answer { IfNone (answered self.old) (IfSome (S.rest self.old.source) (λ rest.
            AnswersNext result (first (ahead self.old rest)))) }
        ensures follows { IfOk result (λ found. IfSome found (λ item.
            Fits item × (self.old.records < MAX_RECORDS) × (self.old.stage ≡ Stage.Open))) }
        ensures taken { IfOk result (λ found. Loses (S.rest self.old.source) (S.rest self.new.source)
            (λ front. octets_of self.old.held ++ front ≡ octets_of found)) }
        ensures read_taken { IsErrOf result DumpFault.Read →
            Loses (S.rest self.old.source) (S.rest self.new.source) IsPartOfRecord }
        ensures read_open { IfNone (answered self.old) (IsErrOf result DumpFault.Read → (self.old.held ≡ None) × (self.old.stage ≡ Stage.Open)) }
        ensures state { self.new ≡ fetched self.old result self.new.source }
        ensures sound { IsSound self.new }
        ensures again { IfSome (answered self.old) (λ fault. (result ≡ Err fault) × (self.new ≡ self.old)) }
        ensures counts { IfNone (answered self.old) (Counts (S.faults self.old.source) (read_failed result) (S.faults self.new.source)) }
    {
        if let Some(item) = self.held.take() {
            return Ok(Some(item));
        }
        match self.stage {
            Stage::Fresh => unreachable!(),
            Stage::Stopped(fault) => return Err(fault),
            Stage::Ended => return Ok(None),
            Stage::Open => {}
        }
        match read_record(alloc, self.source, self.progress, self.spare.take()) {
            Ok(Some(item)) => Ok(Some(item)),
            Ok(None) => {
                self.stage = Stage::Ended;
                Ok(None)
            }
            Err(fault) => {
                self.stage = Stage::Stopped(fault);
                Err(fault)
            }
        }
    }
}
