//! Ends in memory that fail at the calls that they are told to.
ghost use Rattle.std.specs.Prelude.{is_err, ◌∷◌, ◌++◌, ◌≡◌, ◌+◌, ◌<◌, ◌≤◌, ◌↔◌, ◌⊎◌, ◌≢◌, ℕ, List, [], Some, length, take, IfOk, OnOk, OnErr, IsErr, IsErrOf};
ghost use Rattle.edge_io.specs.Answers.{put_failed, put_lacked, take_failed};
ghost use Rattle.edge_io.specs.Told.{Counts, Takes, Grows};
ghost use Rattle.edge_io.specs.File.{missing, content, IsWhole, IsLonger};
ghost use Rattle.edge_io.specs.Plan.{IsPlanned, IsOver, OneCall, IsFresh};
ghost use Rattle.edge_io.specs.Named.{file_with};
ghost use Rattle.edge_io.specs.Planned.{file_of};

use crate::calm::{CalmSink, CalmSource, copy_whole};
use crate::faults::{Failed, Memory, PutFault, TakeFault};
use crate::named::{Named, find};
use crate::octet_list::Octets;
use crate::plan::Plan;
use crate::shelves::Shelf;
use crate::sinks::Sink;
use crate::sources::Source;
use std::alloc::Global;
use std::marker::Model;

/// A source over octets in memory. Contracts see what is left and the plan of failures.
#[derive(Debug, Drop)]
pub struct MemSource {
    source: CalmSource,
    plan: Plan,
}

impl Model for MemSource {
    ghost use Rattle.edge_io.specs.Planned.{PlannedSource};

    ghost Value = { PlannedSource };

    ghost view = { λ s. record { rest = s.source; plan = s.plan } };
}

impl MemSource {
    /// A source that gives `octets`, and whose reads with the numbers in `fail`, counted from 0,
    /// fail. Takes no memory.
    pub fn new(octets: Octets, fail: Octets) -> MemSource
        ensures rest { result.rest ≡ octets }
        ensures plan { IsFresh result.plan fail }
    {
        MemSource {
            source: CalmSource::new(octets),
            plan: Plan::new(fail),
        }
    }
}

impl Source for MemSource {
    ghost rest = { λ s. Some s.rest };

    ghost faults = { λ s. s.plan.faults };

    fn read(&mut self, buf: &mut [u8]) -> Result<usize, Failed>
        ensures planned { IsErr result ↔ IsPlanned self.old.plan }
        ensures called { OneCall self.old.plan self.new.plan }

        ensures count { IfOk result (λ n. n ≤ length buf.old) }
        ensures octets { IfOk result (λ n.
            Takes (Some self.old.rest) (Some self.new.rest) n buf.new) }
        ensures end { IfOk result (λ n. 0 < length buf.old → ((n ≡ 0) ↔ (self.old.rest ≡ []))) }
        ensures failed { OnErr result (self.new.rest ≡ self.old.rest) }
        ensures counts { Counts self.old.plan.faults (is_err result) self.new.plan.faults }
    {
        if self.plan.call() {
            self.plan.fault();
            return Err(Failed);
        }
        self.source.read(buf)
    }
}

/// A sink that keeps all octets in memory. Contracts see these and the plan of failures.
#[derive(Debug, Drop)]
pub struct MemSink {
    sink: CalmSink,
    plan: Plan,
}

impl Model for MemSink {
    ghost use Rattle.edge_io.specs.Planned.{PlannedSink};

    ghost Value = { PlannedSink };

    ghost view = { λ s. record { octets = s.sink.octets; lacks = s.sink.lacks; plan = s.plan } };
}

impl MemSink {
    /// A sink that holds nothing, and whose writes with the numbers in `fail`, counted from 0,
    /// fail. A write of an empty piece isn't counted and doesn't fail. Takes no memory.
    pub fn new(alloc: Global, fail: Octets) -> MemSink
        ensures octets { result.octets ≡ [] }
        ensures lacks { result.lacks ≡ 0 }
        ensures plan { IsFresh result.plan fail }
    {
        MemSink {
            sink: CalmSink::new(alloc),
            plan: Plan::new(fail),
        }
    }

    /// Lends what the sink holds.
    pub fn as_slice(&self) -> &[u8]
        ensures { result.now ≡ self.now.octets }
    {
        self.sink.as_slice()
    }
}

impl Sink for MemSink {
    ghost held = { λ s. Some s.octets };

    ghost faults = { λ s. s.plan.faults };

    ghost lacks = { λ s. s.lacks };

    fn write(&mut self, alloc: Global, piece: &[u8]) -> Result<usize, PutFault>
        ensures planned { IsErrOf result PutFault.Failed
            ↔ ((0 < length piece.now) × IsPlanned self.old.plan) }
        ensures called { 0 < length piece.now → OneCall self.old.plan self.new.plan }
        ensures uncounted { piece.now ≡ [] → self.new ≡ self.old }

        ensures count { IfOk result (λ n. n ≤ length piece.now) }
        ensures progress { IfOk result (λ n. 0 < length piece.now → 0 < n) }
        ensures empty { piece.now ≡ [] → result ≡ Ok 0 }
        ensures grows { IfOk result (λ n.
            Grows (Some self.old.octets) (Some self.new.octets) (take n piece.now)) }
        ensures fault { OnErr result (self.new.octets ≡ self.old.octets) }
        ensures counts { Counts self.old.plan.faults (put_failed result) self.new.plan.faults }
        ensures lacks { Counts self.old.lacks (put_lacked result) self.new.lacks }
    {
        if piece.is_empty() {
            return Ok(0);
        }
        if self.plan.call() {
            self.plan.fault();
            return Err(PutFault::Failed);
        }
        self.sink.write(alloc, piece)
    }
}

/// A shelf with some names. Contracts see these with their contents, and the plan of failures.
#[derive(Debug, Drop)]
pub struct MemShelf {
    first: Named,
    others: Vec<Named>,
    plan: Plan,
}

impl Model for MemShelf {
    ghost use Rattle.std.specs.Prelude.{◌∷◌};
    ghost use Rattle.edge_io.specs.Planned.{PlannedShelf};

    ghost Value = { PlannedShelf };

    ghost view = { λ s. record { files = s.first ∷ s.others.items; plan = s.plan } };
}

impl MemShelf {
    /// A shelf with the name `name`, and whose takes with the numbers in `fail`, counted from
    /// 0, fail. Takes no memory.
    pub fn new(alloc: Global, name: Octets, octets: Octets, fail: Octets) -> MemShelf
        ensures files { result.files ≡ record { name = name; content = octets } ∷ [] }
        ensures plan { IsFresh result.plan fail }
    {
        MemShelf {
            first: Named {
                name,
                content: octets,
            },
            others: Vec::new(alloc),
            plan: Plan::new(fail),
        }
    }

    /// Adds a name that isn't there yet, with its content.
    ///
    /// # Errors
    ///
    /// `Memory` where there was no memory. Then the shelf is as before.
    pub fn add(&mut self, name: Octets, content: Octets) -> Result<(), Memory>
        requires absent { file_of self.old name ≡ missing }
        ensures added { OnOk result (self.new.files ≡ self.old.files ++ record { name = name; content = content } ∷ []) }
        ensures told { OnOk result (file_of self.new name ≡ file_with (Some content)) }
        ensures others { OnOk result ((other : List ℕ) → other ≢ name → file_of self.new other ≡ file_of self.old other) }
        ensures memory { OnErr result (self.new ≡ self.old) }
        ensures plan { self.new.plan ≡ self.old.plan }
    {
        self.others.push(Named { name, content })?;
        Ok(())
    }
}

impl Shelf for MemShelf {
    ghost file = { file_of };

    ghost faults = { λ s. s.plan.faults };

    ghost calm = { λ s. IsOver s.plan };

    fn take(&mut self, alloc: Global, name: &str, at_most: usize) -> Result<Octets, TakeFault>
        ensures planned { IsErrOf result TakeFault.Failed
            ↔ (IsPlanned self.old.plan ⊎ (file_of self.old name.now ≡ missing)) }
        ensures called { OneCall self.old.plan self.new.plan }

        ensures whole { IfOk result (λ octets. IsWhole (file_of self.old name.now) octets) }
        ensures fits { IfOk result (λ octets. length octets ≤ at_most) }
        ensures too_long { IsErrOf result TakeFault.TooLong →
            IsLonger (file_of self.old name.now) at_most }
        ensures never_cut { (held : List ℕ) → file_of self.old name.now ≡ content held →
            at_most < length held → IsErr result }
        ensures absent { file_of self.old name.now ≡ missing → result ≡ Err TakeFault.Failed }
        ensures same { (other : List ℕ) → file_of self.new other ≡ file_of self.old other }

        ensures counts { Counts self.old.plan.faults (take_failed result) self.new.plan.faults }

        ensures calm_take { (held : List ℕ) → file_of self.old name.now ≡ content held →
            IsOver self.old.plan → self.new.plan.faults ≡ self.old.plan.faults }
        ensures stays_calm { IsOver self.old.plan → IsOver self.new.plan }
    {
        if !self.plan.call() {
            if let Some(content) = find(&self.first, &self.others, name.as_bytes()) {
                return copy_whole(alloc, content, at_most);
            }
        }
        self.plan.fault();
        Err(TakeFault::Failed)
    }
}

#[cfg(test)]
mod tests {
    use super::*;
    use crate::calm::CalmShelf;
    use crate::sinks::write_all;
    use crate::sources::read_full;
    use crate::word_list::Words;
    use std::alloc::AllocError;
    use std::process::Abort;
    use std::test::Fail;

    fn octets(alloc: Global, items: &[u8]) -> Result<Octets, AllocError>
        ensures { IfOk result (λ octets. octets ≡ items.now) }
    {
        Ok(Octets::of(Vec::from_slice(alloc, items)?))
    }

    fn reads<S: Source>(rt: &impl Abort, mut source: S, want: &[Result<&'static [u8], Failed>])
    where
        S: Drop,
    {
        for want in want {
            let mut buf = [0; 4];
            let got = match read_full(&mut source, &mut buf) {
                Ok(n) => Ok(&buf[..n]),
                Err(fault) => Err(fault),
            };
            assert!(rt; got == *want, "read_full");
        }
    }

    fn writes<K: Sink>(
        rt: &impl Abort,
        alloc: Global,
        sink: &mut K,
        cases: &[(&'static [u8], Result<(), PutFault>)],
    ) {
        for (piece, want) in cases {
            assert!(rt; write_all(alloc, sink, piece) == *want, "write_all");
        }
    }

    fn takes<F: Shelf>(
        rt: &impl Abort,
        alloc: Global,
        mut shelf: F,
        cases: &[(&'static str, usize, Result<&'static [u8], TakeFault>)],
    )
    where
        F: Drop,
    {
        for (name, at_most, want) in cases {
            match shelf.take(alloc, name, *at_most) {
                Ok(taken) => assert!(rt; Ok(taken.as_slice()) == *want, "taken"),
                Err(fault) => assert!(rt; Err(fault) == *want, "refused"),
            }
        }
    }

    fn words_in_memory(rt: &impl Abort, alloc: Global) -> Result<(), Memory> {
        let mut line = Words::new(alloc);
        line.push(alloc, "alone")?;
        assert!(rt; line.len() == 1, "one word");
        assert!(rt; line.word(0) == "alone", "that word");
        Ok(())
    }

    fn sources_in_memory(rt: &impl Abort, alloc: Global) -> Result<(), AllocError> {
        // The second of the reads fails, and loses nothing.
        let source = MemSource::new(octets(alloc, b"abcdef")?, octets(alloc, &[1])?);
        reads(rt, source, &[Ok(b"abcd"), Err(Failed), Ok(b"ef"), Ok(b"")]);
        reads(
            rt,
            CalmSource::new(octets(alloc, b"ab")?),
            &[Ok(b"ab"), Ok(b"")],
        );
        Ok(())
    }

    fn sinks_in_memory(rt: &impl Abort, alloc: Global) -> Result<(), AllocError> {
        // The second of the writes fails. An empty piece is no call.
        let mut sink = MemSink::new(alloc, octets(alloc, &[1])?);
        writes(rt, alloc, &mut sink, &[(b"abc", Ok(())), (b"", Ok(()))]);
        writes(
            rt,
            alloc,
            &mut sink,
            &[(b"lost", Err(PutFault::Failed)), (b"d", Ok(()))],
        );
        assert!(rt; sink.as_slice() == b"abcd".as_slice(), "what was taken");
        let mut calm = CalmSink::new(alloc);
        writes(rt, alloc, &mut calm, &[(b"xy", Ok(()))]);
        assert!(rt; calm.as_slice() == b"xy".as_slice(), "all of it");
        Ok(())
    }

    fn shelves_in_memory(rt: &impl Abort, alloc: Global) -> Result<(), Memory> {
        // The fourth of the takes fails, and the third is of a name that isn't there.
        let mut shelf = MemShelf::new(
            alloc,
            octets(alloc, b"r")?,
            octets(alloc, b"0 end")?,
            octets(alloc, &[3])?,
        );
        shelf.add(octets(alloc, b"d")?, octets(alloc, b"#!")?)?;
        takes(
            rt,
            alloc,
            shelf,
            &[
                ("r", 5, Ok(b"0 end")),
                ("r", 4, Err(TakeFault::TooLong)),
                ("s", 5, Err(TakeFault::Failed)),
                ("r", 5, Err(TakeFault::Failed)),
                ("r", 9, Ok(b"0 end")),
                ("d", 2, Ok(b"#!")),
            ],
        );
        takes(
            rt,
            alloc,
            CalmShelf::new(octets(alloc, b"all")?),
            &[("any", 3, Ok(b"all"))],
        );
        Ok(())
    }

    #[test]
    fn ends_in_memory(rt: HostRuntime) -> Result<(), Fail> {
        let alloc = rt.alloc();
        words_in_memory(&rt, alloc).map_err(|_| "memory")?;
        sources_in_memory(&rt, alloc)?;
        sinks_in_memory(&rt, alloc)?;
        shelves_in_memory(&rt, alloc).map_err(|_| "memory")?;
        Ok(())
    }
}
