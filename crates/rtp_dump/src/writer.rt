//! A capture, written record by record.
ghost use Rattle.std.specs.Prelude.{◌≡◌, ◌<◌, ◌≤◌, ◌+◌, ◌++◌, ◌∷◌, [], ℕ, length, take, drop, OnOk, OnErr, IsErrOf};
ghost use Rattle.edge_io.specs.Answers.{put_failed, put_lacked};
ghost use Rattle.edge_io.specs.Told.{Counts, Grows, GrowsByFront};
ghost use Rattle.rtp_dump.specs.Spelling.{record_octets};
ghost use Rattle.rtp_dump.specs.Writing.{output_head, written};

use crate::item::MAX_OCTETS;
use byteorder::{BigEndian, ByteOrder};
use edge_io::{PutFault, Sink, write_all};
use std::alloc::Global;
use std::marker::Model;

/// The line and the file head of each capture that is written: any address, and zeros.
const OUTPUT_HEAD: &[u8; 39] = b"#!rtpplay1.0 0.0.0.0/0\n\0\0\0\0\0\0\0\0\0\0\0\0\0\0\0\0";

/// Records of at most so many octets, their heads included, are given to the sink as one piece.
const PIECE_LEN: usize = 512;

/// Writes a capture to a sink, one record at a time. Contracts see the sink as it stands.
///
/// Whoever is to know what the sink was left with ends the loan with [`DumpWriter::into_sink`].
#[derive(Drop)]
pub struct DumpWriter<'a, K: Sink> {
    sink: &'a mut K,
}

impl<'a, K: Sink> Model for DumpWriter<'a, K> {
    ghost use Rattle.rtp_dump.specs.Writing.{Writing};

    ghost Value = { Writing K };

    ghost view = { λ w. record { ghost_name = w.sink.ghost_name; sink = w.sink.now } };
}

impl<'a, K: Sink> DumpWriter<'a, K> {
    /// A writer that has written nothing yet. Takes no memory.
    pub fn new(sink: &'a mut K) -> DumpWriter<'a, K>
        ensures { result ≡ record { ghost_name = sink.entry.ghost_name; sink = sink.old } }
    {
        DumpWriter { sink }
    }

    /// Gives the sink back.
    pub fn into_sink(self) -> &'a mut K
        ensures same_sink { result.ghost_name ≡ self.entry.ghost_name }
        ensures left { result.now ≡ self.entry.sink }
    {
        self.sink
    }

    /// Writes the line and the file head.
    ///
    /// # Errors
    ///
    /// `Failed` where a write failed, `Memory` where the sink had no memory. Then a front of the line
    /// and file head, maybe none of it, was written.
    pub fn head(&mut self, alloc: Global) -> Result<(), PutFault>
        ensures same_sink { self.new.ghost_name ≡ self.old.ghost_name }
        ensures whole { OnOk result (Grows (K.held self.old.sink) (K.held self.new.sink) output_head) }
        ensures fault { OnErr result (GrowsByFront (K.held self.old.sink) (K.held self.new.sink) output_head) }
        ensures counts { Counts (K.faults self.old.sink) (put_failed result) (K.faults self.new.sink) }
        ensures lacks { Counts (K.lacks self.old.sink) (put_lacked result) (K.lacks self.new.sink) }
    {
        write_all(alloc, self.sink, OUTPUT_HEAD)
    }

    /// Writes a record with these octets, which are a whole packet, and this offset in milliseconds.
    ///
    /// # Errors
    ///
    /// `Failed` where a write failed, `Memory` where the sink had no memory. Then a front of the
    /// record, maybe none of it, was written.
    pub fn put(&mut self, alloc: Global, offset: u32, octets: &[u8]) -> Result<(), PutFault>
        requires some { 0 < length octets.now }
        requires short { length octets.now ≤ MAX_OCTETS }
        ensures same_sink { self.new.ghost_name ≡ self.old.ghost_name }
        ensures whole { OnOk result (Grows (K.held self.old.sink) (K.held self.new.sink) (record_octets (written offset octets.now))) }
        ensures fault { OnErr result (GrowsByFront (K.held self.old.sink) (K.held self.new.sink) (record_octets (written offset octets.now))) }
        ensures counts { Counts (K.faults self.old.sink) (put_failed result) (K.faults self.new.sink) }
        ensures lacks { Counts (K.lacks self.old.sink) (put_lacked result) (K.lacks self.new.sink) }
    {
        let head = head_of(offset, octets);
        if octets.len() <= PIECE_LEN - 8 {
            let mut piece = [0; PIECE_LEN];
            let len = join(&mut piece, &head, octets);
            return write_all(alloc, self.sink, &piece[..len]);
        }
        write_both(alloc, self.sink, &head, octets)
    }
}

/// The head of a record with these octets.
fn head_of(offset: u32, octets: &[u8]) -> [u8; 8]
    requires { length octets.now ≤ MAX_OCTETS }
    ensures { result ++ octets.now ≡ record_octets (written offset octets.now) }
{
    let len = octets.len() as u16;
    let mut head = [0; 8];
    BigEndian::write_u16(&mut head[..2], len + 8);
    BigEndian::write_u16(&mut head[2..4], len);
    BigEndian::write_u32(&mut head[4..], offset);
    head
}

/// Puts the head and the octets together at the front of a piece, and says how long they are.
fn join(piece: &mut [u8], head: &[u8; 8], octets: &[u8]) -> usize
    requires { length octets.now + 8 ≤ length piece.old }
    ensures within { result ≤ length piece.old }
    ensures joined { take result piece.new ≡ head.now ++ octets.now }
{
    let len = 8 + octets.len();
    piece[..8].copy_from_slice(head);
    piece[8..len].copy_from_slice(octets);
    len
}

/// Writes two pieces, one after the other.
fn write_both<K: Sink>(
    alloc: Global,
    sink: &mut K,
    front: &[u8],
    back: &[u8],
) -> Result<(), PutFault>
    ensures whole { OnOk result (Grows (K.held sink.old) (K.held sink.new) (front.now ++ back.now)) }
    ensures fault { OnErr result (GrowsByFront (K.held sink.old) (K.held sink.new) (front.now ++ back.now)) }
    ensures counts { Counts (K.faults sink.old) (put_failed result) (K.faults sink.new) }
    ensures lacks { Counts (K.lacks sink.old) (put_lacked result) (K.lacks sink.new) }
{
    match write_all(alloc, sink, front) {
        Ok(()) => write_all(alloc, sink, back),
        Err(fault) => Err(fault),
    }
}
