//! What the definition of a capture comes to, in both directions.
ghost use Rattle.std.specs.Prelude.{◌≡◌, ◌<◌, ◌≤◌, ◌++◌, ℕ, List, length, All, None};
ghost use Rattle.std.specs.List.{AllByRecursion, flat_map};
ghost use Rattle.rtp_dump.specs.declared.item.DumpItem.{DumpItem};
ghost use Rattle.rtp_dump.specs.Spelling.{Capture, Fits, placed, record_octets, Spells};
ghost use Rattle.rtp_dump.specs.Capture.{capture};
ghost use Rattle.rtp_dump.specs.Writing.{output_head};

use crate::item::MAX_RECORDS;

/// What is read of octets is spelled so: they are a line, a file head, the records and what follows
/// them, each fault is one and stands where it says.
pub fn read_is_spelled()
    ensures { (octets : List ℕ) → All (λ octet. octet < 256) octets → Spells octets (capture octets) }
{}

/// What is spelled so is read: octets spell no other capture.
pub fn spelled_is_read()
    ensures { (octets : List ℕ) (found : Capture) → Spells octets found → capture octets ≡ found }
{}

/// What a writer writes is a capture of just those records, one after the other behind the head.
pub fn written_is_read()
    ensures { (items : List DumpItem) → AllByRecursion Fits items → length items ≤ MAX_RECORDS →
        capture (output_head ++ flat_map record_octets items) ≡ record { records = placed 39 items; fault = None } }
{}
