//! The records of a tick, handed to the desk.
ghost use Rattle.std.specs.Prelude.{◌≡◌, ◌<◌, ◌≤◌, length, OnOk, IfErr};
ghost use Rattle.edge_io.specs.Told.{Counts};
ghost use Rattle.rtp_dump.specs.Faults.{read_failed};
ghost use Rattle.session_spec.specs.Talkers.{Events};
ghost use Rattle.session_spec.specs.Events.{after_record, after_records};
ghost use Rattle.desk_run.specs.Taking.{IsGoing, Heard, Broken};

use crate::sides::DeskSide;
use edge_io::Source;
use rtp_dump::{DumpFault, DumpItem, Reader};
use std::alloc::Global;

/// Hands a record to the desk, unless it is one of RTCP.
fn hand<D: DeskSide>(desk: &mut D, item: &DumpItem)
    requires { length item.now.octets ≤ 65527 }
    ensures plan { D.plan desk.new ≡ D.plan desk.old }
    ensures stands { (h : Events) → D.stands desk.old h → D.stands desk.new (after_record item.now h) }
{
    if item.plen > 0 {
        desk.arrive(item.plen, item.octets.as_slice());
    }
}

/// Hands the records before a moment to the desk.
pub(crate) fn hear<S: Source, D: DeskSide>(
    alloc: Global,
    reader: &mut Reader<S>,
    desk: &mut D,
    end: u32,
) -> Result<(), DumpFault>
    requires { IsGoing reader.old }
    ensures same_source { reader.new.ghost_name ≡ reader.old.ghost_name }
    ensures going { OnOk result (IsGoing reader.new) }
    ensures plan { D.plan desk.new ≡ D.plan desk.old }
    ensures heard { OnOk result (Heard (λ s. S.rest s) reader.old reader.new end
        (λ items. (h : Events) → D.stands desk.old h → D.stands desk.new (after_records items h))) }
    ensures broken { IfErr result (λ fault. Broken (λ s. S.rest s) reader.old reader.new end fault) }
    ensures counts { Counts (S.faults reader.old.source) (read_failed result) (S.faults reader.new.source) }
{
    'records: while let Some(item) = reader.next_before(alloc, end)? {
        hand(desk, &item);
    }
    Ok(())
}
