//! Which reports are due.
ghost use Rattle.std.specs.Prelude.{◌≡◌, ◌≤◌, ◌<◌, ◌++◌, ◌+◌, ◌-◌, length, IfOk, OnOk, is_none, if◌then◌else◌};
ghost use Rattle.std.specs.HashMap.{get};
ghost use Rattle.std.specs.Prelude.{nat_eq};
ghost use Rattle.std.specs.List.{flat_map};
ghost use Rattle.live_tally.specs.Accounts.{report_for, regular_of, last_of, end_of, due_at};

use crate::account::{Account, Total, has_left, stamp_after};
use edge_io::Memory;
use rtcp_pack::Report;
use std::alloc::Global;
use std::collections::HashMap;

/// After so many ticks, those who are present are due for a report.
const TICKS_A_REPORT: u64 = 250;

/// The reports that are due after a tick: the regular ones after each 250th, and the last ones.
pub(crate) fn due_at(
    alloc: Global,
    accounts: &[Account],
    totals: &HashMap<u32, Total>,
    tick: u64,
) -> Result<Vec<Report>, Memory>
    requires { tick < 4320000 }
    ensures { IfOk result (λ reports. reports.items ≡ due_at (get nat_eq totals.now) tick accounts.now) }
{
    let mut reports = Vec::new(alloc);
    if (tick + 1) % TICKS_A_REPORT == 0 {
        add_regular(&mut reports, accounts, totals, tick)?;
    }
    add_last(&mut reports, accounts, totals, tick)?;
    Ok(reports)
}

/// The report to a listener after so many ticks of its own, if it was sent a packet, behind other reports.
fn add_report(
    reports: &mut Vec<Report>,
    account: &Account,
    ticks: u64,
    bye: bool,
    total: Option<Total>,
) -> Result<(), Memory>
    requires { ticks ≤ 4320000 }
    ensures { OnOk result (reports.new.items ≡ reports.old.items ++ report_for account.now ticks bye total) }
{
    if let Some(total) = total {
        let spec = account.spec;
        reports.push(Report {
            ssrc: spec.ssrc,
            stamp: stamp_after(spec.first_stamp, ticks),
            packets: total.packets,
            octets: total.octets,
            member: spec.member,
            bye,
        })?;
    }
    Ok(())
}

/// The regular reports after a tick, to those who are present, behind other reports.
pub(crate) fn add_regular(
    reports: &mut Vec<Report>,
    accounts: &[Account],
    totals: &HashMap<u32, Total>,
    tick: u64,
) -> Result<(), Memory>
    requires { tick + 1 ≤ 4320000 }
    ensures { OnOk result (reports.new.items ≡ reports.old.items ++ flat_map (regular_of (get nat_eq totals.now) tick) accounts.now) }
{
    for account in accounts {
        if account.left.is_none() {
            let total = totals.get(&account.spec.member).copied();
            add_report(
                reports,
                account,
                (tick + 1).saturating_sub(account.from),
                false,
                total,
            )?;
        }
    }
    Ok(())
}

/// The last reports after a tick, to those who left right before its close, behind other reports.
pub(crate) fn add_last(
    reports: &mut Vec<Report>,
    accounts: &[Account],
    totals: &HashMap<u32, Total>,
    tick: u64,
) -> Result<(), Memory>
    requires { tick ≤ 4320000 }
    ensures { OnOk result (reports.new.items ≡ reports.old.items ++ flat_map (last_of (get nat_eq totals.now) tick) accounts.now) }
{
    for account in accounts {
        if has_left(tick, account.left) {
            let total = totals.get(&account.spec.member).copied();
            add_report(
                reports,
                account,
                tick.saturating_sub(account.from),
                true,
                total,
            )?;
        }
    }
    Ok(())
}

/// The last reports after the last of so many ticks, to all others, behind other reports.
pub(crate) fn add_end(
    reports: &mut Vec<Report>,
    accounts: &[Account],
    totals: &HashMap<u32, Total>,
    ticks: u64,
) -> Result<(), Memory>
    requires { ticks ≤ 4320000 }
    ensures { OnOk result (reports.new.items ≡ reports.old.items ++ flat_map (end_of (get nat_eq totals.now) ticks) accounts.now) }
{
    for account in accounts {
        let total = totals.get(&account.spec.member).copied();
        add_report(
            reports,
            account,
            ticks.saturating_sub(account.from),
            true,
            total,
        )?;
    }
    Ok(())
}
