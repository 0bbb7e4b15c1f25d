//! What is kept of one listener.
ghost use Rattle.std.specs.Prelude.{◌≡◌, ◌≤◌, ◌+◌, ◌*◌, ◌%◌, ◌^◌, map, filter, not};
ghost use Rattle.live_tally.specs.Accounts.{leaves, has_left, report_for, with_packet};

use conference_spec::JoinSpec;

/// A listener that has had no last report: what it asked for, and after how many ticks it came and left.
#[derive(Clone, Copy)]
pub(crate) struct Account {
    pub(crate) spec: JoinSpec,
    pub(crate) from: u64,
    pub(crate) left: Option<u64>,
}

/// What a member was sent: packets, and the octets of their payloads, both modulo 2^32.
#[derive(Clone, Copy)]
pub(crate) struct Total {
    pub(crate) packets: u32,
    pub(crate) octets: u32,
}

/// A member leaves after so many ticks: the account is its own where its listener is present.
pub(crate) fn mark_leave(account: &mut Account, member: u32, closed: u64)
    ensures { account.new ≡ leaves member closed account.old }
{
    if account.left.is_none() && account.spec.member == member {
        account.left = Some(closed);
    }
}

/// A member leaves after so many ticks, in the row of all accounts.
pub(crate) fn mark_leaves(accounts: &mut [Account], member: u32, closed: u64)
    ensures { accounts.new ≡ map (leaves member closed) accounts.old }
{
    for account in accounts.iter_mut() {
        mark_leave(account, member, closed);
    }
}

/// Drops the accounts of those who left after so many ticks.
pub(crate) fn drop_leavers(accounts: &mut Vec<Account>, tick: u64)
    ensures { accounts.new.items ≡ filter (λ a. not (has_left tick a.left)) accounts.old.items }
{
    accounts.retain(|account| !has_left(tick, account.left));
}

/// It left after so many ticks.
pub(crate) fn has_left(tick: u64, left: Option<u64>) -> bool
    ensures { result ≡ has_left tick left }
{
    match left {
        None => false,
        Some(left) => left == tick,
    }
}

/// One packet more, whose payloads have so many octets.
pub(crate) fn with_packet(total: Option<Total>, len: usize) -> Total
    requires { len ≤ 400 }
    ensures { result ≡ with_packet total len }
{
    match total {
        None => Total {
            packets: 1,
            octets: len as u32,
        },
        Some(total) => Total {
            packets: total.packets.wrapping_add(1),
            octets: total.octets.wrapping_add(len as u32),
        },
    }
}

/// The timestamp after so many ticks (RFC 3550, section 5.1).
pub(crate) fn stamp_after(first: u32, ticks: u64) -> u32
    requires { ticks ≤ 4320000 }
    ensures { result ≡ (first + 160 * ticks) % 2 ^ 32 }
{
    first.wrapping_add((160 * ticks) as u32)
}
