//! The program `bench_lock`: takes turns at one lock, by several passes at a time, and says how many there were.
//!
//! It is what is timed to learn what a turn costs. It promises what each turn does to the value under the lock.
#![tactic(auto)]

mod register;
mod run;

ghost use Rattle.std.specs.Prelude.{◌≤◌, IfSome};

use crate::run::run;
use edge_io::Memory;
use std::env;
use std::process::ExitCode;
use std::rt::Env;

/// The most passes of a run.
const MOST_PASSES: u64 = 1024;

fn main(rt: HostRuntime) -> ExitCode {
    let Some((passes, turns)) = words(&rt) else {
        let _ = eprintln!(rt; "usage: bench_lock PASSES TURNS, with PASSES from 1 to 1024");
        return ExitCode::from(2);
    };
    let alloc = rt.alloc();
    let Ok(register) = run(&rt, alloc, passes, turns) else {
        let _ = eprintln!(rt; "out of memory");
        return ExitCode::from(8);
    };
    let (turns, entries) = (register.turns(), register.entries());
    match println!(rt; "passes {passes} turns {turns} entries {entries}") {
        Ok(()) => ExitCode::from(0),
        Err(_) => ExitCode::from(7),
    }
}

/// The number of passes and the number of turns that the command line asks for.
fn words<R: Env + AllocGlobal>(rt: &R) -> Option<(u64, u64)>
    ensures { IfSome result (λ r. (1 ≤ r.0) × (r.0 ≤ 1024)) }
{
    let mut words = env::args(rt).ok()?.skip(1);
    let passes = words.next()?.parse::<u64>().ok()?;
    let turns = words.next()?.parse::<u64>().ok()?;
    if words.next().is_some() || passes == 0 || passes > MOST_PASSES {
        return None;
    }
    Some((passes, turns))
}
