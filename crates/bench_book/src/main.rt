//! The program `bench_book`: runs ticks of a conference through its Book, and says how many encoder runs and packets they had.
//!
//! It is what is timed to learn what a tick costs beside its encoder runs. It promises what the ticks do to the Book, and
//! that each tick has a packet for each listener.
#![tactic(auto)]

mod coders;
mod run;
mod stops;
mod voice;

ghost use Rattle.std.specs.Prelude.{◌≤◌, IfSome};

use crate::run::measure;
use crate::stops::{Counts, Kind, Stop};
use std::env;
use std::process::ExitCode;
use std::rt::Env;

/// The most listeners that a Book has at a time.
const MOST_LISTENERS: u64 = 1024;

/// The most ticks that are counted.
const MOST_TICKS: u64 = 80_000;

fn main(rt: HostRuntime) -> ExitCode {
    let Some((listeners, ticks, kind)) = words(&rt) else {
        let _ = eprintln!(rt;
            "usage: bench_book LISTENERS TICKS KIND, with LISTENERS from 1 to 1024, TICKS up to 80000, KIND shared, apart or encode"
        );
        return ExitCode::from(2);
    };
    match measure(rt.alloc(), listeners, ticks, kind) {
        Ok(Counts { runs, packets }) => {
            match println!(rt;
                "listeners {listeners} ticks {ticks} runs {runs} packets {packets}"
            ) {
                Ok(()) => ExitCode::from(0),
                Err(_) => ExitCode::from(7),
            }
        }
        Err(Stop::Memory) => {
            let _ = eprintln!(rt; "out of memory");
            ExitCode::from(8)
        }
        Err(Stop::Refused) => {
            let _ = eprintln!(rt; "the Book refused a call");
            ExitCode::from(1)
        }
    }
}

/// The listeners, the ticks and the kind of conference that the command line asks for.
fn words<R: Env + AllocGlobal>(rt: &R) -> Option<(u64, u64, Kind)>
    ensures { IfSome result (λ r. (1 ≤ r.0) × (r.0 ≤ 1024) × (r.1 ≤ 80000)) }
{
    let mut words = env::args(rt).ok()?.skip(1);
    let listeners = words.next()?.parse::<u64>().ok()?;
    let ticks = words.next()?.parse::<u64>().ok()?;
    let kind = Kind::of(words.next()?.as_str())?;
    if words.next().is_some()
        || listeners == 0
        || listeners > MOST_LISTENERS
        || ticks > MOST_TICKS
    {
        return None;
    }
    Some((listeners, ticks, kind))
}
