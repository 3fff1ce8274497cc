//! The program `bench_desk`: with the word `calls` it prints how many calls a second 1, 2 and 4 threads make on a
//! counter behind a desk, and on the same counter in a `Mutex`. With any other words it prints nothing.
#![tactic(auto)]

mod counter;

ghost use Rattle.std.specs.Prelude.{◌≡◌, ◌<◌, ◌≤◌, ◌^◌, All, length, sum};

use counter::Counter;
use std::alloc::Global;
use std::process::ExitCode;
use std::rt::{Clock, Env};
use std::sync::{Mutex, Wait};
use std::thread::Threads;
use std::time::{Duration, Instant};
use std::{env, io, thread};
use wf_desk::{Desk, Object, Pass};

/// How many calls are timed, by all threads together.
const CALLS: u32 = 1_000_000;

/// How often they are; the shortest time counts.
const ROUNDS: u32 = 9;

/// Makes all calls that are left to the pass.
fn call_desk<R: Wait>(rt: &R, desk: &Desk<Counter>, pass: &mut Pass<Counter>)
    requires { pass.old.desk ≡ desk.now.id }
{
    while pass.left() > 0 {
        desk.call(rt, pass, 1);
    }
}

/// Makes as many calls on the counter in the lock.
fn call_lock<R: Wait>(rt: &R, counter: &Mutex<Counter>, calls: u32) {
    for _ in 0..calls {
        counter.lock(rt).run(0, 1);
    }
}

/// All calls on a desk, a thread for each pass.
fn call_all<R: Threads + Wait + Sync>(rt: &R, desk: &Desk<Counter>, passes: &mut [Pass<Counter>])
    requires any { 1 ≤ length passes.old }
    requires desk { All (λ pass. pass.desk ≡ desk.now.id) passes.old }
{
    let threads = passes.len();
    thread::for_each_mut(
        rt,
        passes,
        threads,
        &|_, pass: &mut Pass<Counter>|
            requires { pass.old.desk ≡ desk.now.id }
        { call_desk(rt, desk, pass) },
    );
}

/// The time of these calls behind a desk, with a thread for each quota.
fn desk_time<R: Threads + Wait + Sync + Clock>(
    rt: &R,
    alloc: Global,
    quotas: &[u32],
) -> io::Result<Duration>
    requires count { (1 ≤ length quotas.now) × (length quotas.now ≤ 8) }
    requires sum { sum quotas.now < 2 ^ 32 }
{
    let Ok((desk, mut passes)) = Desk::open(alloc, Counter { sum: 0 }, quotas) else {
        return Err(io::ErrorKind::OutOfMemory.into());
    };
    let start = Instant::now(rt)?;
    call_all(rt, &desk, &mut passes);
    start.elapsed(rt)
}

/// The time of these calls on a counter in a lock, with a thread for each quota.
fn lock_time<R: Threads + Wait + Sync + Clock>(
    rt: &R,
    alloc: Global,
    quotas: &[u32],
) -> io::Result<Duration>
    requires { 1 ≤ length quotas.now }
{
    let mut calls = Vec::new(alloc);
    calls.extend_from_slice(quotas)?;
    let counter = Mutex::new(Counter { sum: 0 });
    let start = Instant::now(rt)?;
    thread::for_each_mut(
        rt,
        &mut calls,
        quotas.len(),
        &|_, calls: &mut u32| { call_lock(rt, &counter, *calls) },
    );
    start.elapsed(rt)
}

/// Prints both times of as many threads as there are quotas.
fn print_times<R: Print + Threads + Wait + Sync + Clock + AllocGlobal>(
    rt: &R,
    quotas: &[u32],
) -> io::Result<()>
    requires count { (1 ≤ length quotas.now) × (length quotas.now ≤ 8) }
    requires sum { sum quotas.now < 2 ^ 32 }
{
    let mut desk = Duration::MAX;
    let mut lock = Duration::MAX;
    for _ in 0..ROUNDS {
        desk = desk.min(desk_time(rt, rt.alloc(), quotas)?);
        lock = lock.min(lock_time(rt, rt.alloc(), quotas)?);
    }
    println!(rt;
        "threads {}: {} calls a second behind a desk, {} in a lock",
        quotas.len(),
        per_second(desk),
        per_second(lock)
    )
}

/// How many calls a second the time of all is.
fn per_second(time: Duration) -> u64 {
    let microseconds = u64::try_from(time.as_micros()).unwrap_or(u64::MAX);
    CALLS as u64 * 1_000_000 / microseconds.max(1)
}

fn print_all<R: Print + Threads + Wait + Sync + Clock + AllocGlobal>(rt: &R) -> io::Result<()> {
    print_times(rt, &[CALLS])?;
    print_times(rt, &[CALLS / 2; 2])?;
    print_times(rt, &[CALLS / 4, CALLS / 4, CALLS / 4, CALLS / 4])
}

/// The first word of the command line is `calls`.
fn is_asked(rt: &(impl Env + AllocGlobal)) -> io::Result<bool> {
    let words: Vec<String> = env::args(rt)?.skip(1).collect(rt.alloc())?;
    Ok(words.first().is_some_and(|word| word.as_str() == "calls"))
}

fn main(rt: HostRuntime) -> ExitCode {
    let printed = match is_asked(&rt) {
        Ok(true) => print_all(&rt),
        Ok(false) => Ok(()),
        Err(error) => Err(error),
    };
    match printed {
        Ok(()) => ExitCode::SUCCESS,
        Err(_) => ExitCode::FAILURE,
    }
}
