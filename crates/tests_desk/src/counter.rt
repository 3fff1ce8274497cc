//! A counter: one thread, two threads, and a pass that is told of another's calls.

ghost use Rattle.std.specs.Prelude.{◌≡◌, ◌+◌, ◌%◌, ◌^◌, true};

use std::sync::Wait;
use std::test::Fail;
use std::thread::{Threads, join};
use wf_desk::{Desk, Object, Pass};

// It adds a number and answers the old sum.
#[derive(Drop)]
struct Counter {
    sum: u64,
}

// What each of two clients adds, so that a replay tells them apart.
const NUMBERS: [u64; 2] = [3, 5];

#[derive(Clone, Copy, Debug, PartialEq)]
struct Added {
    client: u8,
    old: u64,
}

impl Object for Counter {
    type Call = u64;

    type Reply = u64;

    type Entry = Added;

    ghost is_ready = { λ counter n. true };

    ghost may = { λ counter client n reply. reply ≡ counter.sum };

    ghost after = { λ counter client n reply. record { sum = (counter.sum + n) % 2 ^ 64 } };

    ghost entry_of = { λ client reply. record { client = client; old = reply } };

    fn ready(&self, _call: &u64) -> bool {
        true
    }

    fn run(&mut self, _client: u8, call: u64) -> u64 {
        let old = self.sum;
        self.sum = old.wrapping_add(call);
        old
    }

    fn entry(client: u8, reply: &u64) -> Added {
        Added {
            client,
            old: *reply,
        }
    }
}

// Adds a number as often as calls are left.
fn add_often<R: Wait>(rt: &R, desk: &Desk<Counter>, pass: &mut Pass<Counter>, number: u64)
    requires { pass.old.desk ≡ desk.now.id }
    ensures { (pass.new.desk ≡ pass.old.desk) × (pass.new.client ≡ pass.old.client) }
{
    while pass.left() > 0 {
        desk.call(rt, pass, number);
    }
}

// Each client adds its own number.
fn add_both<R: Threads + Wait + Sync>(
    rt: &R,
    desk: &Desk<Counter>,
    mut one: Pass<Counter>,
    mut two: Pass<Counter>,
) -> (Pass<Counter>, Pass<Counter>)
    requires { (one.desk ≡ desk.now.id) × (two.desk ≡ desk.now.id) }
    ensures one { (result.0.desk ≡ one.desk) × (result.0.client ≡ one.client) }
    ensures two { (result.1.desk ≡ two.desk) × (result.1.client ≡ two.client) }
{
    join(
        rt,
        || -> Pass<Counter>
            requires { one.desk ≡ desk.now.id }
            ensures { (result.desk ≡ one.desk) × (result.client ≡ one.client) }
        {
            add_often(rt, desk, &mut one, NUMBERS[0]);
            one
        },
        || -> Pass<Counter>
            requires { two.desk ≡ desk.now.id }
            ensures { (result.desk ≡ two.desk) × (result.client ≡ two.client) }
        {
            add_often(rt, desk, &mut two, NUMBERS[1]);
            two
        },
    )
}

#[test]
fn one_thread_counts(rt: HostRuntime) -> Result<(), Fail> {
    let (desk, mut passes) = Desk::open(rt.alloc(), Counter { sum: 5 }, &[2, 3])?;
    let mut two = passes.pop().unwrap();
    let mut one = passes.pop().unwrap();
    assert_eq!(rt; (one.left(), two.left()), (2, 3));
    assert_eq!(rt; desk.call(&rt, &mut one, 7), 5);
    assert_eq!(rt; desk.call(&rt, &mut one, 4), 12);
    assert_eq!(rt; one.place(), 1);
    // The second client is told of both events, and its own is the third.
    desk.tell(&mut one, &mut two);
    assert_eq!(rt; desk.call(&rt, &mut two, 1), 16);
    assert_eq!(rt; (one.left(), two.left()), (0, 2));
    assert_eq!(rt; (one.place(), two.place()), (1, 2));
    desk.tell(&mut two, &mut one);
    assert_eq!(rt; one.place(), 1);
    passes.push_reserved(one);
    passes.push_reserved(two);
    let (object, journal) = desk.close(passes);
    assert_eq!(rt; object.sum, 17);
    let entries = journal.into_entries();
    let clients: Vec<u8> = entries
        .iter()
        .map(|added| added.client)
        .collect(rt.alloc())?;
    assert_eq!(rt; clients.as_slice(), [0, 0, 1].as_slice());
    Ok(())
}

#[test]
fn two_threads_count(rt: HostRuntime) -> Result<(), Fail> {
    let (desk, mut passes) = Desk::open(rt.alloc(), Counter { sum: 0 }, &[1000, 1000])?;
    let two = passes.pop().unwrap();
    let one = passes.pop().unwrap();
    let (one, two) = add_both(&rt, &desk, one, two);
    passes.push_reserved(one);
    passes.push_reserved(two);
    let (object, journal) = desk.close(passes);
    // The replay of the journal, in which each client adds its own number, gives each answer, and in the end the object.
    let entries = journal.into_entries();
    let mut sum = 0u64;
    let mut calls = [0u32; 2];
    for added in entries {
        let client = usize::from(added.client).min(1);
        assert_eq!(rt; added.old, sum, "of client {client}");
        sum = sum.wrapping_add(NUMBERS[client]);
        calls[client] = calls[client].wrapping_add(1);
    }
    assert_eq!(rt; (calls, object.sum), ([1000, 1000], sum));
    Ok(())
}

#[test]
fn eight_clients_have_memory(rt: HostRuntime) -> Result<(), Fail> {
    let quotas = [1, 0, 100_000, 7, 0, 0, 3, 2];
    let (_desk, passes) = Desk::open(rt.alloc(), Counter { sum: 0 }, &quotas)?;
    let left: Vec<u32> = passes.iter().map(|pass| pass.left()).collect(rt.alloc())?;
    assert_eq!(rt; left.as_slice(), quotas.as_slice());
    Ok(())
}
