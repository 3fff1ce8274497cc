//! The players of a script, and those on threads.

ghost use Rattle.std.specs.Prelude.{◌≡◌, ◌≤◌, ◌<◌, ℕ, All, length, slice_index_or};
ghost use Rattle.wf_show.specs.Players.{AllWorked, IsWaiting, Worked};

use crate::client::run_client;
use crate::gate::Gate;
use std::sync::Wait;
use std::thread;
use std::thread::Threads;
use wf_desk::{Desk, Pass};
use wf_machine::Machine;
use wf_turn::Program;

/// How many clients there are beside the clock.
pub(crate) const OTHERS: usize = 7;

/// A client's program, with the pass by which it calls.
#[derive(Drop)]
pub(crate) struct Player<'a> {
    pub pass: Pass<Machine>,
    pub program: Program<'a>,
}

/// Plays the program of a client to its end.
fn run<R: Wait, G: Gate>(rt: &R, desk: &Desk<Machine>, gate: &G, player: &mut Player)
    requires { IsWaiting desk.now.id player.old }
    ensures { Worked player.old player.new }
{
    run_client(rt, desk, &mut player.pass, &mut player.program, gate);
}

/// Plays the programs of clients to their ends, each on a thread of its own where one can be had.
pub(crate) fn run_all<R: Threads + Wait + Sync, G: Gate>(
    rt: &R,
    desk: &Desk<Machine>,
    gate: &G,
    players: &mut [Player],
)
    requires { All (IsWaiting desk.now.id) players.old }
    ensures { AllWorked players.old players.new }
{
    thread::for_each_mut(
        rt,
        players,
        OTHERS,
        &|_: usize, player: &mut Player|
            requires { IsWaiting desk.now.id player.old }
            ensures { Worked player.old player.new }
        { run(rt, desk, gate, player) },
    );
}
