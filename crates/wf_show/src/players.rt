//! The players of a script before their first calls, at one desk.

ghost use Rattle.std.specs.Prelude.{◌≡◌, ◌∷◌, ◌<◌, ◌≤◌, ◌^◌, [], length, sum, IfOk, IsTrue};
ghost use Rattle.std.specs.List.{list_all};
ghost use Rattle.wf_script.specs.Script.{may_tick};
ghost use Rattle.wf_turn.specs.Quota.{quota};
ghost use Rattle.wf_show.specs.Opened.{ArePlayers, passes_from};
ghost use Rattle.wf_show.specs.Players.{AreFresh};

use crate::player::{OTHERS, Player};
use std::alloc::Global;
use wf_desk::{Desk, Pass};
use wf_machine::Machine;
use wf_script::{MOST_LINES, Script};
use wf_turn::{Program, quota};
use wf_words::NoMemory;

/// How many clients there are.
const CLIENTS: usize = 8;

/// All that a play on threads needs of memory: the desk, the clock, the other players from client 1 on, and room for the passes that
/// they give back.
#[derive(Drop)]
pub(crate) struct Players<'a> {
    pub desk: Desk<Machine>,
    pub clock: Player<'a>,
    pub others: Vec<Player<'a>>,
    pub ended: Vec<Pass<Machine>>,
}

/// How many events each client makes at most.
fn quotas_of(script: &Script) -> [u32; 8]
    ensures quotas { result ≡ quota script.now.lines 0 ∷ quota script.now.lines 1 ∷ quota script.now.lines 2 ∷ quota script.now.lines 3
        ∷ quota script.now.lines 4 ∷ quota script.now.lines 5 ∷ quota script.now.lines 6 ∷ quota script.now.lines 7 ∷ [] }
    ensures sum { sum result < 2 ^ 32 }
    ensures few { length script.now.lines ≤ MOST_LINES }
    ensures ticks { IsTrue (list_all may_tick script.now.lines) }
{
    // What holds of every script is known by its lines.
    let _lines = script.lines();
    [
        quota(script, 0),
        quota(script, 1),
        quota(script, 2),
        quota(script, 3),
        quota(script, 4),
        quota(script, 5),
        quota(script, 6),
        quota(script, 7),
    ]
}

/// The players of these passes, from client 1 on.
fn players_of<'a>(
    alloc: Global,
    script: &'a Script,
    desk: &Desk<Machine>,
    passes: Vec<Pass<Machine>>,
) -> Result<Vec<Player<'a>>, NoMemory>
    requires passes { passes.items ≡ passes_from desk.now.id script.now 1 7 }
    requires few { length script.now.lines ≤ MOST_LINES }
    ensures fresh { IfOk result (λ players. AreFresh desk.now.id script.now 1 players.items) }
    ensures seven { IfOk result (λ players. length players.items ≡ 7) }
{
    let mut players = Vec::with_capacity(alloc, OTHERS)?;
    let mut client = 1u8;
    for pass in passes {
        let program = Program::new(alloc, script, client)?;
        players.push_reserved(Player { pass, program });
        client += 1;
    }
    Ok(players)
}

impl<'a> Players<'a> {
    /// The players of a script. What it moves is off the stack when it returns.
    #[inline(never)]
    pub(crate) fn open(alloc: Global, script: &'a Script) -> Result<Players<'a>, NoMemory>
        ensures { IfOk result (ArePlayers script.now) }
    {
        let machine = Machine::open(alloc, script.ports())?;
        let ended = Vec::with_capacity(alloc, CLIENTS)?;
        let (desk, mut passes) = Desk::open(alloc, machine, &quotas_of(script))?;
        let pass = passes.remove(0);
        let program = Program::new(alloc, script, 0)?;
        let others = players_of(alloc, script, &desk, passes)?;
        Ok(Players {
            desk,
            clock: Player { pass, program },
            others,
            ended,
        })
    }
}
