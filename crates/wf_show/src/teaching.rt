//! What the setup hands on to the other clients.

ghost use Rattle.std.specs.Prelude.{◌≡◌, ℕ, length};
ghost use Rattle.wf_show.specs.Players.{AllTold, AreFresh, IsTold};

use crate::player::Player;
use wf_desk::Desk;
use wf_machine::Machine;

/// A player is told of the setup, and learns the values of its names.
fn teach_one(desk: &Desk<Machine>, clock: &mut Player, player: &mut Player)
    requires clock { clock.old.pass.desk ≡ desk.now.id }
    requires client { clock.old.program.client ≡ 0 }
    requires player { player.old.pass.desk ≡ desk.now.id }
    requires script { clock.old.program.script ≡ player.old.program.script }
    ensures clock { clock.new ≡ clock.old }
    ensures told { IsTold clock.old player.old player.new }
{
    desk.tell(&mut clock.pass, &mut player.pass);
    player.program.learn(&clock.program);
}

/// The others, from client 1 on, are told of the setup, and learn the values of its names.
pub(crate) fn teach(desk: &Desk<Machine>, clock: &mut Player, others: &mut [Player])
    requires clock { clock.old.pass.desk ≡ desk.now.id }
    requires client { clock.old.program.client ≡ 0 }
    requires others { AreFresh desk.now.id clock.old.program.script 1 others.old }
    ensures clock { clock.new ≡ clock.old }
    ensures told { AllTold clock.old others.old others.new }
{
    for i in 0..others.len() {
        teach_one(desk, clock, &mut others[i]);
    }
}
