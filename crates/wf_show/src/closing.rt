//! The end of a desk.

ghost use Rattle.std.specs.Prelude.{◌≡◌, ◌≤◌, [], List, length, vec_capacity};
ghost use Rattle.std.specs.List.{AllByRecursion};
ghost use Rattle.wf_calls.specs.Orders.{IsEntry};
ghost use Rattle.wf_model.specs.State.{opening};
ghost use Rattle.wf_show.specs.Opened.{AreSeated, passes_of};
ghost use Rattle.wf_show.specs.Ends.{IsHistory};
ghost use Rattle.wf_machine.specs.Histories.{Happening};
ghost use Rattle.wf_show.specs.Shown.{order_of};

use crate::player::Player;
use wf_calls::Order;
use wf_desk::{Desk, Pass};
use wf_machine::Machine;

/// The passes of all players.
fn gather(mut ended: Vec<Pass<Machine>>, clock: Player, others: Vec<Player>) -> Vec<Pass<Machine>>
    requires none { ended.items ≡ [] }
    requires room { 8 ≤ vec_capacity ended }
    requires seven { length others.items ≡ 7 }
    ensures { result.items ≡ passes_of clock.entry others.entry.items }
{
    ended.push_reserved(clock.pass);
    for player in others {
        ended.push_reserved(player.pass);
    }
    ended
}

/// Ends `desk`, when all players have given their passes back. Returns the order of all events.
#[inline(never)]
pub(crate) fn close(
    desk: Desk<Machine>,
    clock: Player,
    others: Vec<Player>,
    ended: Vec<Pass<Machine>>,
) -> Order
    requires opening { desk.opening ≡ opening clock.program.script.ports }
    requires eight { length desk.quotas ≡ 8 }
    requires seven { length others.items ≡ 7 }
    requires none { ended.items ≡ [] }
    requires room { 8 ≤ vec_capacity ended }
    requires seated { AreSeated desk.id clock others.items }
    ensures closed { (history : List Happening)
        × (IsHistory clock.entry.program.script clock.entry others.entry.items history × (result ≡ order_of history)) }
    ensures values { AllByRecursion IsEntry result }
{
    let (_, journal) = desk.close(gather(ended, clock, others));
    Order::new(journal.into_entries())
}
