//! Laws of the definitions of clients beside one another.

ghost use Rattle.std.specs.Prelude.{List, ◌++◌};
ghost use Rattle.wf_script.specs.Script.{PlainScript};
ghost use Rattle.wf_machine.specs.Histories.{Happening};
ghost use Rattle.wf_show.specs.Together.{IsOrderOf, IsTogether};

/// However the events of a script's clients stand beside one another, their one history is an order of the script: it is legal, its
/// frames are those that the clock shows, and it is complete where every program is through.
pub fn clients_make_an_order()
    ensures { (script : PlainScript) (setup rest : List Happening) → IsTogether script setup rest
        → IsOrderOf script setup (setup ++ rest) }
{}
