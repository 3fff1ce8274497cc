//! Laws of the plain machine.

ghost use Rattle.std.specs.Prelude.{◌≡◌, ℕ, ℤ, ◌++◌, List, Some, IsFalse};
ghost use Rattle.std.specs.List.{AllByRecursion};
ghost use Rattle.wf_stream.specs.Buffers.{Buffers, is_plain};
ghost use Rattle.wf_stream.specs.Streams.{buffers_at};
ghost use Rattle.wf_calls.specs.declared.ports.Ports.{Ports};
ghost use Rattle.wf_model.specs.DisplayCommits.{commit_pipe};
ghost use Rattle.wf_model.specs.DisplaySides.{DisplaySide};
ghost use Rattle.wf_model.specs.Frames.{next_context};
ghost use Rattle.wf_model.specs.Objects.{Context};
ghost use Rattle.wf_model.specs.Outcome.{Leaves};
ghost use Rattle.wf_model.specs.QueueOrder.{IsKept, all_put, all_taken, waiting_at};
ghost use Rattle.wf_model.specs.Reached.{Called, ContextsRise, IsNoEarlier, after_calls};
ghost use Rattle.wf_model.specs.State.{State, opening};

/// The commit of a pipeline changes no port: neither what is cached of it nor what is committed.
pub fn ports_stay_at_a_pipelines_commit()
    ensures { (pipe : ℤ) (w : DisplaySide) → Leaves (λ (x : DisplaySide). x.display.ports) w.display.ports (commit_pipe pipe w) }
{}

/// In every state that calls lead to, the handles of the contexts rise.
pub fn handles_of_contexts_rise()
    ensures { (ports : Ports) (calls : List Called) → ContextsRise (after_calls (opening ports) calls) }
{}

/// In every state that calls lead to, the next context after a handle is the active one with the least handle above it.
pub fn the_next_context_is_the_least()
    ensures { (ports : Ports) (calls : List Called) (after : ℕ) (c : Context)
        → next_context after (after_calls (opening ports) calls).core.contexts ≡ Some c
        → AllByRecursion (IsNoEarlier after c.handle) (after_calls (opening ports) calls).core.contexts }
{}

/// As long as a queue is kept, what waited in it and was put into it since, by posts and by frames of contexts that ended, is what
/// frames took out of it, and then what waits in it: in this order, none left out and none twice.
pub fn frames_take_images_in_order()
    ensures { (n : ℕ) (h : State) (calls : List Called) (b : Buffers) → buffers_at n h.streams ≡ Some b → IsFalse (is_plain b)
        → IsKept n h calls → b.waiting ++ all_put n h calls ≡ all_taken n h calls ++ waiting_at n (after_calls h calls) }
{}
