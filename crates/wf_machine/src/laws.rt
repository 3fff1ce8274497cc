//! Laws of the machine's step.

ghost use Rattle.std.specs.Prelude.{◌≡◌, ℕ, Bool, None, Some, IsFalse};
ghost use Rattle.wf_calls.specs.declared.call.Call.{Call};
ghost use Rattle.wf_machine.specs.Begun.{TakesOnce};
ghost use Rattle.wf_machine.specs.LeftAlone.{IsLeftAlone, ends_frame};
ghost use Rattle.wf_model.specs.State.{Running, State};
ghost use Rattle.wf_model.specs.Step.{step};

/// While a frame runs, every call but an end, of whatever client, leaves that frame running, and leaves the read buffer of
/// each stream that the frame names as it is: the images that the frame took stay away.
pub fn frames_are_left_alone()
    ensures { (h : State) (client : ℕ) (c : Call) (memory_refused : Bool) (f : Running) → IsFalse (ends_frame c)
        → h.frame ≡ Some f → IsLeftAlone f h (step h client c memory_refused).0 }
{}

/// A frame that begins takes one image of a stream, and none of a stream twice.
pub fn frames_take_each_image_once()
    ensures { (h : State) (client : ℕ) (c : Call) (memory_refused : Bool) (f : Running) → h.frame ≡ None
        → (step h client c memory_refused).0.frame ≡ Some f → TakesOnce f }
{}
