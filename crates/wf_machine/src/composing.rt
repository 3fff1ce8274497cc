//! Frames that clients compose.

ghost use Rattle.std.specs.Prelude.{◌≡◌, None};
ghost use Rattle.wf_calls.specs.Parts.{no_register, of_device};
ghost use Rattle.wf_calls.specs.Places.{job_in};
ghost use Rattle.wf_calls.specs.Replies.{with_job};
ghost use Rattle.wf_model.specs.Frames.{begin_composed, started};
ghost use Rattle.wf_machine.specs.Object.{IsAnswer, IsSettled};

use crate::parts::Parts;
use crate::replies::refuse;
use wf_calls::{Answer, Code, JobPlace};

impl Parts {
    /// Begins a frame of a device's context that is not active. The device's register takes a refusal.
    #[inline(never)]
    pub(crate) fn begin_composed(
        &mut self,
        device: u32,
        context: u32,
        place: &mut JobPlace,
    ) -> Answer
        requires empty { job_in place.old ≡ None }
        ensures left { self.new ≡ (started (of_device device) self.old (begin_composed device context self.old)).0 }
        ensures settled { IsSettled self.new }
        ensures answer { IsAnswer (started (of_device device) self.old (begin_composed device context self.old)).1
            (with_job result (job_in place.new)) }
    {
        let answer = self.compose(device, context, place);
        if !answer.code.is_ok() {
            self.core.record(device, answer.code);
        }
        answer
    }

    /// Begins a frame of a device's context that is not active. No register takes a refusal yet.
    fn compose(&mut self, device: u32, context: u32, place: &mut JobPlace) -> Answer
        requires empty { job_in place.old ≡ None }
        ensures left { self.new ≡ (started no_register self.old (begin_composed device context self.old)).0 }
        ensures settled { IsSettled self.new }
        ensures answer { IsAnswer (started no_register self.old (begin_composed device context self.old)).1
            (with_job result (job_in place.new)) }
    {
        self.prove_all_named();
        let shown = match self.core.context(device, context) {
            Ok(shown) => shown,
            Err(code) => return refuse(code),
        };
        if shown.active {
            return refuse(Code::Unsupported);
        }
        if self.is_busy() {
            return refuse(Code::Busy);
        }
        let target = shown.target;
        place.job_mut().scene.copy_from(shown.scene);
        self.begin_context(0, context, target, place)
    }
}
