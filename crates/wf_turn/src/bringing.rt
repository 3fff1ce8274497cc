//! The answers that bring something: a canvas, or a Job, which a call that began a frame left in its place.

ghost use Rattle.std.specs.Prelude.{◌≡◌, IsTrue, Some};
ghost use Rattle.wf_image.specs.Paints.{is_paint};
ghost use Rattle.wf_script.specs.Script.{is_line};
ghost use Rattle.wf_calls.specs.Replies.{job_payload, replied, with_job};
ghost use Rattle.wf_turn.specs.Program.{port_count, took, took_canvas, took_first, took_frame, took_job};
ghost use Rattle.wf_turn.specs.Ready.{IsAnswered};

use crate::program::Program;
use crate::stage::{Phase, Stage};
use wf_calls::{Answer, Job, Payload, Reply};
use wf_image::{Canvas, Paint};
use wf_script::{Line, Verb};

impl<'a> Program<'a> {
    /// The first line is through, with the canvas that came.
    fn keep_canvas(&mut self, canvas: Canvas)
        ensures { self.new ≡ took_canvas self.old (Payload.Canvas canvas) }
    {
        self.canvas = Some(canvas);
        self.finish(0);
    }

    /// Goes on without a canvas: none came.
    pub(crate) fn without_canvas(&mut self)
        ensures { self.new ≡ took_canvas self.old Payload.Nothing }
    {
        self.canvas = None;
        self.finish(0);
    }

    /// Paints the canvas that came, to post it next.
    fn paint_canvas(&mut self, paint: &Paint, mut canvas: Canvas)
        requires { IsTrue (is_paint paint.now) }
        ensures { self.new ≡ took_frame self.old paint.now (Some canvas) }
    {
        canvas.paint(paint);
        self.canvas = Some(canvas);
        self.stage = Stage::Posting;
    }

    /// Goes on behind a call that may have begun a frame: the Job that stands in its place is to be painted and then ended.
    fn begun(&mut self, phase: Option<Phase>)
        requires { IsAnswered (port_count self.old) phase }
        ensures { self.new ≡ took_job self.old (job_payload self.old.job) phase }
    {
        if self.job.is_held() {
            self.unpainted = true;
            self.stage = Stage::Ending(phase);
        } else {
            self.go_on_without(phase);
        }
    }

    /// Takes a canvas that comes with the answer to the first call of a line.
    fn took_first_canvas(&mut self, line: &Line, answer: Answer, canvas: Canvas)
        requires line { IsTrue (is_line line.now) }
        requires fresh { self.old.stage ≡ Stage.Fresh }
        ensures { self.new ≡ took_first self.old line.now (replied answer (Payload.Canvas canvas)) }
    {
        match &line.verb {
            Verb::Acquire { .. } | Verb::Post | Verb::Discard => self.keep_canvas(canvas),
            Verb::Frame { paint, .. } => self.paint_canvas(paint, canvas),
            _ => self.took_first_answer(line, answer),
        }
    }

    /// Takes a canvas with its answer.
    #[inline(never)]
    pub(crate) fn took_canvas(&mut self, answer: Answer, canvas: Canvas)
        ensures { self.new ≡ took self.old (replied answer (Payload.Canvas canvas)) }
    {
        let Some(line) = self.first_line() else {
            return;
        };
        match self.stage {
            Stage::Fresh => self.took_first_canvas(line, answer, canvas),
            Stage::Posting => self.keep_canvas(canvas),
            Stage::Ticking(phase) => self.go_on_without(Some(self.answered(phase, answer.value))),
            Stage::Ending(phase) => self.go_on_without(phase),
        }
    }

    /// Takes the answer to the first call of a line. A Job that came stands in its place.
    fn took_first_begun(&mut self, line: &Line, answer: Answer)
        requires line { IsTrue (is_line line.now) }
        requires fresh { self.old.stage ≡ Stage.Fresh }
        ensures { self.new ≡ took_first self.old line.now (with_job answer self.old.job) }
    {
        match &line.verb {
            Verb::Tick => {
                self.start_tick();
                self.begun(Some(Phase::Contexts {
                    asked: 1,
                    last: answer.value,
                }));
            }
            Verb::Compose { .. } | Verb::TryCompose { .. } => self.begun(None),
            _ => self.took_first_answer(line, answer),
        }
    }

    /// Takes an answer. A Job that came with it stands in its place.
    pub(crate) fn took_begun(&mut self, answer: Answer)
        ensures { self.new ≡ took self.old (with_job answer self.old.job) }
    {
        let Some(line) = self.first_line() else {
            return;
        };
        match self.stage {
            Stage::Fresh => self.took_first_begun(line, answer),
            Stage::Posting => self.without_canvas(),
            Stage::Ticking(phase) => self.begun(Some(self.answered(phase, answer.value))),
            Stage::Ending(phase) => self.go_on_without(phase),
        }
    }

    /// Takes a Job with its answer.
    #[inline(never)]
    fn took_job(&mut self, answer: Answer, job: Job)
        ensures { self.new ≡ took self.old (replied answer (Payload.Job job)) }
    {
        if self.takes_job() {
            self.job.put(job);
            self.took_begun(answer);
        } else {
            self.took_answer(answer);
        }
    }

    /// Takes the answer to the last call that was handed out.
    pub fn took(&mut self, reply: Reply)
        ensures { self.new ≡ took self.old reply }
    {
        let answer = Answer {
            code: reply.code,
            value: reply.value,
        };
        match reply.payload {
            Payload::Nothing => self.took_answer(answer),
            Payload::Canvas(canvas) => self.took_canvas(answer, canvas),
            Payload::Job(job) => self.took_job(answer, job),
        }
    }
}
