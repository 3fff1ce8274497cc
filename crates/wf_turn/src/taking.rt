//! The answers that a program takes: how it goes on, and the answers with which nothing comes.

ghost use Rattle.std.specs.Prelude.{◌≡◌, ◌<◌, ◌≤◌, ◌+◌, ◌-◌, ◌^◌, ◌++◌, length, is_some, IsTrue, None, false};
ghost use Rattle.std.specs.Borrow.{sem};
ghost use Rattle.std.specs.Option.{option_copied, option_copied_mut};
ghost use Rattle.std.specs.Prelude.{if◌then◌else◌};
ghost use Rattle.wf_calls.specs.Replies.{bare};
ghost use Rattle.wf_script.specs.Script.{is_line};
ghost use Rattle.wf_turn.specs.Lending.{lends_job};
ghost use Rattle.wf_turn.specs.Ready.{IsAnswered, IsAsking, IsWork};
ghost use Rattle.wf_turn.specs.Names.{bound_name, bound_value};
ghost use Rattle.wf_turn.specs.Program.{answered, asked_next, at_port, go_on, is_work, line_done, port_count, ticking, took};
ghost use Rattle.wf_turn.specs.Program.{took_first, unheld, worked};

use crate::names::Names;
use crate::program::Program;
use crate::skipping::skip;
use crate::stage::{Phase, Stage};
use wf_calls::{Answer, Job};
use wf_kernel::Painter;
use wf_model::MOST_CONTEXTS;
use wf_script::{Line, Verb};

/// Gives the name that a line binds, if there is one, its value.
fn bind_line(own: &mut Names, line: &Line, value: u32)
    requires { IsTrue (is_some (bound_name line.now)) → length own.old.values < length own.old.names }
    ensures { own.new ≡ record own.old { values = own.old.values ++ bound_value (bound_name line.now) value } }
{
    if line.verb.creates() && line.name.is_some() {
        own.bind(value);
    }
}

impl<'a> Program<'a> {
    /// The first line is through; the name that it binds, if there is one, has this value.
    pub(crate) fn finish(&mut self, value: u32)
        ensures { self.new ≡ line_done self.old value }
    {
        let lines = self.script.lines();
        if self.at < lines.len() {
            bind_line(&mut self.own, &lines[self.at], value);
            self.at = skip(lines, self.client, self.at + 1, &mut self.canvas);
            self.stage = Stage::Fresh;
        }
    }

    /// Goes on with the ports of a tick from one on.
    fn at_port(&mut self, port: u32)
        requires { port ≤ port_count self.old + 1 }
        ensures { self.new ≡ at_port self.old port }
    {
        if self.port_count < port {
            self.finish(0);
        } else {
            self.stage = Stage::Ticking(Phase::Ports { port });
        }
    }

    /// Goes on after the answer to a question for a context's frame, or after the end of that frame.
    fn asked_next(&mut self, asked: u32, last: u32)
        requires { asked ≤ MOST_CONTEXTS }
        ensures { self.new ≡ asked_next self.old asked last }
    {
        if last == 0 || asked as usize >= MOST_CONTEXTS {
            self.at_port(1);
        } else {
            self.stage = Stage::Ticking(Phase::Contexts { asked, last });
        }
    }

    /// A tick goes on, or a line that is no tick is through.
    pub(crate) fn go_on(&mut self, phase: Option<Phase>)
        requires { IsAnswered (port_count self.old) phase }
        ensures { self.new ≡ go_on self.old phase }
    {
        match phase {
            None => self.finish(0),
            Some(Phase::Contexts { asked, last }) => self.asked_next(asked, last),
            Some(Phase::Ports { port }) => self.at_port(port),
        }
    }

    /// A tick begins.
    pub(crate) fn start_tick(&mut self)
        requires { self.old.stage ≡ Stage.Fresh }
        ensures { self.new ≡ ticking self.old }
    {
        self.tick += 1;
        self.stage = Stage::Ticking(Phase::Contexts { asked: 0, last: 0 });
    }

    /// Where a tick goes on after the answer to a question.
    pub(crate) fn answered(&self, phase: Phase, value: u32) -> Phase
        requires asking { IsAsking (port_count self.now) phase }
        requires ports { port_count self.now ≤ 4 }
        ensures phase { result ≡ answered phase value }
        ensures answered { IsAnswered (port_count self.now) (Some result) }
    {
        match phase {
            Phase::Contexts { asked, .. } => Phase::Contexts {
                asked: asked + 1,
                last: value,
            },
            Phase::Ports { port } => Phase::Ports { port: port + 1 },
        }
    }

    /// Goes on with no Job held: a frame ended, or none began.
    #[inline(never)]
    pub(crate) fn go_on_without(&mut self, phase: Option<Phase>)
        requires { IsAnswered (port_count self.old) phase }
        ensures { self.new ≡ go_on (unheld self.old) phase }
    {
        self.job.clear();
        self.unpainted = false;
        self.go_on(phase);
    }

    /// Takes the answer to the first call of a line, with which nothing comes.
    pub(crate) fn took_first_answer(&mut self, line: &Line, answer: Answer)
        requires line { IsTrue (is_line line.now) }
        requires fresh { self.old.stage ≡ Stage.Fresh }
        ensures { self.new ≡ took_first self.old line.now (bare answer) }
    {
        match &line.verb {
            Verb::Acquire { .. } | Verb::Post | Verb::Discard => self.without_canvas(),
            Verb::Frame { .. } => self.finish(0),
            Verb::Tick => {
                self.start_tick();
                self.go_on_without(Some(Phase::Contexts {
                    asked: 1,
                    last: answer.value,
                }));
            }
            Verb::Compose { .. } | Verb::TryCompose { .. } => self.go_on_without(None),
            _ => self.finish(answer.value),
        }
    }

    /// Takes the answer to the last call that was handed out, with which nothing comes.
    pub(crate) fn took_answer(&mut self, answer: Answer)
        ensures { self.new ≡ took self.old (bare answer) }
    {
        let Some(line) = self.first_line() else {
            return;
        };
        match self.stage {
            Stage::Fresh => self.took_first_answer(line, answer),
            Stage::Posting => self.without_canvas(),
            Stage::Ticking(phase) => self.go_on_without(Some(self.answered(phase, answer.value))),
            Stage::Ending(phase) => self.go_on_without(phase),
        }
    }

    /// Lends the Job that is held and not painted yet, to paint it, or returns `None`. A Job that was lent counts as painted,
    /// with the image that the borrower leaves.
    pub fn work(&mut self) -> Option<&mut Job>
        ensures* writes_back { sem 𝓛 (lends_job self.entry result) }
        ensures job { option_copied_mut result ≡ (if self.old.unpainted then self.old.job else None) }
    {
        if !self.unpainted {
            return None;
        }
        self.unpainted = false;
        if self.job.is_held() {
            Some(self.job.job_mut())
        } else {
            None
        }
    }

    /// Lets a painter paint the Job that is held and not painted yet, and answers whether there was one.
    pub fn paint<P: Painter>(&mut self, painter: &mut P) -> bool
        requires ready { P.ready }
        requires work { IsWork self.old }
        ensures painted { self.new ≡ worked self.old }
        ensures was { result ≡ is_work self.old }
    {
        match self.work() {
            Some(job) => {
                painter.paint(&job.kind, &job.scene, &job.contents, &mut job.image);
                true
            }
            None => false,
        }
    }

    /// Returns the Job that is held, or `None`.
    pub fn job(&self) -> Option<&Job>
        ensures { option_copied result ≡ self.now.job }
    {
        self.job.job()
    }
}
