//! Frames: they begin, and they end.

ghost use Rattle.std.specs.List.{AllByRecursion};
ghost use Rattle.std.specs.Prelude.{◌≡◌, ◌<◌, ◌+◌, ◌-◌, ◌^◌, [], None, Ok, IfSome, IsSome, IsSomeAnd, MatchOption, Some, length, map};
ghost use Rattle.wf_words.specs.Keyed.{nth};
ghost use Rattle.wf_calls.specs.Parts.{no_register};
ghost use Rattle.wf_calls.specs.Places.{job_in};
ghost use Rattle.wf_calls.specs.Replies.{with_job};
ghost use Rattle.wf_stream.specs.Streams.{IsNumbered, buffers_at};
ghost use Rattle.wf_words.specs.Whole.{count_of};
ghost use Rattle.wf_model.specs.Display.{begun_display, port_scene};
ghost use Rattle.wf_model.specs.Fitting.{LayerFits};
ghost use Rattle.wf_model.specs.Frames.{begin_context, begin_next, begin_port, delivered, drawing, end, is_running, latch, next_images};
ghost use Rattle.wf_model.specs.Frames.{scene_streams, start, started, target_ready};
ghost use Rattle.wf_machine.specs.Fitting.{IsComposable, IsDue, PortsFit, is_of_running};
ghost use Rattle.wf_machine.specs.Latching.{AreAtHome, AreShapedAs};
ghost use Rattle.wf_machine.specs.declared.frame.Frame.{Frame};
ghost use Rattle.wf_machine.specs.Object.{IsAnswer, IsSettled, settled_so};
ghost use Rattle.wf_machine.specs.Ports.{sizes_of};
ghost use Rattle.wf_machine.specs.Starting.{IsKept, IsReady, IsTargetOf, MayStart, beginning_of};

use crate::frame::FramePlace;
use crate::latching::{bring_home, empty, latch_scene, names};
use crate::naming::{begin_names, end_names};
use crate::parts::Parts;
use crate::port::{Port, put_image, take_image};
use crate::replies::refuse;
use wf_calls::{Answer, Code, Job, JobKind, JobPlace, Refusal};
use wf_image::{Canvas, Image};
use wf_scene::Scene;
use wf_stream::Store;

/// Takes the image that a frame draws into: the write buffer of its context's target, or the image that is kept for its
/// port's mode.
fn take_target(store: &mut Store, ports: &mut Vec<Port>, kind: JobKind, mode: u32) -> Image
    requires { IsReady store.old.streams ports.old.items mode kind }
    ensures store { store.new ≡ record store.old { streams = drawing kind store.old.streams } }
    ensures modes { map sizes_of ports.new.items ≡ map sizes_of ports.old.items }
    ensures away { (frame : Frame) → frame.kind ≡ kind → frame.mode ≡ mode → PortsFit (Some frame) 1 ports.new.items }
    ensures image { IsTargetOf store.old.streams ports.old.items mode kind result }
{
    match kind {
        JobKind::Context { target, .. } => store.acquire_image(target),
        JobKind::Port { port } => take_image(ports, (port - 1) as usize, mode),
    }
}

/// Hands the image of a frame that ends on: to the target of its context, where it waits, or back to its port.
fn deliver(store: &mut Store, ports: &mut Vec<Port>, kind: JobKind, mode: u32, image: Image)
    requires { IsDue store.old.streams ports.old.items mode kind image }
    ensures store { store.new ≡ record store.old { streams = delivered kind image store.old.streams } }
    ensures modes { map sizes_of ports.new.items ≡ map sizes_of ports.old.items }
    ensures there { PortsFit None 1 ports.new.items }
{
    match kind {
        JobKind::Context { target, .. } => store.post(Canvas {
            stream: target,
            image,
        }),
        JobKind::Port { port } => put_image(ports, (port - 1) as usize, mode, image),
    }
}

/// Takes what a frame needs: the next images of the streams of its scene into its contents, and then the image that it draws into. What
/// the machine keeps of it is written where it stands.
fn take_images(
    store: &mut Store,
    ports: &mut Vec<Port>,
    place: &mut FramePlace,
    next: &mut Job,
    number: u64,
    kind: JobKind,
    mode: u32,
) -> Image
    requires none { next.old.contents ≡ [] }
    requires numbered { IsNumbered 0 store.old.streams store.old.numbered }
    requires home { AreAtHome store.old.streams }
    requires ready { IsReady (latch (scene_streams next.old.scene) store.old.streams) ports.old.items mode kind }
    ensures scene { next.new.scene ≡ next.old.scene }
    ensures contents { next.new.contents ≡ next_images (scene_streams next.old.scene) store.old.streams }
    ensures shaped { AreShapedAs (latch (scene_streams next.old.scene) store.old.streams) next.new.contents }
    ensures store { store.new
        ≡ record store.old { streams = drawing kind (latch (scene_streams next.old.scene) store.old.streams) } }
    ensures modes { map sizes_of ports.new.items ≡ map sizes_of ports.old.items }
    ensures away { (f : Frame) → f.kind ≡ kind → f.mode ≡ mode → PortsFit (Some f) 1 ports.new.items }
    ensures image { IsTargetOf (latch (scene_streams next.old.scene) store.old.streams) ports.old.items mode kind result }
    ensures frame { IsSomeAnd place.new (IsKept number kind mode result next.new.contents) }
{
    let kept = &mut place.frame;
    kept.contents.clear();
    latch_scene(store, &next.scene, &mut next.contents, &mut kept.contents);
    let image = take_target(store, ports, kind, mode);
    kept.number = number;
    kept.kind = kind;
    kept.mode = mode;
    kept.size = image.size();
    kept.format = image.format();
    place.runs = true;
    image
}

impl Parts {
    /// Whether a frame runs.
    pub(crate) fn is_busy(&self) -> bool
        ensures { result ≡ is_running self.now }
    {
        self.frame.is_running()
    }

    /// Begins a frame of the next active context, if there is one.
    #[inline(never)]
    pub(crate) fn begin_next(&mut self, after: u32, place: &mut JobPlace) -> Answer
        requires empty { job_in place.old ≡ None }
        ensures left { self.new ≡ (started no_register self.old (begin_next after self.old)).0 }
        ensures settled { IsSettled self.new }
        ensures answer { IsAnswer (started no_register self.old (begin_next after self.old)).1 (with_job result (job_in place.new)) }
    {
        self.prove_all_named();
        if self.is_busy() {
            return refuse(Code::Busy);
        }
        match self.core.next(after) {
            Some((handle, shown)) => {
                let target = shown.target;
                place.job_mut().scene.copy_from(shown.scene);
                self.begin_context(handle, handle, target, place)
            }
            None => Answer::done(0),
        }
    }

    /// Begins a frame of a context that is live, while none runs. Its scene stands in the place already. A refusal has this value.
    pub(crate) fn begin_context(
        &mut self,
        value: u32,
        handle: u32,
        target: u32,
        place: &mut JobPlace,
    ) -> Answer
        requires empty { job_in place.old ≡ None }
        requires free { self.old.frame ≡ None }
        requires home { AreAtHome self.old.streams }
        requires fits { IsComposable self.old.streams target place.old.job.scene }
        ensures left { self.new ≡ (started no_register self.old (begin_context value handle target place.old.job.scene self.old)).0 }
        ensures settled { IsSettled self.new }
        ensures answer { IsAnswer (started no_register self.old (begin_context value handle target place.old.job.scene self.old)).1
            (with_job result (job_in place.new)) }
    {
        self.prove_all_named();
        if let Err(refusal) = self.target_ready(value, target, &place.job_mut().scene) {
            return Answer::refused(refusal);
        }
        self.start_frame(JobKind::Context { handle, target }, 0, handle, place)
    }

    /// A frame of a context with this scene may be drawn into its target, which is kept. A refusal has this value.
    fn target_ready(&self, value: u32, target: u32, scene: &Scene) -> Result<(), Refusal>
        requires kept { IsSome (buffers_at target self.now.streams) }
        requires home { AreAtHome self.now.streams }
        ensures { IfSome (buffers_at target self.now.streams) (λ b. result ≡ target_ready value target scene.now b self.now) }
    {
        let Some(stream) = self.store.get(target) else {
            unreachable!()
        };
        let code = if stream.is_out() {
            Code::Busy
        } else if !stream.roomy(names(scene, target)) {
            Code::NoBuffer
        } else if self.begun == u64::MAX {
            Code::Limit
        } else {
            return Ok(());
        };
        Err(Refusal { code, value })
    }

    /// Begins a frame of a port, which is counted from 1, where it gives frames.
    #[inline(never)]
    pub(crate) fn begin_port(&mut self, port: i64, place: &mut JobPlace) -> Answer
        requires empty { job_in place.old ≡ None }
        ensures left { self.new ≡ (settled_so (started no_register self.old (begin_port port self.old))).0 }
        ensures answer { IsAnswer (started no_register self.old (begin_port port self.old)).1 (with_job result (job_in place.new)) }
    {
        self.prove_all_named();
        let Some(number) = self.declared_screen(port) else {
            return refuse(Code::BadHandle);
        };
        if self.is_busy() {
            return refuse(Code::Busy);
        }
        if !self.display.gives_frames(number) {
            return Answer::done(0);
        }
        if self.begun == u64::MAX {
            return refuse(Code::Limit);
        }
        self.core.prove_few_names();
        self.display.prove_few_names();
        self.display.begin(&mut self.store, number);
        self.start_port(number, place)
    }

    /// Begins a frame of a port that gives frames, once what waited at its pipelines is current, while no frame runs.
    fn start_port(&mut self, port: u32, place: &mut JobPlace) -> Answer
        requires empty { job_in place.old ≡ None }
        requires free { self.old.frame ≡ None }
        requires few { self.old.begun < 2 ^ 64 - 1 }
        requires shows { IsSome (port_scene port self.old.display) }
        requires begun { begun_display port self.old.display ≡ self.old.display }
        ensures left { IfSome (port_scene port self.old.display)
            (λ scene. self.new ≡ (start (beginning_of (JobKind.Port port) scene port self.old) self.old).0) }
        ensures settled { IsSettled self.new }
        ensures layers { IfSome (port_scene port self.old.display)
            (λ scene. AllByRecursion (LayerFits self.old.streams) scene.layers.items) }
        ensures answer { IfSome (port_scene port self.old.display)
            (λ scene. IsAnswer (start (beginning_of (JobKind.Port port) scene port self.old) self.old).1
            (with_job result (job_in place.new))) }
    {
        let Some(mode) = self.display.mode(port) else {
            unreachable!()
        };
        if !self.display.write_scene(port, &mut place.job_mut().scene) {
            unreachable!()
        }
        self.start_frame(JobKind::Port { port }, mode, port, place)
    }

    /// Begins a frame that may begin, while none runs: the next images of the streams of the scene that stands in the place go into its
    /// Job, which begins there, and a value is answered.
    fn start_frame(&mut self, kind: JobKind, mode: u32, value: u32, place: &mut JobPlace) -> Answer
        requires free { self.old.frame ≡ None }
        requires few { self.old.begun < 2 ^ 64 - 1 }
        requires may { MayStart kind mode place.old.job.scene self.old }
        ensures left { self.new ≡ (start (beginning_of kind place.old.job.scene value self.old) self.old).0 }
        ensures settled { IsSettled self.new }
        ensures answer { IsAnswer (start (beginning_of kind place.old.job.scene value self.old) self.old).1
            (with_job result (job_in place.new)) }
    {
        let next = place.job_mut();
        empty(&mut next.contents);
        let number = self.begun + 1;
        let image = take_images(
            &mut self.store,
            &mut self.ports,
            &mut self.frame,
            next,
            number,
            kind,
            mode,
        );
        self.core.prove_few_names();
        self.display.prove_few_names();
        let Some(frame) = self.frame.running() else {
            unreachable!()
        };
        begin_names(&mut self.store, frame.contents.as_slice(), kind);
        self.begun = number;
        place.begin(number, kind, image);
        Answer::done(value)
    }

    /// Whether a Job is the running frame's.
    fn is_of_running(&self, job: &Job) -> bool
        ensures { result ≡ is_of_running job.now self.now.frame }
    {
        match self.frame.running() {
            Some(frame) => frame.is_of(job),
            None => false,
        }
    }

    /// Ends the running frame, whose Job is in this place, and brings its images home. Any other Job stays there.
    pub(crate) fn end(&mut self, place: &mut JobPlace) -> Answer
        requires { IsSome (job_in place.old) }
        ensures { IfSome (job_in place.old) (λ job. settled_so (end job self.old) ≡ (self.new, with_job result (job_in place.new))) }
    {
        self.prove_all_named();
        let job = place.job_mut();
        if !self.is_of_running(job) {
            return refuse(Code::BadHandle);
        }
        let Some(frame) = self.frame.running() else {
            unreachable!()
        };
        let kind = job.kind;
        bring_home(&mut self.store, &mut job.contents);
        let Some(image) = place.end() else {
            unreachable!()
        };
        deliver(&mut self.store, &mut self.ports, kind, frame.mode, image);
        end_names(&mut self.store, frame.contents.as_slice(), kind);
        self.frame.clear();
        Answer::done(0)
    }
}
