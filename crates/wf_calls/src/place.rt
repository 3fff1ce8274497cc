//! A place for a Job, in which one Job after another stands, so that none is moved.

ghost use Rattle.std.specs.Prelude.{◌≡◌, None, Some, is_some, option_map, IfOk};
ghost use Rattle.std.specs.Borrow.{sem};
ghost use Rattle.std.specs.Option.{option_copied};
ghost use Rattle.wf_calls.specs.Lending.{LendsJob};
ghost use Rattle.wf_calls.specs.Places.{job_in};

use crate::call::{Job, JobKind};
use arrayvec::ArrayVec;
use std::alloc::Global;
use std::marker::Model;
use std::mem;
use wf_image::{Contents, Image};
use wf_pixel::{Format, Rgba, Rotation, Size};
use wf_scene::{NoMemory, Scene};

/// A place for a Job, which holds one or none. A Job has 5 KB: one that begins is written where it stands, and one that ends is
/// taken apart there.
#[derive(Drop)]
pub struct JobPlace {
    /// The Job, or what the last one left.
    job: Job,
    /// The image of one pixel that stands in for a Job's where there is none. It is put aside here while there is one.
    aside: Option<Image>,
}

impl Model for JobPlace {
    ghost use Rattle.std.specs.Prelude.{is_some};
    ghost use Rattle.wf_calls.specs.Places.{Place};

    ghost Value = { Place };

    ghost view = { λ p. record { job = p.job; held = is_some p.aside } };
}

/// A Job that shows nothing, with this image.
fn empty_job(image: Image) -> Job {
    Job {
        number: 0,
        kind: JobKind::Port { port: 0 },
        scene: Scene {
            size: Size { w: 1, h: 1 },
            turn: Rotation::R0,
            background: Rgba {
                r: 0,
                g: 0,
                b: 0,
                a: 0,
            },
            layers: ArrayVec::new(),
        },
        contents: Contents::new(),
        image,
    }
}

impl JobPlace {
    /// Makes a place without a Job. No other call of it can lack memory.
    pub fn new(alloc: Global) -> Result<JobPlace, NoMemory>
        ensures { IfOk result (λ place. job_in place ≡ None) }
    {
        let image = Image::new(alloc, Size { w: 1, h: 1 }, Format::A8)?;
        Ok(JobPlace {
            job: empty_job(image),
            aside: None,
        })
    }

    /// Returns whether a Job stands here.
    pub fn is_held(&self) -> bool
        ensures { result ≡ is_some (job_in self.now) }
    {
        self.aside.is_some()
    }

    /// Returns the Job that stands here, or `None` where none does.
    pub fn job(&self) -> Option<&Job>
        ensures { option_copied result ≡ job_in self.now }
    {
        if self.aside.is_some() {
            Some(&self.job)
        } else {
            None
        }
    }

    /// Lends the Job that stands here, or, where none does, the room of the next one, whose scene and contents are written there
    /// before it begins. No Job comes or goes by it.
    pub fn job_mut(&mut self) -> &mut Job
        ensures* writes_back { sem 𝓛 (LendsJob self.entry result) }
        ensures job { result.now ≡ self.old.job }
    {
        &mut self.job
    }

    /// Begins the Job of this `number` and `kind`, which draws into `image`. Its scene and its contents are those that `job_mut`
    /// wrote here before.
    pub fn begin(&mut self, number: u64, kind: JobKind, image: Image)
        ensures { job_in self.new ≡ Some (record self.old.job { number = number; kind = kind; image = image }) }
    {
        self.job.number = number;
        self.job.kind = kind;
        let instead = mem::replace(&mut self.job.image, image);
        if self.aside.is_none() {
            self.aside = Some(instead);
        }
    }

    /// Ends the Job that stands here, and returns its image, or `None` where none stands.
    pub fn end(&mut self) -> Option<Image>
        ensures image { result ≡ option_map (λ job. job.image) (job_in self.old) }
        ensures none { job_in self.new ≡ None }
    {
        match self.aside.take() {
            Some(instead) => Some(mem::replace(&mut self.job.image, instead)),
            None => None,
        }
    }

    /// Takes out and returns the Job that stands here, or `None` where none does.
    pub fn take(&mut self) -> Option<Job>
        ensures job { result ≡ job_in self.old }
        ensures none { job_in self.new ≡ None }
    {
        match self.aside.take() {
            Some(instead) => Some(mem::replace(&mut self.job, empty_job(instead))),
            None => None,
        }
    }

    /// Drops the Job that stands here, if there is one.
    pub fn clear(&mut self)
        ensures { job_in self.new ≡ None }
    {
        if self.aside.is_some() {
            self.take();
        }
    }

    /// Puts `job` here. A Job that stood here is dropped.
    pub fn put(&mut self, job: Job)
        ensures { job_in self.new ≡ Some job }
    {
        let old = mem::replace(&mut self.job, job);
        if self.aside.is_none() {
            self.aside = Some(old.image);
        }
    }
}
