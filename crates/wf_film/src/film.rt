//! The film that was read.

ghost use Rattle.std.specs.Prelude.{◌≡◌};
ghost use Rattle.wf_film.specs.Stands.{Outline};

use crate::form::FilmForm;
use std::marker::Model;
use wf_calls::Order;

/// A film that was read: its form, how many frames it has, and its journal. Its pixels stay where its bytes are.
#[derive(Drop)]
pub struct Film {
    form: FilmForm,
    frames: u64,
    order: Order,
}

impl Model for Film {
    ghost use Rattle.wf_film.specs.Stands.{Outline};

    ghost Value = { Outline };

    ghost view = { λ f. record { form = f.form; frames = f.frames; order = f.order } };
}

impl Film {
    pub(crate) fn new(form: FilmForm, frames: u64, order: Order) -> Film
        ensures { result ≡ record { form = form; frames = frames; order = order } }
    {
        Film {
            form,
            frames,
            order,
        }
    }

    /// Returns the form of the film.
    pub fn form(&self) -> FilmForm
        ensures { result ≡ self.now.form }
    {
        self.form
    }

    /// Returns the number of its frames.
    pub fn frames(&self) -> u64
        ensures { result ≡ self.now.frames }
    {
        self.frames
    }

    /// Returns the journal.
    pub fn order(&self) -> &Order
        ensures { result.now ≡ self.now.order }
    {
        &self.order
    }
}
