//! Laws beside the headline.

ghost use Rattle.std.specs.Prelude.{◌≡◌, ℕ, List};
ghost use Rattle.wf_calls.specs.declared.order.Turn.{Turn};
ghost use Rattle.wf_script.specs.Script.{PlainScript};
ghost use Rattle.wf_script.specs.Grammar.{Stands};
ghost use Rattle.wf_film.specs.declared.form.FilmForm.{FilmForm};
ghost use Rattle.wf_turn.specs.Play.{film};

/// The form, the bytes of a script and the order in a journal fix the bytes of the film.
pub fn one_film()
    ensures { (form : FilmForm) (bytes : List ℕ) (s t : PlainScript) (order : List Turn) → Stands bytes s → Stands bytes t
        → film form s order ≡ film form t order }
{}
