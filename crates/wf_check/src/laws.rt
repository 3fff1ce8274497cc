//! Laws beside the checker.

ghost use Rattle.std.specs.Prelude.{◌≡◌, ℕ, List};
ghost use Rattle.wf_calls.specs.declared.order.Turn.{Turn};
ghost use Rattle.wf_film.specs.declared.form.FilmForm.{FilmForm};
ghost use Rattle.wf_film.specs.Stands.{IsFilm, as_read};
ghost use Rattle.wf_turn.specs.Play.{IsComplete, film, plain_film};
ghost use Rattle.wf_script.specs.Script.{PlainScript};
ghost use Rattle.wf_check.specs.declared.verdict.Verdict.{Verdict};
ghost use Rattle.wf_check.specs.declared.verdict.Verdict.TheVariants as verdict;
ghost use Rattle.wf_check.specs.Verdicts.{Says};

/// Of a script and of bytes, one verdict at most is said. So each comes exactly where its definition holds.
pub fn one_verdict_at_most()
    ensures { (script : PlainScript) (bytes : List ℕ) (one other : Verdict) → Says script bytes one → Says script bytes other
        → one ≡ other }
{}

/// The film of a complete order is found the same by a check, where its numbers are in the ranges of a film. A play that is done
/// writes such a film.
pub fn written_films_are_same()
    ensures { (form : FilmForm) (script : PlainScript) (order : List Turn) → IsComplete script order
        → IsFilm (as_read (plain_film form script order)) → Says script (film form script order) verdict.Same }
{}
