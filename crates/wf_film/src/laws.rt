//! Laws of the definitions: which bytes are a film's.

ghost use Rattle.std.specs.Prelude.{◌≡◌, ℕ, ◌<◌, ◌≤◌, List, [], ◌∷◌, ◌++◌, length, take, Some, IfErr};
ghost use Rattle.wf_film.specs.Film.{PlainFilm, film_bytes};
ghost use Rattle.wf_film.specs.Stands.{IsFilm, Stands, as_read};
ghost use Rattle.wf_film.specs.Reading.{film_fault, read_film};

/// No film's bytes are a proper front of another film's bytes, whichever their forms are.
pub fn no_film_begins_another()
    ensures { (film other : PlainFilm) (rest : List ℕ) → IsFilm film → IsFilm other → film_bytes film ++ rest ≡ film_bytes other
        → rest ≡ [] }
{}

/// Bytes stand for one film at most.
pub fn one_film_at_most()
    ensures { (bytes : List ℕ) (film other : PlainFilm) → Stands bytes film → Stands bytes other → film ≡ other }
{}

/// A film's bytes stand for the film where its numbers are in their ranges; in form 1 each frame is read with a begin
/// of 0.
pub fn written_films_are_read()
    ensures { (film : PlainFilm) → IsFilm (as_read film) → Stands (film_bytes film) (as_read film) }
{}

/// A rule is broken in the film: no more bytes are left from there on than the film has.
pub fn faults_lie_in_the_film()
    ensures { (bytes : List ℕ) → IfErr (read_film bytes) (λ broken. broken.left ≤ length bytes) }
{}

/// A film that is cut is refused at the cut, by rule 3: a film ends early there.
pub fn cut_films_end_early()
    ensures { (film : PlainFilm) (n : ℕ) → IsFilm film → n < length (film_bytes film)
        → film_fault (take n (film_bytes film)) ≡ Some (record { at = n; rule = 3 }) }
{}

/// What follows a film is refused where it begins, by rule 5.
pub fn nothing_follows_a_film()
    ensures { (film : PlainFilm) (b : ℕ) (rest : List ℕ) → IsFilm film
        → film_fault (film_bytes film ++ b ∷ rest) ≡ Some (record { at = length (film_bytes film); rule = 5 }) }
{}
