//! Laws of runs, and of what is put of a picture.

ghost use Rattle.std.specs.Prelude.{◌≡◌, ◌*◌, ℕ, Bool, List, length};
ghost use Rattle.wf_calls.specs.declared.ports.Ports.{Ports};
ghost use Rattle.wf_guard.specs.LiveStreams.{Turn, after_turns, opened};
ghost use Rattle.wf_guard.specs.Serving.{Served};
ghost use Rattle.wf_guard.specs.declared.form.Form.{Form};
ghost use Rattle.wf_serve.specs.Bands.{band_in, band_of, pasted};
ghost use Rattle.wf_serve.specs.Runs.{Incoming, Runs, ServesSame, ran};

use wf_guard::who_leaves_asks_for_it;

/// Shows that what a run leaves, answers and puts follows from its messages, and from the creations to which memory was refused. So what a
/// core has read is the journal of its run: played once more, with memory for the same creations, it gives the same bytes.
pub fn a_run_is_played_again()
    ensures { (ms : List Incoming) (v w : Served) (ans fs : List ℕ) → Runs v ms w ans fs
        → (marks : List Bool) × (ran ms marks v ≡ record { now = w; answers = ans; frames = fs }) }
{}

/// Shows that what a run of messages leaves is what turns lead to, as the policy calls them: so its laws are laws of runs.
pub fn turns_lead_to_what_a_run_leaves()
    ensures { (form : Form) (ports : Ports) (ms : List Incoming) (w : Served) (ans fs : List ℕ)
        → Runs (opened form ports) ms w ans fs → (turns : List Turn) × ServesSame (after_turns (opened form ports) turns) w }
{
    who_leaves_asks_for_it();
}

/// Shows that the rows that are put of a picture, in the place of those of the last one, make the picture: both have `h` rows of `row`
/// bytes.
pub fn a_band_completes_the_last_picture()
    ensures { (row h : ℕ) (last next : List ℕ) → length last ≡ h * row → length next ≡ h * row
        → pasted row (band_of row h last next) (band_in row (band_of row h last next) next) last ≡ next }
{}
