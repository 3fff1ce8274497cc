//! Laws of scripts and of their texts.

ghost use Rattle.std.specs.Prelude.{ℕ, List, length, ◌≡◌, ◌≤◌, ◌+◌, ◌*◌};
ghost use Rattle.wf_script.specs.Breaches.{least_broken, refusal, script_fault};
ghost use Rattle.wf_script.specs.Canonical.{canonical};
ghost use Rattle.wf_script.specs.Generator.{made};
ghost use Rattle.wf_script.specs.Grammar.{Reading, Stands, read_line, read_script};
ghost use Rattle.wf_script.specs.Script.{PlainScript};
ghost use Rattle.wf_script.specs.Words.{lines_of};

/// The canonical text of a script that bytes stand for stands for that script, so what is printed of it is read as it.
pub fn canonical_texts_stand()
    ensures { (bytes : List ℕ) (script : PlainScript) → Stands bytes script → Stands (canonical script) script }
{}

/// It stands for no other, so scripts that differ are printed otherwise.
pub fn canonical_texts_tell_scripts_apart()
    ensures { (bytes others : List ℕ) (script other : PlainScript) → Stands bytes script → Stands others other
        → canonical script ≡ canonical other → script ≡ other }
{}

/// A line is refused with a rule exactly where that is the least rule that it breaks, behind whatever was read.
pub fn lines_are_refused_by_their_least_rule()
    ensures { (r : Reading) (line : List ℕ) → refusal (read_line r line) ≡ least_broken r line }
{}

/// A script is refused at its first line that breaks a rule, with the least rule that this line breaks.
pub fn scripts_are_refused_at_their_first_fault()
    ensures { (bytes : List ℕ) → refusal (read_script bytes) ≡ script_fault bytes }
{}

/// A script that was made is in the ranges of the grammar: its canonical text stands for it, so what is printed of it is read as it.
pub fn made_scripts_stand()
    ensures { (n : ℕ) → 1 ≤ n → n ≤ 1000 → Stands (canonical (made n)) (made n) }
{}

/// A script that was made has 7 lines and 13 for each of its rounds: the header, the port, the pipelines, three of the setup, the end.
pub fn made_scripts_have_seven_lines_and_thirteen_a_round()
    ensures { (n : ℕ) → 1 ≤ n → n ≤ 1000 → length (lines_of (canonical (made n))) ≡ 7 + 13 * n }
{}
