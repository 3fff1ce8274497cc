//! The programs of the eight clients of a script, by their numbers.

ghost use Rattle.std.specs.Prelude.{◌≡◌, ◌&&◌, ◌||◌, not, if◌then◌else◌, ◌<◌, ◌≤◌, ◌∷◌, map, length, slice_get};
ghost use Rattle.std.specs.Prelude.{IfOk, IfSome, IsSomeAnd, MatchOption, All, Some};
ghost use Rattle.std.specs.List.{list_all, range_with_len};
ghost use Rattle.std.specs.Option.{is_none};
ghost use Rattle.wf_turn.specs.Play.{earlier, first_client, is_marked};
ghost use Rattle.wf_turn.specs.Playing.{AreOfOne, IsStuckAt, StandsOwn, TakesAt};
ghost use Rattle.wf_turn.specs.Program.{place_of, program, taught};
ghost use Rattle.wf_turn.specs.Ready.{IsFit};
ghost use Rattle.wf_turn.specs.Turns.{all_taught, is_setting_up, tick_line};

use crate::program::Program;
use crate::stage::Asked;
use crate::turning::take_turn;
use std::alloc::Global;
use std::marker::Model;
use wf_calls::Turn;
use wf_kernel::Painter;
use wf_machine::Machine;
use wf_script::Script;
use wf_words::NoMemory;

/// The number of clients beside the clock, which is client 0.
const OTHERS: u8 = 7;

/// The programs of the eight clients of a script. The clock's stands apart, since it hands names on to the others; contracts see one
/// list of them all.
#[derive(Drop)]
pub(crate) struct Cast<'a> {
    clock: Program<'a>,
    others: Vec<Program<'a>>,
}

impl<'a> Model for Cast<'a> {
    ghost use Rattle.std.specs.Prelude.{List};
    ghost use Rattle.wf_turn.specs.Program.{Program};
    ghost use Rattle.wf_turn.specs.Members.{programs_of};

    ghost Value = { List Program };

    ghost view = { programs_of };
}

/// Opens the programs of the clients of `script` beside the clock, before their first calls.
fn open_others<'a>(alloc: Global, script: &'a Script) -> Result<Vec<Program<'a>>, NoMemory>
    ensures { IfOk result (λ others. others.items ≡ map (program script.now) (range_with_len 1 7)) }
{
    let mut others = Vec::with_capacity(alloc, OTHERS.into())?;
    for before in 0..OTHERS {
        others.push_reserved(Program::new(alloc, script, before + 1)?);
    }
    Ok(others)
}

/// Chooses, of the client whose place comes first so far and of one more client, the one whose place comes first.
fn earlier(
    best: Option<(usize, usize)>,
    client: usize,
    place: Option<usize>,
) -> Option<(usize, usize)>
    ensures { result ≡ earlier best (client, place) }
{
    match (best, place) {
        (_, None) => best,
        (None, Some(place)) => Some((client, place)),
        (Some((_, least)), Some(place)) => {
            if place < least {
                Some((client, place))
            } else {
                best
            }
        }
    }
}

/// Finds the client of the first line that is not through, and the place of that line.
fn first_of(clock: &Program, others: &[Program]) -> Option<(usize, usize)>
    requires { length others.now < 8 }
    ensures first { result ≡ first_client (map place_of (clock.now ∷ others.now)) }
    ensures own { IfSome result (StandsOwn (clock.now ∷ others.now)) }
{
    let mut best = earlier(None, 0, clock.place());
    for (before, program) in others.iter().enumerate() {
        best = earlier(best, before + 1, program.place());
    }
    best
}

/// Checks that every program of a list is through.
fn are_through(programs: &[Program]) -> bool
    ensures { result ≡ list_all (λ p. is_none (place_of p)) programs.now }
{
    for program in programs {
        if program.place().is_some() {
            return false;
        }
    }
    true
}

/// Has the other programs learn the values of the names that the setup bound, from the clock's.
fn teach(clock: &Program, others: &mut [Program])
    requires script { All (λ p. p.script ≡ clock.now.script) others.old }
    requires clock { clock.now.client ≡ 0 }
    ensures { others.new ≡ map (taught clock.now) others.old }
{
    for program in others.iter_mut() {
        program.learn(clock);
    }
}

impl<'a> Cast<'a> {
    /// Opens the programs of the eight clients of `script`, before their first calls.
    pub(crate) fn open(alloc: Global, script: &'a Script) -> Result<Cast<'a>, NoMemory>
        ensures { IfOk result (λ cast. cast ≡ map (program script.now) (range_with_len 0 8)) }
    {
        let clock = Program::new(alloc, script, 0)?;
        let others = open_others(alloc, script)?;
        Ok(Cast { clock, others })
    }

    /// Checks whether the clock has a line of the setup left.
    pub(crate) fn in_setup(&self) -> bool
        ensures { result ≡ is_setting_up self.now }
    {
        self.clock.in_setup()
    }

    /// Returns the place of the clock's line in the file, where that is a tick, or `None`.
    pub(crate) fn tick_line(&self) -> Option<usize>
        ensures { result ≡ tick_line self.now }
    {
        self.clock.tick_line()
    }

    /// Finds the client of the first line in the file that is not through, and the place of that line.
    pub(crate) fn first(&self) -> Option<(usize, usize)>
        requires { length self.now ≤ 8 }
        ensures first { result ≡ first_client (map place_of self.now) }
        ensures own { IfSome result (StandsOwn self.now) }
    {
        first_of(&self.clock, &self.others)
    }

    /// Checks that every program is through.
    pub(crate) fn is_over(&self) -> bool
        ensures { result ≡ list_all (λ p. is_none (place_of p)) self.now }
    {
        self.clock.place().is_none() && are_through(&self.others)
    }

    /// Returns the program of `client`.
    pub(crate) fn program(&self, client: usize) -> &Program<'a>
        requires { client < length self.now }
        ensures { slice_get self.now client ≡ Some result.now }
    {
        if client == 0 {
            &self.clock
        } else {
            &self.others[client - 1]
        }
    }

    /// Takes the turn of the program of `client`, as `take_turn` does.
    pub(crate) fn take_turn<P: Painter>(
        &mut self,
        machine: &mut Machine,
        client: usize,
        memory_refused: bool,
        place: &mut Asked,
        painter: &mut P,
    ) -> Option<(Turn, bool)>
        requires ready { P.ready }
        requires within { client < 8 }
        requires fit { IsSomeAnd (slice_get self.old client) IsFit }
        ensures { MatchOption result (IsStuckAt client machine.old self.old)
            (λ x. TakesAt (memory_refused || is_marked x.0) client machine.old machine.new self.old self.new x.0 x.1) }
    {
        if client == 0 {
            take_turn(machine, &mut self.clock, 0, memory_refused, place, painter)
        } else {
            let other = &mut self.others[client - 1];
            take_turn(machine, other, client as u8, memory_refused, place, painter)
        }
    }

    /// Hands the values of the names that the setup bound on from the clock's program to the others, where the setup ended just now:
    /// `was_setup` says whether it was not through before.
    pub(crate) fn hand_on(&mut self, was_setup: bool)
        requires { AreOfOne self.old }
        ensures { self.new ≡ (if was_setup && not (is_setting_up self.old) then all_taught self.old else self.old) }
    {
        if was_setup && !self.clock.in_setup() {
            teach(&self.clock, &mut self.others);
        }
    }
}
