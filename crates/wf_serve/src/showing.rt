//! Ports show their pictures.

ghost use Rattle.std.specs.Prelude.{◌≡◌, ◌≤◌, None, Some, OnOk, length};
ghost use Rattle.wf_calls.specs.Places.{job_in};
ghost use Rattle.wf_guard.specs.declared.clients.TheConstants.{OUTPUT};
ghost use Rattle.wf_guard.specs.declared.form.TheConstants.{MOST_PORTS};
ghost use Rattle.wf_io.specs.Causes.{HasCause};
ghost use Rattle.wf_model.specs.State.{State};
ghost use Rattle.wf_serve.specs.Pictures.{shown_bytes, shown_now};
ghost use Rattle.wf_serve.specs.Putting.{Writes};
ghost use Rattle.wf_serve.specs.Ticks.{ended, of_port, played, shown};

use crate::pictures::Pictures;
use crate::screen::{keep, shows};
use crate::tick::{begin, compose_all, end};
use wf_calls::{Job, JobPlace, Request};
use wf_guard::{OUTPUT, Screen};
use wf_io::{Sink, WriteStop};
use wf_machine::Machine;

/// Puts the picture of a port's `job`, unless that is what its `screen` shows.
fn show_job<K: Sink>(
    out: &mut K,
    pictures: &mut Pictures,
    screen: &mut Screen,
    tick: u32,
    port: u8,
    job: &mut Job,
) -> Result<(), WriteStop>
    ensures form { pictures.new ≡ pictures.old }
    ensures screen { OnOk result (screen.new ≡ shown_now (Some job.old) screen.old) }
    ensures ends { (h : State) → ended OUTPUT (Some job.new) h ≡ ended OUTPUT (Some job.old) h }
    ensures writes { Writes K.took out.old out.new (shown_bytes pictures.old tick port (Some job.old) screen.old) result }
    ensures cause { HasCause (K.faults out.old) (K.faults out.new) result }
{
    if shows(screen, &job.image) {
        return Ok(());
    }
    match pictures.put(out, tick, port, &job.image, screen) {
        Ok(()) => {
            keep(screen, job);
            Ok(())
        }
        Err(stop) => Err(stop),
    }
}

/// Puts the picture of a port whose frame stands in `place`, if one does, unless that is what its `screen` shows.
fn show_frame<K: Sink>(
    out: &mut K,
    pictures: &mut Pictures,
    screen: &mut Screen,
    tick: u32,
    port: u8,
    place: &mut JobPlace,
) -> Result<(), WriteStop>
    ensures form { pictures.new ≡ pictures.old }
    ensures screen { OnOk result (screen.new ≡ shown_now (job_in place.old) screen.old) }
    ensures ends { (h : State) → ended OUTPUT (job_in place.new) h ≡ ended OUTPUT (job_in place.old) h }
    ensures writes { Writes K.took out.old out.new (shown_bytes pictures.old tick port (job_in place.old) screen.old) result }
    ensures cause { HasCause (K.faults out.old) (K.faults out.new) result }
{
    if place.is_held() {
        return show_job(out, pictures, screen, tick, port, place.job_mut());
    }
    Ok(())
}

/// Begins the frame of a port, puts its picture into `out`, and ends it, also where the sink fails.
fn show_port<K: Sink>(
    machine: &mut Machine,
    place: &mut JobPlace,
    pictures: &mut Pictures,
    screen: &mut Screen,
    tick: u32,
    port: u8,
    out: &mut K,
) -> Result<(), WriteStop>
    requires none { job_in place.old ≡ None }
    ensures machine { machine.new ≡ (of_port port machine.old).now }
    ensures frame { job_in place.new ≡ None }
    ensures form { pictures.new ≡ pictures.old }
    ensures screen { OnOk result (screen.new ≡ shown_now (of_port port machine.old).frame screen.old) }
    ensures writes { Writes K.took out.old out.new
        (shown_bytes pictures.old tick port (of_port port machine.old).frame screen.old) result }
    ensures cause { HasCause (K.faults out.old) (K.faults out.new) result }
{
    begin(
        machine,
        OUTPUT,
        place,
        &Request::BeginPort {
            port: i64::from(port),
        },
    );
    let put = show_frame(out, pictures, screen, tick, port, place);
    end(machine, OUTPUT, place);
    put
}

/// Returns how many `screens` there are.
fn count_of(screens: &Vec<Screen>) -> u8
    requires { length screens.now.items ≤ MOST_PORTS }
    ensures { result ≡ length screens.now.items }
{
    screens.len() as u8
}

/// Shows the pictures of the first `count` ports of `machine`, each on its screen.
fn show<K: Sink>(
    machine: &mut Machine,
    place: &mut JobPlace,
    pictures: &mut Pictures,
    screens: &mut Vec<Screen>,
    tick: u32,
    count: u8,
    out: &mut K,
) -> Result<(), WriteStop>
    requires few { count ≤ length screens.old.items }
    requires most { count ≤ MOST_PORTS }
    requires none { job_in place.old ≡ None }
    ensures machine { OnOk result (machine.new ≡ (shown pictures.old tick count machine.old screens.old.items).machine) }
    ensures frame { job_in place.new ≡ None }
    ensures form { pictures.new ≡ pictures.old }
    ensures screens { OnOk result (screens.new.items ≡ (shown pictures.old tick count machine.old screens.old.items).screens) }
    ensures count { length screens.new.items ≡ length screens.old.items }
    ensures writes { Writes K.took out.old out.new (shown pictures.old tick count machine.old screens.old.items).put result }
    ensures cause { HasCause (K.faults out.old) (K.faults out.new) result }
{
    for n in 0..count {
        let screen = &mut screens[usize::from(n)];
        match show_port(machine, place, pictures, screen, tick, n + 1, out) {
            Ok(()) => {}
            Err(stop) => return Err(stop),
        }
    }
    Ok(())
}

/// Plays a tick of `machine`: composes the contexts, and shows the ports.
pub(crate) fn play<K: Sink>(
    machine: &mut Machine,
    place: &mut JobPlace,
    pictures: &mut Pictures,
    screens: &mut Vec<Screen>,
    tick: u32,
    out: &mut K,
) -> Result<(), WriteStop>
    requires few { length screens.old.items ≤ MOST_PORTS }
    requires none { job_in place.old ≡ None }
    ensures machine { OnOk result (machine.new ≡ (played pictures.old tick machine.old screens.old.items).machine) }
    ensures frame { job_in place.new ≡ None }
    ensures form { pictures.new ≡ pictures.old }
    ensures screens { OnOk result (screens.new.items ≡ (played pictures.old tick machine.old screens.old.items).screens) }
    ensures count { length screens.new.items ≡ length screens.old.items }
    ensures writes { Writes K.took out.old out.new (played pictures.old tick machine.old screens.old.items).put result }
    ensures cause { HasCause (K.faults out.old) (K.faults out.new) result }
{
    compose_all(machine, place);
    let count = count_of(screens);
    show(machine, place, pictures, screens, tick, count, out)
}
