//! The script.

ghost use Rattle.std.specs.Prelude.{◌≡◌, ◌≤◌, length, IsTrue};
ghost use Rattle.std.specs.List.{list_all};
ghost use Rattle.wf_calls.specs.PortRules.{may_declare};
ghost use Rattle.wf_script.specs.Script.{IsScript, is_line, may_tick};

use crate::MOST_LINES;
use crate::line::Line;
use std::marker::Model;
use wf_calls::Ports;

/// The ports that a script declares, and its event lines in file order: at most `MOST_LINES`, each of a client from 0 to 7,
/// with paints whose numbers are in their ranges, and the ticks those of client 0.
#[derive(Drop)]
pub struct Script {
    ports: Ports,
    lines: Vec<Line>,
}

impl Model for Script {
    ghost use Rattle.wf_script.specs.Script.{PlainScript, IsScript};

    ghost Value = { PlainScript };

    ghost view = { λ s. record { ports = s.ports; lines = s.lines.items } };

    ghost invariant = { λ s. IsScript (record { ports = s.ports; lines = s.lines.items }) };
}

impl Script {
    pub(crate) fn new(ports: Ports, lines: Vec<Line>) -> Script
        requires { IsScript (record { ports = ports; lines = lines.items }) }
        ensures { result ≡ record { ports = ports; lines = lines.items } }
    {
        Script { ports, lines }
    }

    /// Returns the ports with their modes.
    pub fn ports(&self) -> &Ports
        ensures ports { result.now ≡ self.now.ports }
        ensures declared { IsTrue (may_declare result.now) }
    {
        &self.ports
    }

    /// Returns the event lines, in file order.
    pub fn lines(&self) -> &[Line]
        ensures lines { result.now ≡ self.now.lines }
        ensures sound { IsTrue (list_all is_line result.now) }
        ensures ticks { IsTrue (list_all may_tick result.now) }
        ensures few { length result.now ≤ MOST_LINES }
    {
        &self.lines
    }
}
