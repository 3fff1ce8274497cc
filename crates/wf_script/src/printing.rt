//! Prints scripts.

ghost use Rattle.std.specs.Prelude.{◌+◌, ◌*◌, ◌≤◌, [], ◌∷◌, codes, flat_map, length, map, IsTrue, OnOk, IfErr};
ghost use Rattle.std.specs.List.{list_all};
ghost use Rattle.wf_calls.specs.PortRules.{may_have};
ghost use Rattle.wf_io.specs.Bytes.{Puts, PutsPart};
ghost use Rattle.wf_io.specs.Causes.{HasCause};
ghost use Rattle.wf_script.specs.Canonical.{binding_words, canonical, event_text, pipes_text, port_text, size_word, text_line};
ghost use Rattle.wf_script.specs.Script.{is_line};
ghost use Rattle.wf_script.specs.Text.{Adds, extent};
ghost use Rattle.wf_script.specs.Token.{spaced};

use crate::WORD_ROOM;
use crate::line::Line;
use crate::name::Name;
use crate::script::Script;
use crate::text::Text;
use crate::token::{Token, add_count, add_word, add_words};
use crate::verb_text::add_verb;
use wf_calls::{Modes, Ports};
use wf_io::{Sink, WriteStop};
use wf_pixel::Size;

/// Prints the canonical text of a script into a sink: words apart by one space, numbers without leading zeros, no comments and no
/// blank lines. It cannot lack memory. Where the sink fails, just the text's first `written` bytes were put.
pub fn print<K: Sink>(script: &Script, k: &mut K) -> Result<(), WriteStop>
    ensures all { OnOk result (Puts K.took k.old k.new (canonical script.now)) }
    ensures part { IfErr result (λ stop. PutsPart K.took k.old k.new 0 (canonical script.now) stop.written) }
    ensures cause { HasCause (K.faults k.old) (K.faults k.new) result }
{
    let mut text = Text::new();
    let ports = script.ports();
    text.add(k, b"WFS1\n");
    add_ports(&mut text, k, ports.modes.as_slice());
    add_pipes(&mut text, k, ports.pipes);
    add_lines(&mut text, k, script.lines());
    text.add(k, b"end\n");
    text.finish(k)
}

/// Adds the lines of ports.
#[tactic(auto, using(crate::proofs::Additions::adds_none, std::proofs::lemmas::List::Folds::list_all_at))]
fn add_ports<K: Sink>(text: &mut Text, k: &mut K, ports: &[Modes])
    requires { IsTrue (list_all may_have ports.now) }
    ensures adds { Adds K.took K.faults text.old k.old text.new k.new (flat_map port_text ports.now) }
    ensures most { extent text.new ≤ extent text.old + 8 * WORD_ROOM * length ports.now }
{
    for modes in ports {
        add_port(text, k, modes);
    }
}

/// Adds the line of a port.
fn add_port<K: Sink>(text: &mut Text, k: &mut K, modes: &Modes)
    requires { IsTrue (may_have modes.now) }
    ensures adds { Adds K.took K.faults text.old k.old text.new k.new (port_text modes.now) }
    ensures most { extent text.new ≤ extent text.old + 8 * WORD_ROOM }
{
    text.add(k, b"port");
    add_sizes(text, k, modes.sizes.as_slice());
    text.add(k, b"\n");
}

/// Adds sizes.
#[tactic(auto, using(crate::proofs::Additions::adds_none), unfolding(crate::specs::Token::spaced))]
fn add_sizes<K: Sink>(text: &mut Text, k: &mut K, sizes: &[Size])
    ensures adds { Adds K.took K.faults text.old k.old text.new k.new (spaced (map size_word sizes.now)) }
    ensures most { extent text.new ≤ extent text.old + WORD_ROOM * length sizes.now }
{
    for size in sizes {
        add_word(text, k, &Token::Size(*size));
    }
}

/// Adds the line of pipelines, where there are any.
fn add_pipes<K: Sink>(text: &mut Text, k: &mut K, pipes: u32)
    ensures adds { Adds K.took K.faults text.old k.old text.new k.new (pipes_text pipes) }
    ensures most { extent text.new ≤ extent text.old + 8 * WORD_ROOM }
{
    if pipes == 0 {
        return;
    }
    text.add(k, b"pipes");
    add_words(text, k, &[Token::Count(pipes)]);
    text.add(k, b"\n");
}

/// Adds event lines.
#[tactic(auto, using(crate::proofs::Additions::adds_none, std::proofs::lemmas::List::Folds::list_all_at))]
fn add_lines<K: Sink>(text: &mut Text, k: &mut K, lines: &[Line])
    requires { IsTrue (list_all is_line lines.now) }
    ensures adds { Adds K.took K.faults text.old k.old text.new k.new (flat_map event_text lines.now) }
    ensures most { extent text.new ≤ extent text.old + 32 * WORD_ROOM * length lines.now }
{
    for line in lines {
        add_line(text, k, line);
    }
}

/// Adds an event line.
fn add_line<K: Sink>(text: &mut Text, k: &mut K, line: &Line)
    requires { IsTrue (is_line line.now) }
    ensures adds { Adds K.took K.faults text.old k.old text.new k.new (event_text line.now) }
    ensures most { extent text.new ≤ extent text.old + 32 * WORD_ROOM }
{
    add_count(text, k, line.client as u32);
    add_binding(text, k, &line.name);
    add_verb(text, k, &line.verb);
    text.add(k, b"\n");
}

/// Adds the name that a line binds.
#[tactic(auto, using(crate::proofs::Additions::adds_none), unfolding(crate::specs::Token::spaced))]
fn add_binding<K: Sink>(text: &mut Text, k: &mut K, name: &Option<Name>)
    ensures adds { Adds K.took K.faults text.old k.old text.new k.new (spaced (binding_words name.now)) }
    ensures most { extent text.new ≤ extent text.old + 2 * WORD_ROOM }
{
    match name {
        Some(name) => add_words(
            text,
            k,
            &[Token::Letters(name.as_bytes()), Token::Letters(b"=")],
        ),
        None => {}
    }
}
