//! Reads the lines of a script behind its header.

ghost use Rattle.std.specs.Prelude.{◌≡◌, ◌↔◌, ◌<◌, ◌≤◌, ◌==◌, not, [], ◌∷◌, ◌++◌, length, IsTrue, IfOk, OnOk, option_map};
ghost use Rattle.wf_words.specs.Refusals.{left_by};
ghost use Rattle.wf_script.specs.Grammar.{end_line, event_line, line_of, no_event_here, no_pipes_here, no_port_here, nothing_read};
ghost use Rattle.wf_script.specs.Grammar.{pipes_line, port_line, read_line, script_of, sizes};
ghost use Rattle.wf_script.specs.Reader.{SizesAre, alone_is, reading};
ghost use Rattle.wf_script.specs.Rules.{Gives};
ghost use Rattle.wf_script.specs.Script.{IsScript};
ghost use Rattle.wf_script.specs.Seen.{SeesAll};
ghost use Rattle.wf_script.specs.Words.{words_in};

use crate::field::Item;
use crate::form::Form;
use crate::given::arguments;
use crate::line::Line;
use crate::numbers::{client_of, count_in, size_of};
use crate::parts::{bound_name, has_its_name, is_its_client, parts_of};
use crate::pick::word_count;
use crate::rule::{LineFault, Rule};
use crate::script::Script;
use crate::seen::Seen;
use crate::words::{are_allowed, next_word, without_comment, without_return};
use arrayvec::ArrayVec;
use std::alloc::Global;
use wf_calls::{MOST_PIPELINES, Modes, Ports};
use wf_pixel::Size;

/// The most ports, and the most modes of a port.
const MOST: usize = 4;

/// What was read so far: the ports' modes, the number of pipelines where it was declared, the event lines, whether the
/// end stood, and the names. The items of the line that is read have their room here, since it would cost to make it for each line.
#[derive(Drop)]
pub(crate) struct Reader<'a> {
    pub modes: ArrayVec<Modes, 4>,
    pub pipes: Option<u32>,
    pub lines: Vec<Line>,
    pub ended: bool,
    pub names: Seen<'a>,
    items: ArrayVec<Item<'a>, 8>,
}

/// The sizes of a port's modes.
fn sizes(words: &[u8]) -> Result<ArrayVec<Size, 4>, Rule>
    requires { length (words_in words.now) ≤ MOST }
    ensures { SizesAre result (sizes (words_in words.now)) }
{
    let mut sizes = ArrayVec::new();
    let mut rest = words;
    while let Some((word, behind)) = next_word(rest) {
        match size_of(word) {
            Some(size) => sizes.push(size),
            None => return Err(Rule::Word),
        }
        rest = behind;
    }
    Ok(sizes)
}

/// One word alone.
fn alone(words: &[u8]) -> Result<&[u8], Rule>
    ensures { alone_is result (words_in words.now) }
{
    let (word, behind) = next_word(words).ok_or(Rule::Count)?;
    match next_word(behind) {
        Some(_) => Err(Rule::Count),
        None => Ok(word),
    }
}

impl<'a> Reader<'a> {
    /// Nothing was read.
    pub(crate) fn new(alloc: Global) -> Reader<'a>
        ensures nothing { reading result ≡ nothing_read }
        ensures names { SeesAll result.names [] }
    {
        Reader {
            modes: ArrayVec::new(),
            pipes: None,
            lines: Vec::new(alloc),
            ended: false,
            names: Seen::new(alloc),
            items: ArrayVec::new(),
        }
    }

    /// Whether no port stands here.
    fn no_port_here(&self) -> bool
        ensures { result ≡ no_port_here (reading self.now) }
    {
        self.ended
            || self.pipes.is_some()
            || !self.lines.as_slice().is_empty()
            || self.modes.len() >= MOST
    }

    /// A port with its modes.
    #[tactic(auto, using(std::proofs::lemmas::Bool::Decides::nat_tests), unfolding(crate::specs::Grammar::port_line))]
    fn port_line(&mut self, words: &[u8]) -> Result<(), Rule>
        ensures read { left_by result (reading self.new) ≡ port_line (reading self.old) (words_in words.now) }
        ensures right { SeesAll self.old.names self.old.lines.items → SeesAll self.new.names self.new.lines.items }
    {
        if self.no_port_here() {
            return Err(Rule::Place);
        }
        let count = word_count(words);
        if count < 1 || count > MOST {
            return Err(Rule::Count);
        }
        let sizes = sizes(words)?;
        self.modes.push(Modes { sizes });
        Ok(())
    }

    /// Whether no number of pipelines stands here.
    fn no_pipes_here(&self) -> bool
        ensures { result ≡ no_pipes_here (reading self.now) }
    {
        self.ended
            || self.modes.is_empty()
            || self.pipes.is_some()
            || !self.lines.as_slice().is_empty()
    }

    /// The number of pipelines.
    #[tactic(auto, unfolding(crate::specs::Grammar::pipes_line))]
    fn pipes_line(&mut self, words: &[u8]) -> Result<(), Rule>
        ensures read { left_by result (reading self.new) ≡ pipes_line (reading self.old) (words_in words.now) }
        ensures right { SeesAll self.old.names self.old.lines.items → SeesAll self.new.names self.new.lines.items }
    {
        if self.no_pipes_here() {
            return Err(Rule::Place);
        }
        let word = alone(words)?;
        let count = count_in(0, MOST_PIPELINES, word).ok_or(Rule::Word)?;
        self.pipes = Some(count);
        Ok(())
    }

    /// Whether no event line and no end stands here.
    fn no_event_here(&self) -> bool
        ensures { result ≡ no_event_here (reading self.now) }
    {
        self.ended || self.modes.is_empty()
    }

    /// The end.
    #[tactic(auto, using(std::proofs::lemmas::Bool::Decides::nat_tests), unfolding(crate::specs::Grammar::end_line))]
    fn end_line(&mut self, words: &[u8]) -> Result<(), Rule>
        ensures read { left_by result (reading self.new) ≡ end_line (reading self.old) (words_in words.now) }
        ensures right { SeesAll self.old.names self.old.lines.items → SeesAll self.new.names self.new.lines.items }
    {
        if self.no_event_here() {
            return Err(Rule::Place);
        }
        if word_count(words) > 0 {
            return Err(Rule::Count);
        }
        self.ended = true;
        Ok(())
    }

    /// An event line.
    #[tactic(auto, unfolding(crate::specs::Grammar::event_line))]
    fn event_line(&mut self, alloc: Global, client: u8, words: &'a [u8]) -> Result<(), LineFault>
        requires client { client < 8 }
        requires right { SeesAll self.old.names self.old.lines.items }
        ensures read { Gives (λ _. reading self.new) result (event_line (reading self.old) client (words_in words.now)) }
        ensures right { OnOk result (SeesAll self.new.names self.new.lines.items) }
    {
        let parts = parts_of(words)?;
        let form = Form::of_verb(parts.verb).ok_or(Rule::Verb)?;
        if !has_its_name(form, parts.name) {
            return Err(LineFault::Breaks(Rule::Verb));
        }
        if self.no_event_here() || !is_its_client(form, client) {
            return Err(LineFault::Breaks(Rule::Place));
        }
        self.items.clear();
        let verb = arguments(alloc, form, parts.arguments, &mut self.items)?;
        let name = bound_name(parts.name)?;
        if !self.names.sees(client, self.items.as_slice()) {
            return Err(LineFault::Breaks(Rule::Name));
        }
        if self.names.take_line(client, parts.name)? {
            return Err(LineFault::Breaks(Rule::Name));
        }
        // A push hands the line back where it fails, and would move it for that.
        if self.lines.reserve(1).is_err() {
            return Err(LineFault::NoMemory);
        }
        self.lines.push_reserved(Line { client, name, verb });
        Ok(())
    }

    /// The words of a line.
    #[tactic(auto, unfolding(crate::specs::Grammar::line_of))]
    fn words(&mut self, alloc: Global, words: &'a [u8]) -> Result<(), LineFault>
        requires { SeesAll self.old.names self.old.lines.items }
        ensures read { Gives (λ _. reading self.new) result (line_of (reading self.old) (words_in words.now)) }
        ensures right { OnOk result (SeesAll self.new.names self.new.lines.items) }
    {
        let Some((word, rest)) = next_word(words) else {
            return Ok(());
        };
        if word == b"port".as_slice() {
            self.port_line(rest)?;
            return Ok(());
        }
        if word == b"pipes".as_slice() {
            self.pipes_line(rest)?;
            return Ok(());
        }
        if word == b"end".as_slice() {
            self.end_line(rest)?;
            return Ok(());
        }
        let client = client_of(word).ok_or(Rule::Client)?;
        self.event_line(alloc, client, rest)
    }

    /// The next line.
    #[tactic(auto, unfolding(crate::specs::Grammar::read_line))]
    pub(crate) fn line(&mut self, alloc: Global, line: &'a [u8]) -> Result<(), LineFault>
        requires { SeesAll self.old.names self.old.lines.items }
        ensures read { Gives (λ _. reading self.new) result (read_line (reading self.old) line.now) }
        ensures right { OnOk result (SeesAll self.new.names self.new.lines.items) }
    {
        let line = without_return(line);
        if !are_allowed(line) {
            return Err(LineFault::Breaks(Rule::Byte));
        }
        self.words(alloc, without_comment(line))
    }

    /// The script that was read.
    pub(crate) fn script(self) -> Script
        requires { IsScript (script_of (reading self)) }
        ensures { result ≡ script_of (reading self.entry) }
    {
        let ports = Ports {
            modes: self.modes,
            pipes: self.pipes.unwrap_or(0),
        };
        Script::new(ports, self.lines)
    }
}
