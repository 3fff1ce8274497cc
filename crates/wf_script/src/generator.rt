//! Makes the script of the generator, which is as long as one likes.

ghost use Rattle.std.specs.Prelude.{◌≡◌, ◌≤◌, ◌<◌, ◌++◌, length, take, drop, IfOk, OnOk};
ghost use Rattle.wf_script.specs.Generator.{client_of_round, color_of_round, context, device, element_of_round, made, made_ports};
ghost use Rattle.wf_script.specs.Generator.{named_line, numbered, plain_line, rectangle_value, round, rounds, set_line, setup, source};
ghost use Rattle.wf_script.specs.Generator.{stream};

use crate::line::{Line, Value, Verb};
use crate::name::Name;
use crate::script::Script;
use arrayvec::{ArrayString, ArrayVec};
use itoa::Buffer;
use std::alloc::Global;
use wf_calls::{Modes, Ports};
use wf_image::Paint;
use wf_pixel::{Format, Rgba, Size};
use wf_scene::ElementAttr;
use wf_words::NoMemory;

/// A name of at most 16 letters.
fn named(letters: &str) -> Name
    requires { length letters.now ≤ 16 }
    ensures { result ≡ letters.now }
{
    let mut text = ArrayString::new();
    text.push_str(letters);
    Name::new(text)
}

/// The name of a letter and a number.
fn numbered(letter: &str, number: u32) -> Name
    requires { length letter.now ≤ 1 }
    ensures { result ≡ numbered letter.now number }
{
    let mut digits = Buffer::new();
    let mut text = ArrayString::new();
    text.push_str(letter);
    text.push_str(digits.format(number));
    Name::new(text)
}

/// The device's name.
fn device() -> Option<Name>
    ensures { result ≡ device }
{
    Some(named("d"))
}

/// The context's name.
fn context() -> Option<Name>
    ensures { result ≡ context }
{
    Some(named("c"))
}

/// A line of a client that binds no name.
fn plain_line(client: u8, verb: Verb) -> Line
    ensures { result ≡ plain_line client verb }
{
    Line {
        client,
        name: None,
        verb,
    }
}

/// A line of a client that binds a name.
fn named_line(client: u8, name: Name, verb: Verb) -> Line
    ensures { result ≡ named_line client name verb }
{
    Line {
        client,
        name: Some(name),
        verb,
    }
}

/// The lines before the first round: the device, the context of the port's screen, which is active.
fn setup() -> [Line; 3]
    ensures { result ≡ setup }
{
    let device_new = Verb::DeviceNew;
    let screen = Verb::ScreenContext {
        device: device(),
        port: 1,
    };
    let activate = Verb::Activate {
        device: device(),
        context: context(),
    };
    [
        named_line(0, named("d"), device_new),
        named_line(0, named("c"), screen),
        plain_line(0, activate),
    ]
}

/// A round: its number.
#[derive(Clone, Copy)]
struct Round {
    number: u32,
    ghost small: { number < 1000 },
}

impl Round {
    /// Its client, 1 to 7 in turn.
    fn client(self) -> u8
        ensures { result ≡ client_of_round self.number }
    {
        (1 + self.number % 7) as u8
    }

    /// The name of its stream.
    fn stream(self) -> Name
        ensures { result ≡ stream self.number }
    {
        numbered("s", self.number)
    }

    /// The name of its source.
    fn source(self) -> Name
        ensures { result ≡ source self.number }
    {
        numbered("x", self.number)
    }

    /// The name of its element.
    fn element(self) -> Name
        ensures { result ≡ element_of_round self.number }
    {
        numbered("e", self.number)
    }

    /// A line of its client.
    fn plain(self, verb: Verb) -> Line
        ensures { result ≡ plain_line (client_of_round self.number) verb }
    {
        plain_line(self.client(), verb)
    }

    /// A line of its client that binds a name.
    fn named(self, name: Name, verb: Verb) -> Line
        ensures { result ≡ named_line (client_of_round self.number) name verb }
    {
        named_line(self.client(), name, verb)
    }

    /// The line that sets an attribute of its element.
    fn set(self, attr: ElementAttr, value: Value) -> Line
        ensures { result ≡ set_line self.number attr value }
    {
        self.plain(Verb::ElementSet {
            device: device(),
            element: Some(self.element()),
            attr,
            value,
        })
    }

    /// The colour that it fills its stream with.
    fn color(self) -> Rgba
        ensures { result ≡ color_of_round self.number }
    {
        Rgba {
            r: (self.number % 256) as u8,
            g: (7 * self.number % 256) as u8,
            b: (13 * self.number % 256) as u8,
            a: 255,
        }
    }

    /// The lines that make its stream, its source and its element.
    fn made(self) -> [Line; 3]
        ensures { result ≡ take 3 (round self.number) }
    {
        let stream_new = Verb::StreamNew {
            width: 8,
            height: 8,
            format: Format::Rgbx8,
            buffers: 2,
        };
        let source_new = Verb::SourceNew {
            device: device(),
            context: context(),
            stream: Some(self.stream()),
        };
        let element_new = Verb::ElementNew {
            device: device(),
            context: context(),
        };
        [
            self.named(self.stream(), stream_new),
            self.named(self.source(), source_new),
            self.named(self.element(), element_new),
        ]
    }

    /// The lines that set its element and insert it.
    fn placed(self) -> [Line; 4]
        ensures { result ≡ take 4 (drop 3 (round self.number)) }
    {
        let x = i64::from(5 * self.number % 56);
        let y = i64::from(3 * self.number % 40);
        let insert = Verb::ElementInsert {
            device: device(),
            element: Some(self.element()),
            below: None,
        };
        [
            self.set(ElementAttr::Source, Value::Handle(Some(self.source()))),
            self.set(ElementAttr::SrcRect, Value::Numbers([0, 0, 8, 8])),
            self.set(ElementAttr::Dest, Value::Numbers([x, y, 8, 8])),
            self.plain(insert),
        ]
    }

    /// The lines that show a frame.
    fn shown(self) -> [Line; 3]
        ensures { result ≡ take 3 (drop 7 (round self.number)) }
    {
        let frame = Verb::Frame {
            stream: Some(self.stream()),
            paint: Paint::Fill {
                color: self.color(),
            },
        };
        let commit = Verb::Commit {
            device: device(),
            context: context(),
        };
        [
            self.plain(frame),
            self.plain(commit),
            plain_line(0, Verb::Tick),
        ]
    }

    /// The lines that destroy what it made.
    fn destroyed(self) -> [Line; 3]
        ensures { result ≡ drop 10 (round self.number) }
    {
        let element = Verb::ElementDestroy {
            device: device(),
            element: Some(self.element()),
        };
        let source = Verb::SourceDestroy {
            device: device(),
            source: Some(self.source()),
        };
        let stream = Verb::StreamDestroy {
            stream: Some(self.stream()),
        };
        [self.plain(element), self.plain(source), self.plain(stream)]
    }
}

/// Appends a few lines.
fn append<const N: usize>(lines: &mut Vec<Line>, more: [Line; N]) -> Result<(), NoMemory>
    requires few { N ≤ 4 }
    ensures { OnOk result (lines.new.items ≡ lines.old.items ++ more.entry) }
{
    for line in more {
        lines.push(line)?;
    }
    Ok(())
}

/// Appends a round.
fn append_round(lines: &mut Vec<Line>, one: Round) -> Result<(), NoMemory>
    ensures { OnOk result (lines.new.items ≡ lines.old.items ++ round one.number) }
{
    append(lines, one.made())?;
    append(lines, one.placed())?;
    append(lines, one.shown())?;
    append(lines, one.destroyed())?;
    Ok(())
}

/// The port of 64 by 48 pixels, and the pipeline.
fn ports() -> Ports
    ensures { result ≡ made_ports }
{
    let mut sizes = ArrayVec::new();
    sizes.push(Size { w: 64, h: 48 });
    let mut modes = ArrayVec::new();
    modes.push(Modes { sizes });
    Ports { modes, pipes: 1 }
}

/// Makes the script of `n` rounds, 1 to 1000. Each round is of one of the clients 1 to 7 in turn, shows a stream that it makes
/// in one frame, and destroys it again, so the film has `n` frames and the script no more than one stream at a time.
pub fn make(alloc: Global, n: u32) -> Result<Script, NoMemory>
    requires some { 1 ≤ n }
    requires most { n ≤ 1000 }
    ensures { IfOk result (λ script. script ≡ made n) }
{
    let mut lines = Vec::with_capacity(alloc, 3 + 13 * n as usize)?;
    append(&mut lines, setup())?;
    for number in 0..n {
        append_round(&mut lines, Round { number })?;
    }
    Ok(Script::new(ports(), lines))
}
