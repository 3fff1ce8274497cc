//! The program `cases_film`: plays cases of the writer of films, and of the reader.
#![tactic(auto)]

mod reading;

ghost use Rattle.std.specs.Prelude.{◌≡◌, ◌<◌, ◌^◌, length, IfSome};
ghost use Rattle.wf_image.specs.Bitmap.{pixel_bytes};

use reading::{Reading, told};
use std::alloc::{AllocError, Global};
use std::io;
use std::process::ExitCode;
use wf_calls::{Order, Turn};
use wf_cases::{Stage, color, number, size, word, words_of};
use wf_film::{FilmForm, WriteStop, Writer};
use wf_image::Image;
use wf_io::MemorySink;
use wf_pixel::{Format, MOST_SIDE, Rgba, Size};

/// The most entries of a journal here.
const MOST_TURNS: usize = 1000;

/// What a film is made of, the last one, and the bytes that are read.
#[derive(Drop)]
struct Films {
    form: FilmForm,
    begin: u32,
    frame: Option<(Size, Rgba)>,
    turns: Vec<Turn>,
    film: Option<MemorySink>,
    reading: Reading,
}

fn main(rt: HostRuntime) -> io::Result<ExitCode> {
    wf_cases::play::<Films, HostRuntime>(&rt)
}

impl<R: AllocGlobal> Stage<R> for Films {
    fn opened(alloc: Global) -> Films {
        Films {
            form: FilmForm::One,
            begin: 0,
            frame: None,
            turns: Vec::new(alloc),
            film: None,
            reading: Reading::opened(alloc),
        }
    }

    fn answer(&mut self, rt: &R, call: &str) -> Result<String, AllocError> {
        let alloc = rt.alloc();
        let words = words_of(alloc, call)?;
        let words = words.as_slice();
        match word(words, 0) {
            "form" => {
                self.form = if number::<u8>(words, 1) == 2 {
                    FilmForm::Two
                } else {
                    FilmForm::One
                };
                self.begin = number(words, 2);
                format!(in alloc; "{:?}", self.form)
            }
            "frame" => {
                let color = color(words, 3);
                self.frame = size(words, 1).map(|size| (size, color));
                format!(in alloc; "{}", self.frame.is_some())
            }
            "turn" => {
                self.turns.push(Turn {
                    client: number(words, 1),
                    code: number(words, 2),
                    value: number(words, 3),
                })?;
                format!(in alloc; "{} turns", self.turns.len())
            }
            "film" => self.film(alloc, number(words, 1)),
            "bytes" => self.bytes(alloc, number(words, 1), number(words, 2)),
            "again" => match &self.film {
                Some(film) => told(alloc, film.bytes()),
                None => format!(in alloc; "no film"),
            },
            "put" | "read" | "entry" | "cut" | "cuts" | "with" => self.reading.answer(alloc, words),
            _ => format!(in alloc; "no such call"),
        }
    }
}

/// An image of one colour, where the sides are in their range.
fn image_of(alloc: Global, size: Size, color: Rgba) -> Option<Image>
    ensures { IfSome result (λ image. pixel_bytes image.format ≡ 4) }
{
    let Size { w, h } = size;
    if 1 <= w && w <= MOST_SIDE && 1 <= h && h <= MOST_SIDE {
        let mut image = Image::new(alloc, Size { w, h }, Format::Rgba8).ok()?;
        for pixel in image.bytes_mut().chunks_exact_mut(4) {
            pixel[0] = color.r;
            pixel[1] = color.g;
            pixel[2] = color.b;
            pixel[3] = color.a;
        }
        Some(image)
    } else {
        None
    }
}

/// Writes a film with one frame, of port 1 at tick 1, or with none.
fn write(
    sink: &mut MemorySink,
    form: FilmForm,
    begin: u32,
    image: &Option<Image>,
    order: &Order,
) -> Result<(), WriteStop>
    requires pixels { IfSome image.now (λ image. pixel_bytes image.format ≡ 4) }
    requires turns { length order.now < 2 ^ 32 }
{
    let mut writer = Writer::new(sink, form)?;
    if let Some(image) = image {
        writer.frame(sink, 1, 1, begin, image)?;
    }
    writer.finish(sink, order)
}

impl Films {
    /// Writes the film into a sink whose call of this number fails, 0 for none.
    fn film(&mut self, alloc: Global, failing: u32) -> Result<String, AllocError> {
        let turns = Vec::from_slice(alloc, &self.turns)?;
        if turns.len() > MOST_TURNS {
            return format!(in alloc; "too many turns");
        }
        let order = Order::new(turns);
        let image = match self.frame {
            Some((size, color)) => image_of(alloc, size, color),
            None => None,
        };
        let failing = Vec::from_slice(alloc, &[failing])?;
        let Ok(mut sink) = MemorySink::new(alloc, 65_536, failing) else {
            return Err(AllocError);
        };
        let written = write(&mut sink, self.form, self.begin, &image, &order);
        let held = sink.bytes().len();
        self.film = Some(sink);
        match written {
            Ok(()) => format!(in alloc; "{held} bytes"),
            Err(stop) => format!(in alloc; "stop after {}, {held} bytes", stop.written),
        }
    }

    /// So many bytes of the film from a place on, in hexadecimal.
    fn bytes(&self, alloc: Global, from: usize, count: usize) -> Result<String, AllocError> {
        let Some(film) = &self.film else {
            return format!(in alloc; "no film");
        };
        let mut told = String::new(alloc);
        for byte in film.bytes().iter().skip(from).take(count) {
            let pair = format!(in alloc; "{byte:02x}")?;
            told.push_str(&pair)?;
        }
        Ok(told)
    }
}
