//! How a paint is printed.

ghost use Rattle.std.specs.Prelude.{◌+◌, ◌*◌, ◌≤◌, ◌++◌, IsTrue};
ghost use Rattle.wf_image.specs.Paints.{is_paint};
ghost use Rattle.wf_script.specs.Canonical.{color_words, paint_words};
ghost use Rattle.wf_script.specs.Text.{Adds, extent};
ghost use Rattle.wf_script.specs.Token.{spaced};

use crate::WORD_ROOM;
use crate::text::Text;
use crate::token::Token::{Count, Letters, Pixels, Place};
use crate::token::add_words;
use wf_image::Paint;
use wf_io::Sink;
use wf_pixel::Rgba;

/// Adds the channels of a colour.
fn add_color<K: Sink>(text: &mut Text, k: &mut K, color: Rgba)
    ensures adds { Adds K.took K.faults text.old k.old text.new k.new (spaced (color_words color)) }
    ensures most { extent text.new ≤ extent text.old + 4 * WORD_ROOM }
{
    add_words(
        text,
        k,
        &[
            Count(color.r.into()),
            Count(color.g.into()),
            Count(color.b.into()),
            Count(color.a.into()),
        ],
    );
}

/// Adds the channels of two colours.
fn add_colors<K: Sink>(text: &mut Text, k: &mut K, first: Rgba, second: Rgba)
    ensures adds { Adds K.took K.faults text.old k.old text.new k.new (spaced (color_words first ++ color_words second)) }
    ensures most { extent text.new ≤ extent text.old + 8 * WORD_ROOM }
{
    add_color(text, k, first);
    add_color(text, k, second);
}

/// Adds the words of a paint.
pub(crate) fn add_paint<K: Sink>(text: &mut Text, k: &mut K, paint: &Paint)
    requires { IsTrue (is_paint paint.now) }
    ensures adds { Adds K.took K.faults text.old k.old text.new k.new (spaced (paint_words paint.now)) }
    ensures most { extent text.new ≤ extent text.old + 10 * WORD_ROOM }
{
    match paint {
        Paint::Fill { color } => {
            add_words(text, k, &[Letters(b"fill")]);
            add_color(text, k, *color);
        }
        Paint::Rectangle { area, color: c } => add_words(
            text,
            k,
            &[
                Letters(b"box"),
                Place(area.x),
                Place(area.y),
                Count(area.w),
                Count(area.h),
                Count(c.r.into()),
                Count(c.g.into()),
                Count(c.b.into()),
                Count(c.a.into()),
            ],
        ),
        Paint::Checker { n, first, second } => {
            add_words(text, k, &[Letters(b"checker"), Count(*n)]);
            add_colors(text, k, *first, *second);
        }
        Paint::Ramp { first, second } => {
            add_words(text, k, &[Letters(b"ramp")]);
            add_colors(text, k, *first, *second);
        }
        Paint::Row { y, pixels } => add_words(
            text,
            k,
            &[Letters(b"row"), Count(*y), Pixels(pixels.as_slice())],
        ),
    }
}
