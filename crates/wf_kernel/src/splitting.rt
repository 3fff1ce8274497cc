//! Rows that are split among workers where each has as much to paint.

ghost use Rattle.std.specs.Prelude.{◌≡◌, ◌+◌, ◌-◌, ◌<◌, ◌≤◌};
ghost use Rattle.wf_kernel.specs.Bands.{IsBand, AreShares};

use crate::bound::BoundLayer;
use crate::placing::Walk;
use wf_pixel::MOST_SIDE;

/// What it costs to start a thread, in pixels that are copied: some 20 microseconds.
const START: u64 = 65536;

/// Some rows of a target, and how many workers paint them.
#[derive(Clone, Copy, Debug, PartialEq, Eq)]
pub(crate) struct Band {
    pub(crate) first: u32,
    pub(crate) rows: u32,
    pub(crate) workers: u32,
}

/// Splits a band in two: the share of one worker above, and the share of the others below, in the ratio of what there is to paint.
/// So the thread that was asked for the picture makes all others, one after the other. Where threads made threads at the same time, two
/// began on one processor more often, and a picture took longer.
pub(crate) fn split_band(band: Band, width: u32, layers: &[BoundLayer]) -> (Band, Band)
    requires few { width ≤ MOST_SIDE }
    requires band { IsBand band }
    requires rows { 2 ≤ band.rows }
    requires workers { 2 ≤ band.workers }
    ensures upper { IsBand result.0 }
    ensures lower { IsBand result.1 }
    ensures shares { AreShares band result.0 result.1 }
{
    let goal = cost_goal(band, width, layers);
    let rows = rows_to(band, width, layers, goal);
    (
        Band {
            first: band.first,
            rows,
            workers: 1,
        },
        Band {
            first: band.first + rows,
            rows: band.rows - rows,
            workers: band.workers - 1,
        },
    )
}

/// What the rows above a band and those of one of its workers cost together. Each worker starts a little behind the one before it, so
/// an earlier one has more to paint.
fn cost_goal(band: Band, width: u32, layers: &[BoundLayer]) -> u64
    requires few { width ≤ MOST_SIDE }
    requires band { IsBand band }
{
    let above = u64::from(cost_above(width, layers, band.first));
    let all = u64::from(cost_above(width, layers, band.first + band.rows));
    let others = u64::from(band.workers - 1);
    let ahead = START * others.saturating_sub(1) / 2;
    (above * others + all) / u64::from(band.workers) + ahead
}

/// How many rows of a band it takes to come to this cost, but at least one, and not all.
fn rows_to(band: Band, width: u32, layers: &[BoundLayer], goal: u64) -> u32
    requires few { width ≤ MOST_SIDE }
    requires band { IsBand band }
    requires rows { 2 ≤ band.rows }
    ensures some { 1 ≤ result }
    ensures rest { result < band.rows }
{
    let mut low = 1;
    let mut high = band.rows - 1;
    while low < high {
        let middle = (low + high) / 2;
        if u64::from(cost_above(width, layers, band.first + middle)) < goal {
            low = middle + 1;
        } else {
            high = middle;
        }
    }
    low
}

/// What the rows above row `y` cost, in pixels that are copied. Each pixel is written once, with the background or with what hides it,
/// and then each layer that hides nothing is laid over it.
pub(crate) fn cost_above(width: u32, layers: &[BoundLayer], y: u32) -> u32
    requires few { width ≤ MOST_SIDE }
    requires y { y ≤ MOST_SIDE }
{
    let mut cost = width * y;
    for layer in layers {
        let pixels = layer.columns.before(width) * layer.rows.before(y);
        cost = cost.saturating_add(pixels * pixel_cost(layer));
    }
    cost
}

/// What a pixel of a layer costs beside one that is copied.
fn pixel_cost(layer: &BoundLayer) -> u32
    ensures { result ≤ 3 }
{
    if !layer.hides {
        3
    } else if layer.walk != Walk::Forward {
        1
    } else {
        0
    }
}
