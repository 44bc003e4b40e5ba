// What start-up decides about the log, once it has settled the label: whether the last write goes forward, from the records
// of its slots, or is wiped. Nothing is written here. Every public function takes any numbers and any slice.
#![tactic(auto)]

pub mod belief;
mod settle;
mod tails;

ghost use Rattle.std.specs.Prelude.{◌≡◌};
ghost use Rattle.redo.specs.Decide.{redo_of};

use crate::settle::Write;
use crate::tails::Logs;
use disk::geometry::Geometry;
use disk::sector::fits_image;
use label::fields::Label;

// Nothing to do; or the strip of this stripe is written on each of these slots, from the slot's own record; or the tail of
// each of these slots is wiped. These three are the answers
// of `redo_of`, of which the theorems on start-up's log speak.
#[derive(Clone, Copy)]
pub enum Redo {
    Nothing,
    Forward { stripe: usize, slots: u64 },
    Kill { slots: u64 },
}

// What start-up does about the log of this image, under the label that it settles.
pub fn decide(image: &[u8], g: Geometry, l: Label) -> Redo
    ensures { result ≡ redo_of g image.now l }
{
    if !fits_image(g, image.len()) {
        return Redo::Nothing;
    }
    let logs = Logs { image, g, l };
    let Some(tail) = logs.find_tail(logs.leader()) else {
        return Redo::Nothing;
    };
    Write { logs, tail }.settle()
}
