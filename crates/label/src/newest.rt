// Which label counts: a disk's is its valid copy of the greatest generation, the shelf's the greatest among the present
// disks. And whether the labels of the present disks are all there and agree.
ghost use Rattle.std.specs.Prelude.{◌≡◌};
ghost use Rattle.label.specs.Newest.{newer, disk_label, present_label, shelf_label, same_shelf, standing, agreed};

use crate::codec::decode;
use crate::fields::Label;
use disk::geometry::Geometry;
use disk::mask::has;
use disk::sector::{fits_image, read};

// The newer of two labels; the first where they are of one generation.
fn newer_of(x: Option<Label>, y: Option<Label>) -> Option<Label>
    ensures { result ≡ newer x y }
{
    match (x, y) {
        (Some(a), Some(b)) if a.generation < b.generation => y,
        (Some(_), _) => x,
        (None, _) => y,
    }
}

// The label of the disk in slot d.
pub fn disk_label(image: &[u8], g: Geometry, d: usize) -> Option<Label>
    ensures { result ≡ disk_label g image.now d }
{
    let even = decode(read(image, g, d, 0), d, 0);
    let odd = decode(read(image, g, d, 1), d, 1);
    newer_of(even, odd)
}

// The label of the disk in slot d, if it is present.
#[tactic(auto, unfolding(crate::specs::Newest::present_label))]
pub fn present_label(image: &[u8], g: Geometry, absent: u64, d: usize) -> Option<Label>
    ensures { result ≡ present_label g image.now absent d }
{
    if has(absent, d) {
        None
    } else {
        disk_label(image, g, d)
    }
}

// The shelf's label.
#[tactic(auto, unfolding(crate::specs::Newest::shelf_label))]
pub fn shelf_label(image: &[u8], g: Geometry, absent: u64) -> Option<Label>
    ensures { result ≡ shelf_label g image.now absent }
{
    if !fits_image(g, image.len()) {
        return None;
    }
    (0..g.n).fold(
        None,
        |newest, d| newer_of(newest, present_label(image, g, absent, d)),
    )
}

// Whether two labels are of one shelf: they agree in k, m, c, S and the shelf number (half of a label's fields: the derived == compares
// all).
#[tactic(auto, unfolding(crate::specs::Newest::same_shelf))]
pub fn same_shelf(x: Label, y: Label) -> bool
    ensures { result ≡ same_shelf x y }
{
    x.k == y.k && x.m == y.m && x.c == y.c && x.sectors == y.sectors && x.shelf == y.shelf
}

// Whether slot d is absent, or its disk has a label that agrees with l.
#[tactic(auto, unfolding(crate::specs::Newest::standing))]
fn stands(image: &[u8], g: Geometry, absent: u64, l: Label, d: usize) -> bool
    ensures { result ≡ standing g image.now absent l d }
{
    has(absent, d) || disk_label(image, g, d).is_some_and(|x| same_shelf(l, x))
}

// Whether each present disk has a label, and it agrees with l.
pub fn all_agree(image: &[u8], g: Geometry, absent: u64, l: Label) -> bool
    ensures { result ≡ agreed g image.now absent l }
{
    fits_image(g, image.len()) && (0..g.n).all(|d| stands(image, g, absent, l, d))
}
