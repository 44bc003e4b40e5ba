// Which slots are missing, and which strips of a stripe are there.
ghost use Rattle.std.specs.Prelude.{◌≡◌, true, ◌≤◌, ◌<◌};
ghost use Rattle.disk.specs.Limits.{most_n};
ghost use Rattle.disk.specs.Geometry.{in_range};
ghost use Rattle.label.specs.Fields.{fits_of};
ghost use Rattle.blocks.specs.Slots.{missing_at, missing, too_few, none_missing, all_slots, there_at, there, changes_at, changed_shards, changed_at, changed_slots};

use disk::geometry::Geometry;
use disk::mask::{count, has, with_slot};
use label::fields::Label;
use redo::belief::believes;

// The slots that are out or absent.
fn missing_slots(l: Label, absent: u64) -> u64
    requires { fits_of l ≡ true }
    ensures { result ≡ missing l absent }
{
    (0..l.k + l.m)
        .filter(|&d| has(l.out, d) || has(absent, d))
        .fold(0, with_slot)
}

// Whether more than m slots are out or absent.
pub(crate) fn too_few(l: Label, absent: u64) -> bool
    requires { fits_of l ≡ true }
    ensures { result ≡ too_few l absent }
{
    l.m < count(missing_slots(l, absent)) as usize
}

// Whether no slot is out or absent.
pub(crate) fn none_missing(l: Label, absent: u64) -> bool
    requires { fits_of l ≡ true }
    ensures { result ≡ none_missing l absent }
{
    missing_slots(l, absent) == 0
}

// All slots below n.
pub(crate) fn all_slots(n: usize) -> u64
    requires { n ≤ most_n }
    ensures { result ≡ all_slots n }
{
    (0..n).fold(0, with_slot)
}

// Whether slot d's strip of stripe t is there and believed.
#[tactic(auto, unfolding(crate::specs::Slots::there_at))]
fn is_there(g: Geometry, l: Label, absent: u64, t: usize, d: usize) -> bool
    requires { in_range g ≡ true }
    ensures { result ≡ there_at g l absent t d }
{
    believes(g, l, d, t) && !has(absent, d)
}

// The slots whose strip of stripe t is there and believed.
pub(crate) fn slots_there(g: Geometry, l: Label, absent: u64, t: usize) -> u64
    requires { in_range g ≡ true }
    ensures { result ≡ there g l absent t }
{
    (0..g.n)
        .filter(|&d| is_there(g, l, absent, t, d))
        .fold(0, with_slot)
}

// Whether a write of block i of a stripe changes shard r.
#[tactic(auto, unfolding(crate::specs::Slots::changes_at))]
fn is_changing(k: usize, i: usize, all: bool, r: usize) -> bool
    ensures { result ≡ changes_at k i all r }
{
    all || r == i || k <= r
}

// The shards that a write of block i changes: all, or the block and the parity.
pub(crate) fn changed_shards(n: usize, k: usize, i: usize, all: bool) -> u64
    requires { n ≤ most_n }
    ensures { result ≡ changed_shards n k i all }
{
    (0..n)
        .filter(|&r| is_changing(k, i, all, r))
        .fold(0, with_slot)
}

// Whether slot d's strip of stripe t is there, and its shard is one of these.
#[tactic(auto, unfolding(crate::specs::Slots::changed_at))]
fn is_changed(n: usize, t: usize, there: u64, parts: u64, d: usize) -> bool
    requires { (n ≤ most_n) × (d < n) }
    ensures { result ≡ changed_at n t there parts d }
{
    has(there, d) && has(parts, (d + (n - t % n)) % n)
}

// The slots of which this holds.
pub(crate) fn changed_slots(n: usize, t: usize, there: u64, parts: u64) -> u64
    requires { n ≤ most_n }
    ensures { result ≡ changed_slots n t there parts }
{
    (0..n)
        .filter(|&d| is_changed(n, t, there, parts, d))
        .fold(0, with_slot)
}
