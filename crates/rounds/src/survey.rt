// Start-up's answer to the labels: a plan, or the first refusal of document 03's table that applies.
ghost use Rattle.std.specs.Prelude.{◌≡◌, ◌+◌, ◌≤◌, Some};
ghost use Rattle.disk.specs.Mask.{in_mask};
ghost use Rattle.label.specs.Fields.{most_generation};
ghost use Rattle.label.specs.Newest.{all_of};
ghost use Rattle.rounds.specs.Slot.{goes_out};
ghost use Rattle.rounds.specs.Survey.{slots_that, next_of, plan_of, fits_shelf, labelled, enough, table, survey_of};

use crate::plan::Plan;
use crate::slot::Slots;
use disk::geometry::Geometry;
use disk::mask::{all_below, count, has, with_slot};
use disk::refusal::Refusal;
use disk::sector::fits_image;
use label::fields::{Label, MOST_GENERATION, NO_SLOT};
use label::newest::{all_agree, shelf_label};

// Whether a label is of a shelf of this geometry.
#[tactic(auto, unfolding(crate::specs::Survey::fits_shelf))]
fn fits_shelf(g: Geometry, lead: Label) -> bool
    ensures { result ≡ fits_shelf g lead }
{
    lead.k.checked_add(lead.m) == Some(g.n) && lead.c == g.c && lead.sectors == g.sectors
}

impl Slots<'_> {
    // Out': the slots that are out, and those that are gone.
    fn next_out(&self) -> u64
        ensures { result ≡ slots_that self.now.g self.now.image.now self.now.absent goes_out self.now.lead }
    {
        (0..self.g.n)
            .filter(|&d| self.goes_out(d))
            .fold(0, with_slot)
    }

    // The label that start-up settles.
    #[tactic(auto, unfolding(crate::specs::Survey::next_of))]
    fn next(&self) -> Label
        requires { self.now.lead.generation + 2 ≤ most_generation }
        ensures { result ≡ next_of self.now.g self.now.image.now self.now.absent self.now.lead }
    {
        let lead = self.lead;
        let ended = self.is_gone(lead.rebuilding);
        Label {
            generation: lead.generation + 2,
            out: self.next_out(),
            rebuilding: if ended { NO_SLOT } else { lead.rebuilding },
            mark: if ended { 0 } else { lead.mark },
            ..lead
        }
    }

    // The plan under the shelf's label.
    fn plan(&self) -> Plan
        requires { self.now.lead.generation + 2 ≤ most_generation }
        ensures { result ≡ plan_of self.now.g self.now.image.now self.now.absent self.now.lead }
    {
        Plan {
            lead: self.lead,
            next: self.next(),
            parts: (0..self.g.n)
                .filter(|&d| !self.is_gone(d))
                .fold(0, with_slot),
            late: (0..self.g.n).filter(|&d| self.adopts(d)).fold(0, with_slot),
            zeroed: (0..self.g.n)
                .filter(|&d| self.gets_zeros(d))
                .fold(0, with_slot),
            kept: (0..self.g.n)
                .filter(|&d| self.gets_label(d))
                .fold(0, with_slot),
        }
    }

    // Whether the labels of the present disks are all there and agree, with each other and with the caller.
    fn is_labelled(&self) -> bool
        ensures { result ≡ labelled self.now.g self.now.image.now self.now.absent (Some self.now.lead) }
    {
        all_agree(self.image, self.g, self.absent, self.lead) && fits_shelf(self.g, self.lead)
    }

    // Whether at most m slots are absent, stale or out.
    fn is_enough(&self) -> bool
        ensures { result ≡ enough self.now.g self.now.image.now self.now.absent (Some self.now.lead) }
    {
        count(self.next_out()) as usize <= self.lead.m
    }

    // The table, with the shelf's label in hand.
    fn table(&self) -> Result<Plan, Refusal>
        ensures { result ≡ table self.now.g self.now.image.now self.now.absent (Some self.now.lead) }
    {
        if !self.is_labelled() {
            return Err(Refusal::NoLabel);
        }
        if !self.is_enough() {
            return Err(Refusal::TooFew);
        }
        if !all_below(self.absent, self.g.n) {
            return Err(Refusal::BadBlock);
        }
        if MOST_GENERATION - 2 < self.lead.generation {
            return Err(Refusal::NotNow);
        }
        Ok(self.plan())
    }
}

// Whether all slots are absent.
fn all_absent(absent: u64, n: usize) -> bool
    ensures { result ≡ all_of (in_mask absent) n }
{
    (0..n).all(|d| has(absent, d))
}

// What start-up makes of the labels.
#[tactic(auto, unfolding(crate::specs::Survey::survey_of))]
pub fn survey(image: &[u8], g: Geometry, absent: u64) -> Result<Plan, Refusal>
    ensures { result ≡ survey_of g image.now absent }
{
    if !fits_image(g, image.len()) {
        return Err(Refusal::BadImage);
    }
    let Some(lead) = shelf_label(image, g, absent) else {
        return Err(if all_absent(absent, g.n) {
            Refusal::TooFew
        } else {
            Refusal::NoLabel
        });
    };
    let slots = Slots {
        image,
        g,
        absent,
        lead,
    };
    slots.table()
}
