// What start-up will write.
use label::fields::Label;

#[derive(Clone, Copy)]
pub struct Plan {
    // The shelf's label, as it stands: generation M.
    pub lead: Label,
    // The label that start-up settles: generation M + 2, with Out'; no rebuild any more if its slot is gone.
    pub next: Label,
    // The slots that take part in the rounds: present and not stale.
    pub parts: u64,
    // The stale ones that are present: they adopt.
    pub late: u64,
    // Late slots whose sector of generation M + 1 is to be zeros before they adopt.
    pub zeroed: u64,
    // Late slots whose sector of generation M + 1 is to hold `next` with that generation.
    pub kept: u64,
}
