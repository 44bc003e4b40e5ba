// What the program knows of the shelf, as numbers.
ghost use Rattle.std.specs.Prelude.{◌≡◌, length};
ghost use Rattle.requests.specs.Status.{status_count, ready_number, status_fields, status_answer, after_status};

use crate::ready::has_shelf;
use disk::refusal::Refusal;
use label::fields::Label;
use stages::state::{Kind, State};

// The numbers of a status.
pub const STATUS_COUNT: usize = 11;

// 1 when create or start-up has answered, 0 before.
fn ready_number(kind: Kind) -> u64
    ensures { result ≡ ready_number kind }
{
    u64::from(!matches!(kind, Kind::Nothing | Kind::Creating | Kind::Starting))
}

// Writes the numbers of a status.
fn put_status(ready: u64, l: Label, absent: u64, fields: &mut [u64])
    requires { length fields.old ≡ status_count }
    ensures { fields.new ≡ status_fields ready l absent }
{
    fields.copy_from_slice(&[
        ready,
        l.k as u64,
        l.m as u64,
        l.c as u64,
        l.sectors as u64,
        l.shelf,
        l.generation,
        l.out,
        absent,
        l.rebuilding as u64,
        l.mark as u64,
    ]);
}

// Ready or not, then k, m, c, S, shelf number, generation, the slots that are out, the absent ones, the slot being rebuilt or
// 255, and its mark. With no shelf started NOT_NOW, and with room for more or fewer numbers BAD_BUFFER; a refusal changes nothing.
#[tactic(auto, unfolding(crate::specs::Status::status_answer))]
pub fn status(s: State, fields: &mut [u64]) -> Result<(), Refusal>
    ensures { (result ≡ status_answer s (length fields.old)) × (fields.new ≡ after_status result s fields.old) }
{
    if !has_shelf(s.now, s.kind) {
        return Err(Refusal::NotNow);
    }
    if fields.len() != STATUS_COUNT {
        return Err(Refusal::BadBuffer);
    }
    put_status(ready_number(s.kind), s.now, s.absent, fields);
    Ok(())
}
