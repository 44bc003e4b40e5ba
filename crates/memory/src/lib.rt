// The shelf's state as lent bytes, for a caller who keeps it from one call to the next: 8 bytes for each number of the
// state, lowest byte first. Any content is taken: whatever the bytes are, they are a state.
#![tactic(auto)]

ghost use Rattle.std.specs.Prelude.{◌≡◌, length, Ok};
ghost use Rattle.memory.specs.Bytes.{state_length, state_at, write_answer, after_write};

use crate::numbers::{NEXT, NOW, REST, label_numbers, rest_numbers, state_of};
use crate::words::{NUMBERS, WORD, numbers_at, put_numbers};
use disk::refusal::Refusal;
use stages::state::State;

mod numbers;
mod words;

const STATE_BYTES: usize = NUMBERS * WORD;

// How many bytes a state has.
pub fn state_bytes() -> usize
    ensures { result ≡ state_length }
{
    STATE_BYTES
}

// The state that the bytes are. A byte past the end reads as 0.
pub fn read(bytes: &[u8]) -> State
    ensures { result ≡ state_at bytes.now }
{
    state_of(numbers_at(bytes))
}

// Writes the state: the slice then reads as it. A slice of another length is refused and not changed.
pub fn write(s: State, bytes: &mut [u8]) -> Result<(), Refusal>
    ensures { (result ≡ write_answer (length bytes.old)) × (bytes.new ≡ after_write result s bytes.old) × (result ≡ (Ok tt) → state_at bytes.new ≡ s) }
{
    if bytes.len() != STATE_BYTES {
        return Err(Refusal::BadBuffer);
    }
    put_numbers(bytes, NOW, &label_numbers(s.now));
    put_numbers(bytes, NEXT, &label_numbers(s.next));
    put_numbers(bytes, REST, &rest_numbers(s));
    Ok(())
}
