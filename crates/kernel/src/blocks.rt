// A row's sum for a block of positions at once, by a list of steps: a step below n adds that shard, any other doubles the sum. So the
// coefficients' bits are taken from the highest down, and no product is computed.
ghost use Rattle.std.specs.Prelude.{◌≡◌, ◌+◌, ◌*◌, ◌≤◌, ◌<◌, length, get_or, unwrap_or};
ghost use Rattle.std.specs.Int.Bits.{bit_xor};
ghost use Rattle.field.specs.Field.{mul_of, g, pick};
ghost use Rattle.codeword.specs.Stripe.{byte_at};
ghost use Rattle.kernel.specs.Kernel.{n_most, Shards, Combined, row_at, RowZero};
ghost use Rattle.kernel.specs.Steps.{columns, step_of, made_by, Are, Pushed, chosen, Plan, start_of, Zeros, BlockZero, room};

use crate::bytes::weight_of;
use crate::weighed::Weighed;

// The positions of a block.
pub(crate) const COLUMNS: usize = 64;

// Room for a double and every shard for each of 8 bits.
const ROOM: usize = 520;

// The step that doubles.
const DOUBLE: u8 = 255;

// A list of steps.
#[derive(Drop)]
struct Steps {
    list: [u8; ROOM],
    len: usize,
    ghost within: { len ≤ room },
}

impl Steps {
    fn none() -> Steps
        ensures { result.len ≡ 0 }
    {
        Steps {
            list: [0; ROOM],
            len: 0,
        }
    }

    // Puts a step behind the others that doubles what they make. With no steps there is nothing to double.
    fn push_double(&mut self)
        requires { self.old.len < room }
        ensures { (n : _) → n ≤ n_most → Pushed n self.old.len self.new.len 1 self.old.list self.new.list (λ x y. mul_of g y) }
    {
        if self.len != 0 {
            self.list[self.len] = DOUBLE;
            self.len += 1;
        }
    }

    // Puts steps behind the others that add the shards whose coefficient has the bit.
    fn push_shards(&mut self, row: &[u8], left_out: Option<usize>, bit: u8)
        requires { (self.old.len + length row.now ≤ room) × (length row.now ≤ n_most) × (0 < bit) }
        ensures { Pushed (length row.now) self.old.len self.new.len (length row.now) self.old.list self.new.list
            (λ x y. bit_xor y (chosen (length row.now) row.now 0 (unwrap_or left_out (length row.now)) bit x)) }
    {
        // The count stands in a variable, since a plan that reads it from the struct at each step is slower by a fifth.
        let mut len = self.len;
        for r in 0..row.len() {
            if weight_of(row, left_out, r) / bit % 2 != 0 {
                self.list[len] = r as u8;
                len += 1;
            }
        }
        self.len = len;
    }

    // Puts the steps into an empty list that make the sum of the shards but the one that is left out, each times its coefficient.
    fn plan(&mut self, row: &[u8], left_out: Option<usize>)
        requires { (self.old.len ≡ 0) × (length row.now ≤ n_most) }
        ensures { Plan (length row.now) row.now 0 (unwrap_or left_out (length row.now)) self.new.list self.new.len }
    {
        for bit in [128, 64, 32, 16, 8, 4, 2, 1] {
            self.push_double();
            self.push_shards(row, left_out, bit);
        }
    }
}

// Adds the bytes of a part to a block.
fn add_part(y: &mut [u8; COLUMNS], part: &[u8])
    requires { length part.now ≡ columns }
    ensures { Are y.new (λ j. bit_xor (get_or y.old j 0) (get_or part.now j 0)) }
{
    for j in 0..COLUMNS {
        y[j] ^= part[j];
    }
}

// Doubles each byte of a block.
fn double_part(y: &mut [u8; COLUMNS])
    ensures { Are y.new (λ j. mul_of g (get_or y.old j 0)) }
{
    for b in y.iter_mut() {
        *b = field::double(*b);
    }
}

// Takes one step on a block.
fn take_step(y: &mut [u8; COLUMNS], shards: &Weighed, s: usize, p: usize)
    requires { p + columns ≤ shards.now.len }
    ensures { Are y.new (λ j. step_of (length shards.now.row.now) (byte_at shards.now.len shards.now.stripe.now (p + j)) (get_or y.old j 0) s) }
{
    if s < shards.row.len() {
        let at = shards.place(s, p);
        add_part(y, &shards.stripe[at..at + COLUMNS]);
    } else {
        double_part(y);
    }
}

// What the steps make of the shards' bytes at p and the next positions.
fn block(shards: &Weighed, steps: &Steps, p: usize) -> [u8; COLUMNS]
    requires { p + columns ≤ shards.now.len }
    ensures { Are result
        (λ j. made_by (length shards.now.row.now) steps.now.list (byte_at shards.now.len shards.now.stripe.now (p + j)) steps.now.len) }
{
    let mut y = [0; COLUMNS];
    for s in &steps.list[..steps.len] {
        take_step(&mut y, shards, usize::from(*s), p);
    }
    y
}

// Where block i starts: behind the others, but it ends within len.
fn block_start(i: usize, len: usize) -> usize
    requires { (i * columns < len) × (columns ≤ len) }
    ensures { result ≡ start_of i len }
{
    (i * COLUMNS).min(len - COLUMNS)
}

// What `combine` does, block by block.
pub(crate) fn combine_blocks(buf: &mut [u8], len: usize, a: usize, row: &[u8])
    requires { Shards (length row.now) len (length buf.old) × (a < length row.now) × (columns ≤ len) }
    ensures { Combined (length row.now) len a row.now 0 buf.old buf.new }
{
    let mut steps = Steps::none();
    steps.plan(row, Some(a));
    for i in 0..len.div_ceil(COLUMNS) {
        let p = block_start(i, len);
        let shards = Weighed {
            row,
            stripe: buf,
            len,
        };
        let y = block(&shards, &steps, p);
        let at = a * len + p;
        buf[at..at + COLUMNS].copy_from_slice(&y);
    }
}

// Whether a block's bytes are all 0.
fn all_zero(y: [u8; COLUMNS]) -> bool
    ensures { Zeros result columns y }
{
    y.iter().fold(0, |bits, b| bits | *b) == 0
}

// Whether the sums are 0 at the positions of block i.
fn block_zero(shards: &Weighed, steps: &Steps, i: usize) -> bool
    requires { (i * columns < shards.now.len) × (columns ≤ shards.now.len)
        × Plan (length shards.now.row.now) shards.now.row.now 0 (length shards.now.row.now) steps.now.list steps.now.len }
    ensures { BlockZero result (start_of i shards.now.len)
        (row_at (length shards.now.row.now) shards.now.len shards.now.stripe.now shards.now.row.now 0) }
{
    all_zero(block(shards, steps, block_start(i, shards.len)))
}

// What `row_zero` says, block by block.
pub(crate) fn row_zero_blocks(shards: &Weighed) -> bool
    requires { columns ≤ shards.now.len }
    ensures { RowZero result (length shards.now.row.now) shards.now.len shards.now.stripe.now shards.now.row.now 0 }
{
    let mut steps = Steps::none();
    steps.plan(shards.row, None);
    (0..shards.len.div_ceil(COLUMNS)).all(|i| block_zero(shards, &steps, i))
}
