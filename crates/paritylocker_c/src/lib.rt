// The C interface: numbers and byte slices. Each function takes any argument; include/paritylocker.h says what each answers.
#![tactic(auto)]

mod ended;
mod host;
mod labels;
mod rebuilding;
mod shelves;

ghost use Rattle.std.specs.Prelude.{◌≡◌};
ghost use Rattle.field.specs.Field.{mul_of};
ghost use Rattle.code.specs.Stripes.{Encoded, Rebuilt, Says, Repaired};
ghost use Rattle.paritylocker_c.specs.Answers.{div_answer, number_of_answer, number_of_verdict, number_of_said, Answered, Judged, Small, SmallSaid};

use code::Verdict;

// The product in the field, 0 to 255.
#[unsafe(no_mangle)]
pub extern "C" fn pl_mul(a: u8, b: u8) -> u32
    ensures { result ≡ mul_of a b }
{
    field::mul(a, b) as u32
}

// The quotient in the field, 0 to 255, or 256 and the refusal's code.
#[unsafe(no_mangle)]
pub extern "C" fn pl_div(a: u8, b: u8) -> u32
    ensures { result ≡ div_answer a b }
{
    match field::div(a, b) {
        Ok(q) => q as u32,
        Err(x) => 256 + field::number(x),
    }
}

// An answer's number.
fn number(answer: Result<(), field::Refusal>) -> u32
    ensures { result ≡ number_of_answer answer }
{
    match answer {
        Ok(()) => 0,
        Err(x) => field::number(x),
    }
}

// A verdict's number.
pub(crate) fn verdict(v: Verdict) -> u32
    requires { Small v }
    ensures { result ≡ number_of_verdict v }
{
    match v {
        Verdict::Sound => 256,
        Verdict::Accused(r) => 512 + (r as u32),
        Verdict::Unsound => 768,
    }
}

// The number of what a scrub or a repair said.
fn said(answer: Result<Verdict, field::Refusal>) -> u32
    requires { SmallSaid answer }
    ensures { result ≡ number_of_said answer }
{
    match answer {
        Ok(v) => verdict(v),
        Err(x) => field::number(x),
    }
}

// Computes the parity shards of the data shards.
#[unsafe(no_mangle)]
pub extern "C" fn pl_encode(k: usize, m: usize, len: usize, stripe: &mut [u8]) -> u32
    ensures { Answered (λ a. Encoded k m len a stripe.old stripe.new) result }
{
    number(code::encode(k, m, len, stripe))
}

// Fills in the shards that are missing.
#[unsafe(no_mangle)]
pub extern "C" fn pl_rebuild(
    k: usize,
    m: usize,
    len: usize,
    missing: &[u8],
    stripe: &mut [u8],
) -> u32
    ensures { Answered (λ a. Rebuilt k m len missing.now a stripe.old stripe.new) result }
{
    number(code::rebuild(k, m, len, missing, stripe))
}

// Says whether the stripe is sound, and if not, which shard alone can be to blame.
#[unsafe(no_mangle)]
pub extern "C" fn pl_scrub(k: usize, m: usize, len: usize, stripe: &[u8]) -> u32
    ensures { Judged (λ v. Says k m len stripe.now v) result }
{
    said(code::scrub(k, m, len, stripe))
}

// Scrubs, and mends an accused shard.
#[unsafe(no_mangle)]
pub extern "C" fn pl_repair(k: usize, m: usize, len: usize, stripe: &mut [u8]) -> u32
    ensures { Judged (λ v. Repaired k m len v stripe.old stripe.new) result }
{
    said(code::repair(k, m, len, stripe))
}
