// The field of 256 elements: bytes, with exclusive or as the sum and products modulo 0x11d. Single bytes first, then whole
// slices byte by byte. Every function takes any argument; what can't be done is refused and changes nothing.
#![tactic(auto)]

ghost use Rattle.std.specs.Prelude.{◌≡◌, length};
ghost use Rattle.std.specs.Int.Bits.{bit_xor};
ghost use Rattle.field.specs.Field.{pick, mul_of, g, power_of, inverse_of};
ghost use Rattle.field.specs.Refusal.{number_of};
ghost use Rattle.field.specs.Quotient.{quotient_of};
ghost use Rattle.field.specs.Each.{Changed, Combined};

// x^8 modulo the field's polynomial.
const REDUCTION: u8 = 0x1d;

// Why a request of the parity layer is refused. Each refusal has its fixed code.
#[derive(Clone, Copy, PartialEq, Eq, Debug)]
pub enum Refusal {
    BadShape = 1,
    TooMany = 2,
    BadShard = 3,
    Zero = 4,
}

// A refusal's fixed code.
pub fn number(x: Refusal) -> u32
    ensures { result ≡ number_of x }
{
    x as u32
}

// Twice a byte.
pub fn double(a: u8) -> u8
    ensures { result ≡ mul_of g a }
{
    (a % 128 * 2) ^ (a / 128 * REDUCTION)
}

// `a` where the bit is 1, and 0 where it is 0.
fn select(bit: u8, a: u8) -> u8
    ensures { result ≡ pick bit a }
{
    if bit == 0 { 0 } else { a }
}

// The product.
pub fn mul(a: u8, b: u8) -> u8
    ensures { result ≡ mul_of a b }
{
    let mut sum: u8 = 0;
    let mut x = a;
    let mut y = b;
    for _ in 0..u8::BITS {
        sum ^= select(y % 2, x);
        x = double(x);
        y /= 2;
    }
    sum
}

// The power 254: the inverse of a byte that is not 0.
fn inverse(a: u8) -> u8
    ensures { result ≡ inverse_of a }
{
    let a2 = mul(a, a);
    let a3 = mul(a2, a);
    let a6 = mul(a3, a3);
    let a12 = mul(a6, a6);
    let a15 = mul(a12, a3);
    let a30 = mul(a15, a15);
    let a60 = mul(a30, a30);
    let a120 = mul(a60, a60);
    let a240 = mul(a120, a120);
    mul(mul(a240, a12), a2)
}

// The quotient. A division by 0 is refused.
pub fn div(a: u8, b: u8) -> Result<u8, Refusal>
    ensures { result ≡ quotient_of a b }
{
    if b == 0 {
        return Err(Refusal::Zero);
    }
    Ok(mul(a, inverse(b)))
}

// g to the power n, in at most 254 doublings, since exponents count modulo 255.
pub fn power_of_g(n: usize) -> u8
    ensures { result ≡ power_of n }
{
    let mut x: u8 = 1;
    for _ in 0..n % 255 {
        x = double(x);
    }
    x
}

// Makes each byte of `dst` what `f` makes of it and of the byte of `src` at its place.
fn change_each<F: Fn(u8, u8) -> u8>(dst: &mut [u8], src: &[u8], f: F)
    requires same { length dst.old ≡ length src.now }
    requires callable { F.IsAlwaysCallable f }
    ensures { Changed (λ d s r. F.post f d s r) dst.old src.now dst.new }
{
    for i in 0..dst.len() {
        dst[i] = f(dst[i], src[i]);
    }
}

// Adds each byte of `src` to the byte of `dst` at its place.
pub fn add(dst: &mut [u8], src: &[u8]) -> Result<(), Refusal>
    ensures { Combined (λ d s. bit_xor d s) result dst.old src.now dst.new }
{
    if dst.len() != src.len() {
        return Err(Refusal::BadShape);
    }
    change_each(dst, src, |d, s| d ^ s);
    Ok(())
}

// Adds `c` times each byte of `src` to the byte of `dst` at its place.
pub fn mul_add(dst: &mut [u8], src: &[u8], c: u8) -> Result<(), Refusal>
    ensures { Combined (λ d s. bit_xor d (mul_of c s)) result dst.old src.now dst.new }
{
    if src.len() != dst.len() {
        return Err(Refusal::BadShape);
    }
    change_each(dst, src, |d, s| d ^ mul(c, s));
    Ok(())
}

// Doubles each byte of `sum` and adds the byte of `next` at its place: a step of Horner's rule.
pub fn double_add(sum: &mut [u8], next: &[u8]) -> Result<(), Refusal>
    ensures { Combined (λ s n. bit_xor (mul_of g s) n) result sum.old next.now sum.new }
{
    if sum.len() != next.len() {
        return Err(Refusal::BadShape);
    }
    change_each(sum, next, |s, n| double(s) ^ n);
    Ok(())
}
