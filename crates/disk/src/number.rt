// Numbers in bytes, lowest byte first, at any place of any slice: a byte past the end reads as 0, and nothing is written
// there. There is a function for each width, as `from_le_bytes` is a method of each integer type by itself, and no bound on a
// const parameter says which widths a u64 has room for.
ghost use Rattle.std.specs.Prelude.{◌≡◌, ℕ, ◌+◌, ◌<◌, ◌^◌, get_or, set};
ghost use Rattle.disk.specs.Number.{number_at, with_number, with_bytes};

// The byte at `at`.
pub fn byte_at(b: &[u8], at: usize) -> u64
    ensures { (result ≡ get_or b.now at 0) × (result < 256) }
{
    b.get(at).map_or(0, |byte| u64::from(*byte))
}

// Writes the byte at `at`.
pub fn put_byte(b: &mut [u8], at: usize, x: u8)
    ensures { b.new ≡ set b.old at x }
{
    if at < b.len() {
        b[at] = x;
    }
}

// The W bytes at `at`.
fn bytes_at<const W: usize>(b: &[u8], at: usize) -> [u8; W]
    ensures { (i : ℕ) → i < W → get_or result i 0 ≡ get_or b.now (at + i) 0 }
{
    let mut bytes = [0; W];
    if b.len() <= at {
        return bytes;
    }
    let count = W.min(b.len() - at);
    bytes[..count].copy_from_slice(&b[at..at + count]);
    bytes
}

// Writes the bytes at `at`.
fn put_bytes(b: &mut [u8], at: usize, bytes: &[u8])
    ensures { b.new ≡ with_bytes b.old at bytes.now }
{
    if b.len() <= at {
        return;
    }
    let count = bytes.len().min(b.len() - at);
    b[at..at + count].copy_from_slice(&bytes[..count]);
}

pub fn u16_at(b: &[u8], at: usize) -> u64
    ensures { (result ≡ number_at 2 b.now at) × (result < 2 ^ 16) }
{
    u64::from(u16::from_le_bytes(bytes_at(b, at)))
}

pub fn u32_at(b: &[u8], at: usize) -> u64
    ensures { (result ≡ number_at 4 b.now at) × (result < 2 ^ 32) }
{
    u64::from(u32::from_le_bytes(bytes_at(b, at)))
}

pub fn u64_at(b: &[u8], at: usize) -> u64
    ensures { result ≡ number_at 8 b.now at }
{
    u64::from_le_bytes(bytes_at(b, at))
}

pub fn put_u16(b: &mut [u8], at: usize, x: u64)
    ensures { b.new ≡ with_number 2 b.old at x }
{
    put_bytes(b, at, &x.to_le_bytes()[..2]);
}

pub fn put_u32(b: &mut [u8], at: usize, x: u64)
    ensures { b.new ≡ with_number 4 b.old at x }
{
    put_bytes(b, at, &x.to_le_bytes()[..4]);
}

pub fn put_u64(b: &mut [u8], at: usize, x: u64)
    ensures { b.new ≡ with_number 8 b.old at x }
{
    put_bytes(b, at, &x.to_le_bytes());
}
