// A label's 512 bytes, written and read.
ghost use Rattle.std.specs.Prelude.{◌≡◌, length};
ghost use Rattle.disk.specs.Limits.{sector_bytes};
ghost use Rattle.label.specs.Bytes.{all_zero, unsealed, encode_answer, after_encode};
ghost use Rattle.label.specs.Valid.{label_at, zeros_of, decode_of};

use crate::fields::{Label, fits};
use disk::limits::SECTOR;
use disk::number::{byte_at, put_u16, put_u32, put_u64, u16_at, u32_at, u64_at};
use disk::refusal::Refusal;

// The letters SHELFRS1, lowest byte first.
const LETTERS: u64 = 0x315352464c454853;

const VERSION: u64 = 1;

// The checksum's place, behind all that it is of.
const CHECKSUM: usize = 508;

// Whether all bytes are 0.
pub fn is_zero(bytes: &[u8]) -> bool
    ensures { result ≡ all_zero bytes.now }
{
    bytes.iter().all(|b| *b == 0)
}

// The label's bytes, with zeros for the checksum.
fn unsealed_of(l: Label) -> [u8; SECTOR]
    ensures { result ≡ unsealed l }
{
    let mut b = [0; SECTOR];
    put_u64(&mut b, 0, LETTERS);
    put_u16(&mut b, 8, VERSION);
    b[10] = (l.k % 256) as u8;
    b[11] = (l.m % 256) as u8;
    b[12] = (l.slot % 256) as u8;
    b[13] = (l.c % 256) as u8;
    put_u32(&mut b, 16, l.sectors as u64);
    put_u64(&mut b, 20, l.shelf);
    put_u64(&mut b, 28, l.generation);
    put_u32(&mut b, 36, l.out);
    b[40] = (l.rebuilding % 256) as u8;
    put_u32(&mut b, 44, l.mark as u64);
    b
}

// Writes the label to a sector, or refuses and changes nothing.
#[tactic(auto, unfolding(crate::specs::Bytes::encode_answer))]
pub fn encode(l: Label, sector: &mut [u8]) -> Result<(), Refusal>
    ensures { (result ≡ encode_answer l (length sector.old)) × (sector.new ≡ after_encode result l sector.old) }
{
    if sector.len() != SECTOR || !fits(l) {
        return Err(Refusal::BadImage);
    }
    let mut b = unsealed_of(l);
    let checksum = crc32c::crc32c(&b[..CHECKSUM]);
    put_u32(&mut b, CHECKSUM, u64::from(checksum));
    sector.copy_from_slice(&b);
    Ok(())
}

// The fields at their offsets.
fn label_at(b: &[u8]) -> Label
    ensures { result ≡ label_at b.now }
{
    Label {
        k: byte_at(b, 10) as usize,
        m: byte_at(b, 11) as usize,
        slot: byte_at(b, 12) as usize,
        c: byte_at(b, 13) as usize,
        sectors: u32_at(b, 16) as usize,
        shelf: u64_at(b, 20),
        generation: u64_at(b, 28),
        out: u32_at(b, 36),
        rebuilding: byte_at(b, 40) as usize,
        mark: u32_at(b, 44) as usize,
    }
}

// Whether the bytes that a label leaves at 0 are 0.
#[tactic(auto, unfolding(crate::specs::Valid::zeros_of))]
fn zeros(sector: &[u8]) -> bool
    requires { length sector.now ≡ sector_bytes }
    ensures { result ≡ zeros_of sector.now }
{
    is_zero(&sector[14..16]) && is_zero(&sector[41..44]) && is_zero(&sector[48..CHECKSUM])
}

// The label that a sector's bytes are, if they are a valid one of slot `slot` in sector `place`.
#[tactic(auto, unfolding(crate::specs::Valid::valid_of, crate::specs::Valid::decode_of))]
pub fn decode(sector: &[u8], slot: usize, place: u64) -> Option<Label>
    ensures { result ≡ decode_of sector.now slot place }
{
    if sector.len() != SECTOR {
        return None;
    }
    if u64_at(sector, 0) != LETTERS || u16_at(sector, 8) != VERSION || !zeros(sector) {
        return None;
    }
    let l = label_at(sector);
    let valid = fits(l)
        && l.slot == slot
        && u32_at(sector, CHECKSUM) == u64::from(crc32c::crc32c(&sector[..CHECKSUM]))
        && l.generation % 2 == place;
    valid.then_some(l)
}
