// Checksums and labels.
ghost use Rattle.std.specs.Prelude.{◌≡◌, length};
ghost use Rattle.crc32c.specs.Crc.{crc_of};
ghost use Rattle.label.specs.Bytes.{encode_answer, after_encode};
ghost use Rattle.paritylocker_c.specs.Labels.{label_of, number_of_outcome, decode_number, after_decode, fields_of};

use disk::refusal::{Refusal, number};
use label::fields::Label;

// CRC-32C of the bytes.
#[unsafe(no_mangle)]
pub extern "C" fn pl_crc32c(bytes: &[u8]) -> u32
    ensures { result ≡ crc_of bytes.now }
{
    crc32c::crc32c(bytes)
}

// The label of these numbers.
fn label_of(
    k: u8,
    m: u8,
    slot: u8,
    c: u8,
    sectors: u32,
    shelf: u64,
    generation: u64,
    out: u32,
    rebuilding: u8,
    mark: u32,
) -> Label
    ensures { result ≡ label_of k m slot c sectors shelf generation out rebuilding mark }
{
    Label {
        k: k as usize,
        m: m as usize,
        slot: slot as usize,
        c: c as usize,
        sectors: sectors as usize,
        shelf,
        generation,
        out: out as u64,
        rebuilding: rebuilding as usize,
        mark: mark as usize,
    }
}

pub(crate) fn outcome(o: Result<(), Refusal>) -> u32
    ensures { result ≡ number_of_outcome o }
{
    match o {
        Ok(()) => 0,
        Err(why) => number(why),
    }
}

// Writes a label to a sector.
#[unsafe(no_mangle)]
pub extern "C" fn pl_label_encode(
    k: u8,
    m: u8,
    slot: u8,
    c: u8,
    sectors: u32,
    shelf: u64,
    generation: u64,
    out: u32,
    rebuilding: u8,
    mark: u32,
    sector: &mut [u8],
) -> u32
    ensures { (result ≡ number_of_outcome (encode_answer (label_of k m slot c sectors shelf generation out rebuilding mark) (length sector.old)))
        × (sector.new ≡ after_encode (encode_answer (label_of k m slot c sectors shelf generation out rebuilding mark) (length sector.old))
        (label_of k m slot c sectors shelf generation out rebuilding mark) sector.old) }
{
    let l = label_of(
        k, m, slot, c, sectors, shelf, generation, out, rebuilding, mark,
    );
    outcome(label::codec::encode(l, sector))
}

// Writes the numbers of a label.
fn put_fields(l: Label, fields: &mut [u64])
    requires { length fields.old ≡ 9 }
    ensures { fields.new ≡ fields_of l }
{
    fields[0] = l.k as u64;
    fields[1] = l.m as u64;
    fields[2] = l.c as u64;
    fields[3] = l.sectors as u64;
    fields[4] = l.shelf;
    fields[5] = l.generation;
    fields[6] = l.out;
    fields[7] = l.rebuilding as u64;
    fields[8] = l.mark as u64;
}

// Reads a label from a sector.
#[unsafe(no_mangle)]
pub extern "C" fn pl_label_decode(slot: u8, place: u8, sector: &[u8], fields: &mut [u64]) -> u32
    ensures { (result ≡ decode_number slot place sector.now (length fields.old))
        × (fields.new ≡ after_decode slot place sector.now fields.old) }
{
    if sector.len() != 512 {
        return number(Refusal::BadImage);
    }
    if fields.len() != 9 {
        return number(Refusal::BadImage);
    }
    match label::codec::decode(sector, slot as usize, place as u64) {
        None => number(Refusal::NoLabel),
        Some(l) => {
            put_fields(l, fields);
            0
        }
    }
}
