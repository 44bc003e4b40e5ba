// Document 03, section 2: the checksum's two values, and the last four bytes of two labels.
use crate::report;
use disk::refusal::Refusal;
use label::fields::Label;
use std::io;

// The label of the document, of slot `slot`.
fn worked(slot: usize) -> Label {
    Label {
        k: 4,
        m: 2,
        slot,
        c: 8,
        sectors: 1090,
        shelf: 0x1122334455667788,
        generation: 1,
        out: 0,
        rebuilding: 255,
        mark: 0,
    }
}

fn outcome(o: Result<(), Refusal>) -> u64 {
    match o {
        Ok(()) => 0,
        Err(x) => u64::from(disk::refusal::number(x)),
    }
}

fn ending(rt: &impl Print, name: &str, slot: usize, expected: &[u8]) -> io::Result<()> {
    let mut sector = [0u8; 512];
    report::count(
        rt,
        name,
        outcome(label::codec::encode(worked(slot), &mut sector)),
        0,
    )?;
    report::bytes(rt, "its last four bytes", &sector[508..512], expected)
}

pub fn run(rt: &impl Print) -> io::Result<()> {
    report::heading(rt, "document 03, section 2")?;
    report::number(
        rt,
        "CRC-32C of 123456789",
        u64::from(crc32c::crc32c(b"123456789")),
        0xe3069283,
        8,
    )?;
    let zeros = [0u8; 512];
    report::number(
        rt,
        "CRC-32C of 512 zero bytes",
        u64::from(crc32c::crc32c(&zeros)),
        0x30fcedc0,
        8,
    )?;
    let first = [0x7f, 0x9b, 0x9b, 0xd8];
    let second = [0xcf, 0x6b, 0xad, 0x96];
    ending(rt, "the label of slot 0", 0, &first)?;
    ending(rt, "the label of slot 1", 1, &second)
}
