// A line for a value: its name, what was computed, what the document says, and whether they are the same.
use std::io;

pub fn heading(rt: &impl Print, name: &str) -> io::Result<()> {
    println!(rt; "{name}")
}

fn verdict(rt: &impl Print, same: bool) -> io::Result<()> {
    if same {
        println!(rt; "  right")
    } else {
        println!(rt; "  WRONG")
    }
}

// A number in hexadecimal, with at least `width` digits.
pub fn number(
    rt: &impl Print,
    name: &str,
    computed: u64,
    expected: u64,
    width: usize,
) -> io::Result<()> {
    print!(rt; "  {name} = 0x{computed:0width$x}, expected 0x{expected:0width$x}")?;
    verdict(rt, computed == expected)
}

// A number in decimal.
pub fn count(rt: &impl Print, name: &str, computed: u64, expected: u64) -> io::Result<()> {
    print!(rt; "  {name} = {computed}, expected {expected}")?;
    verdict(rt, computed == expected)
}

fn hex_all(rt: &impl Print, bytes: &[u8]) -> io::Result<()> {
    for b in bytes {
        print!(rt; " {b:02x}")?;
    }
    Ok(())
}

// Bytes in hexadecimal.
pub fn bytes(rt: &impl Print, name: &str, computed: &[u8], expected: &[u8]) -> io::Result<()> {
    print!(rt; "  {name} =")?;
    hex_all(rt, computed)?;
    print!(rt; ", expected")?;
    hex_all(rt, expected)?;
    verdict(rt, computed == expected)
}
