// Document 01, section 1: products, a quotient, powers, the order of g.
use crate::report;
use std::io;

fn byte(rt: &impl Print, name: &str, computed: u8, expected: u8) -> io::Result<()> {
    report::number(rt, name, u64::from(computed), u64::from(expected), 2)
}

// The quotient, or 256 and the refusal's code.
fn quotient(a: u8, b: u8) -> u64 {
    match field::div(a, b) {
        Ok(q) => u64::from(q),
        Err(x) => 256 + u64::from(field::number(x)),
    }
}

// How many doublings lead from 1 to 1 again, 256 at the most.
fn order_of_g() -> u64 {
    let mut x = field::double(1);
    for n in 1..256 {
        if x == 1 {
            return n;
        }
        x = field::double(x);
    }
    256
}

pub fn run(rt: &impl Print) -> io::Result<()> {
    report::heading(rt, "document 01, section 1")?;
    byte(rt, "0x80 * 2", field::mul(0x80, 2), 0x1d)?;
    byte(rt, "0x80 doubled", field::double(0x80), 0x1d)?;
    byte(rt, "0x53 * 0xca", field::mul(0x53, 0xca), 0x8f)?;
    byte(rt, "0xff * 0xff", field::mul(0xff, 0xff), 0xe2)?;
    report::number(rt, "1 / 2", quotient(1, 2), 0x8e, 2)?;
    report::number(rt, "1 / 0, refused with 256 + 4", quotient(1, 0), 260, 2)?;
    byte(rt, "g^8", field::power_of_g(8), 0x1d)?;
    byte(rt, "g^25", field::power_of_g(25), 0x03)?;
    byte(rt, "g^254", field::power_of_g(254), 0x8e)?;
    report::count(rt, "the order of g", order_of_g(), 255)
}
