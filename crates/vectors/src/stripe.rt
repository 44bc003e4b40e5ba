// Document 01, sections 2 to 5: the worked stripe, its slips, lost shards, and what a scrub says.
use crate::report;
use code::Verdict;
use std::io;

// "SONAR" and three blanks, "line 417", zeros, and bytes from 0xf8 on; then room for three parity shards.
fn worked() -> [u8; 56] {
    [
        0x53, 0x4f, 0x4e, 0x41, 0x52, 0x20, 0x20, 0x20, //
        0x6c, 0x69, 0x6e, 0x65, 0x20, 0x34, 0x31, 0x37, //
        0x00, 0x00, 0x00, 0x00, 0x00, 0x00, 0x00, 0x00, //
        0xf8, 0xf9, 0xfa, 0xfb, 0xfc, 0xfd, 0xfe, 0xff, //
        0x00, 0x00, 0x00, 0x00, 0x00, 0x00, 0x00, 0x00, //
        0x00, 0x00, 0x00, 0x00, 0x00, 0x00, 0x00, 0x00, //
        0x00, 0x00, 0x00, 0x00, 0x00, 0x00, 0x00, 0x00,
    ]
}

const P0: [u8; 8] = [0xc7, 0xdf, 0xda, 0xdf, 0x8e, 0xe9, 0xef, 0xe8];

const P1: [u8; 8] = [0x18, 0x06, 0x11, 0x00, 0xa1, 0xf3, 0xe1, 0xe5];

const P2: [u8; 8] = [0x12, 0x5a, 0x87, 0xe4, 0x23, 0x41, 0x95, 0xcd];

fn answer(a: Result<(), field::Refusal>) -> u64 {
    match a {
        Ok(()) => 0,
        Err(x) => u64::from(field::number(x)),
    }
}

// 256 sound; 512 + r accused; 768 not sound or more than one; or the refusal's code.
fn said(v: Result<Verdict, field::Refusal>) -> u64 {
    match v {
        Ok(Verdict::Sound) => 256,
        Ok(Verdict::Accused(r)) => 512 + (r as u64) % 256,
        Ok(Verdict::Unsound) => 768,
        Err(x) => u64::from(field::number(x)),
    }
}

fn parities(rt: &impl Print, stripe: [u8; 56]) -> io::Result<()> {
    let p0 = P0;
    let p1 = P1;
    let p2 = P2;
    report::bytes(rt, "p0", &stripe[32..40], &p0)?;
    report::bytes(rt, "p1", &stripe[40..48], &p1)?;
    report::bytes(rt, "p2", &stripe[48..56], &p2)
}

fn encoded(rt: &impl Print) -> io::Result<()> {
    let mut stripe = worked();
    report::count(
        rt,
        "encode 4 + 3",
        answer(code::encode(4, 3, 8, &mut stripe)),
        0,
    )?;
    parities(rt, stripe)?;
    report::count(rt, "scrub, sound", said(code::scrub(4, 3, 8, &stripe)), 256)?;
    let mut small = [0x01, 0x02, 0x04, 0x08, 0, 0, 0];
    report::count(
        rt,
        "encode 01 02 04 08",
        answer(code::encode(4, 3, 1, &mut small)),
        0,
    )?;
    let expected = [0x0f, 0x55, 0x73];
    report::bytes(rt, "its parity", &small[4..7], &expected)
}

// Twice a byte in the field of ciphers, modulo 0x11b.
fn cipher_double(a: u8) -> u8 {
    (a % 128 * 2) ^ (a / 128 * 0x1b)
}

// p1 by Horner's rule in that field.
fn cipher_p1(data: [u8; 56]) -> [u8; 8] {
    let mut p = [0u8; 8];
    for i in 0..8 {
        let a = cipher_double(data[24 + i]) ^ data[16 + i];
        let b = cipher_double(a) ^ data[8 + i];
        p[i] = cipher_double(b) ^ data[i];
    }
    p
}

// p1 with the weights w0, w1, w2 and w3.
fn weighed(data: [u8; 56], w0: u8, w1: u8, w2: u8, w3: u8) -> [u8; 8] {
    let mut p = [0u8; 8];
    let _ = field::mul_add(&mut p, &data[0..8], w0);
    let _ = field::mul_add(&mut p, &data[8..16], w1);
    let _ = field::mul_add(&mut p, &data[16..24], w2);
    let _ = field::mul_add(&mut p, &data[24..32], w3);
    p
}

// Wrong versions of p1, computed by the slips, against the document's.
fn slips(rt: &impl Print) -> io::Result<()> {
    let data = worked();
    let ciphers = cipher_p1(data);
    let later = weighed(data, 2, 4, 8, 16);
    let backwards = weighed(data, 8, 4, 2, 1);
    let other_field = [0x0a, 0x14, 0x03, 0x12, 0xb3, 0xe1, 0xf3, 0xf7];
    let from_one = [0x30, 0x0c, 0x22, 0x00, 0x5f, 0xfb, 0xdf, 0xd7];
    let from_last = [0xf7, 0x02, 0x15, 0x40, 0xd6, 0x30, 0x27, 0x3e];
    report::bytes(
        rt,
        "the slip of the field modulo 0x11b",
        &ciphers,
        &other_field,
    )?;
    report::bytes(rt, "the slip of weights from g^1", &later, &from_one)?;
    report::bytes(rt, "the slip of weights backwards", &backwards, &from_last)
}

// The stripe with other bytes in shards 0, 3 and 5.
fn spoiled(whole: [u8; 56]) -> [u8; 56] {
    let mut stripe = whole;
    for i in 0..8 {
        stripe[i] = 0xee;
        stripe[24 + i] = 0x11;
        stripe[40 + i] = 0;
    }
    stripe
}

// Three lost shards, data and parity mixed, whatever stands in their place.
fn rebuilt(rt: &impl Print) -> io::Result<()> {
    let mut whole = worked();
    let _ = code::encode(4, 3, 8, &mut whole);
    let mut stripe = spoiled(whole);
    let missing = [3, 0, 5];
    report::count(
        rt,
        "rebuild 3, 0 and 5",
        answer(code::rebuild(4, 3, 8, &missing, &mut stripe)),
        0,
    )?;
    report::bytes(rt, "d0", &stripe[0..8], &whole[0..8])?;
    report::bytes(rt, "d3", &stripe[24..32], &whole[24..32])?;
    parities(rt, stripe)
}

// Each refusal of rebuild and encode.
fn refused(rt: &impl Print) -> io::Result<()> {
    let mut stripe = worked();
    let four = [0, 1, 2, 3];
    report::count(
        rt,
        "four missing, too many",
        answer(code::rebuild(4, 3, 8, &four, &mut stripe)),
        2,
    )?;
    let twice = [1, 1];
    report::count(
        rt,
        "named twice, bad shard",
        answer(code::rebuild(4, 3, 8, &twice, &mut stripe)),
        3,
    )?;
    report::count(
        rt,
        "a length of 7, bad shape",
        answer(code::encode(4, 3, 7, &mut stripe)),
        1,
    )
}

// Two wrong shards: with m = 2 they accuse an innocent third, with m = 3 nobody.
fn liars(rt: &impl Print) -> io::Result<()> {
    let mut two = [0x01, 0x7b, 0, 0, 0, 0];
    report::count(
        rt,
        "4 + 2, wrong in 0 and 1: accused 3",
        said(code::scrub(4, 2, 1, &two)),
        515,
    )?;
    let _ = code::repair(4, 2, 1, &mut two);
    report::count(
        rt,
        "repaired, and sound",
        said(code::scrub(4, 2, 1, &two)),
        256,
    )?;
    let three = [0x01, 0x7b, 0, 0, 0, 0, 0];
    report::count(
        rt,
        "4 + 3, the same: more than one",
        said(code::scrub(4, 3, 1, &three)),
        768,
    )?;
    let one = [0x01, 0, 0, 0, 0];
    report::count(
        rt,
        "4 + 1, not sound",
        said(code::scrub(4, 1, 1, &one)),
        768,
    )
}

pub fn run(rt: &impl Print) -> io::Result<()> {
    report::heading(rt, "document 01, sections 2 to 5")?;
    encoded(rt)?;
    slips(rt)?;
    rebuilt(rt)?;
    refused(rt)?;
    liars(rt)
}
