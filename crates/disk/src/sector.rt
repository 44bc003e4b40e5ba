// Sectors of the lent image: sector s of slot d is read and put, or refused where there is none. A put changes the 512
// bytes of its sector and nothing else; the laws of proofs/Image.antt say so, sector by sector and byte by byte.
ghost use Rattle.std.specs.Prelude.{◌≡◌, ◌+◌, ◌≤◌, length, replicate};
ghost use Rattle.disk.specs.Limits.{sector_bytes};
ghost use Rattle.disk.specs.Image.{place, sector, put_sector, fits_image, on_shelf, read_of, put_answer, after_put};

use crate::geometry::{Geometry, image_len};
use crate::limits::SECTOR;
use crate::refusal::Refusal;

// Whether a slice of len bytes is the image of such a shelf.
#[tactic(auto, unfolding(crate::specs::Image::fits_image))]
pub fn fits_image(g: Geometry, len: usize) -> bool
    ensures { result ≡ fits_image g len }
{
    image_len(g) == Ok(len)
}

// Whether the shelf has a slot d, and its disk a sector s.
#[tactic(auto, unfolding(crate::specs::Image::on_shelf))]
pub fn on_shelf(g: Geometry, d: usize, s: usize) -> bool
    ensures { result ≡ on_shelf g d s }
{
    d < g.n && s < g.sectors
}

// Sector s of slot d, which lies within the image.
fn get_sector(image: &[u8], sectors: usize, d: usize, s: usize) -> &[u8]
    requires { place sectors d s + sector_bytes ≤ length image.now }
    ensures { result.now ≡ sector sectors image.now d s }
{
    let at = (d * sectors + s) * SECTOR;
    &image[at..at + SECTOR]
}

// Puts a sector's bytes at sector s of slot d, which lies within the image.
fn put_sector(image: &mut [u8], sectors: usize, d: usize, s: usize, bytes: &[u8])
    requires { (place sectors d s + sector_bytes ≤ length image.old) × (length bytes.now ≡ sector_bytes) }
    ensures { image.new ≡ put_sector sectors image.old d s bytes.now }
{
    let at = (d * sectors + s) * SECTOR;
    image[at..at + SECTOR].copy_from_slice(bytes);
}

// Sector s of slot d, a part of the image; the empty part where the image is not this shelf's, or has no such sector.
#[tactic(auto, unfolding(crate::specs::Image::read_of))]
pub fn read(image: &[u8], g: Geometry, d: usize, s: usize) -> &[u8]
    ensures { result.now ≡ read_of g image.now d s }
{
    if fits_image(g, image.len()) && on_shelf(g, d, s) {
        get_sector(image, g.sectors, d, s)
    } else {
        &[]
    }
}

// Puts a sector's bytes at sector s of slot d. A refusal changes nothing.
#[tactic(auto, unfolding(crate::specs::Image::put_answer))]
pub fn put(image: &mut [u8], g: Geometry, d: usize, s: usize, bytes: &[u8]) -> Result<(), Refusal>
    ensures { (result ≡ put_answer g (length image.old) d s (length bytes.now)) × (image.new ≡ after_put result g image.old d s bytes.now) }
{
    if !fits_image(g, image.len()) {
        return Err(Refusal::BadImage);
    }
    if !on_shelf(g, d, s) {
        return Err(Refusal::BadBlock);
    }
    if bytes.len() != SECTOR {
        return Err(Refusal::BadBuffer);
    }
    put_sector(image, g.sectors, d, s, bytes);
    Ok(())
}

// Fills sector s of slot d with zeros. A refusal changes nothing.
pub fn clear(image: &mut [u8], g: Geometry, d: usize, s: usize) -> Result<(), Refusal>
    ensures { (result ≡ put_answer g (length image.old) d s sector_bytes) × (image.new ≡ after_put result g image.old d s (replicate sector_bytes 0)) }
{
    put(image, g, d, s, &[0; SECTOR])
}
