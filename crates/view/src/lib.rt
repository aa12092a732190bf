// The block view: what a reader sees of one block, the block itself or a page of zeros that the caller lends.
#![tactic(auto)]

ghost use Rattle.std.specs.Prelude.{◌≡◌, ◌<◌};
ghost use Rattle.view.specs.Shown.{all_zero, is_zeros, can_show, read_locked, Sees, Shows, ShowsPiece};

use part::Part;
use record::Device;
use soundness::Soundness;

// Which lent slice is shown (0 the page's empty front, 1 the image, 2 the page), from where, and how much of it,
// as C gets it.
#[repr(C)]
#[derive(Clone, Copy)]
pub struct Piece {
    pub from: u32,
    pub start: u32,
    pub length: u32,
}

fn all_zero(bytes: &[u8]) -> bool
    ensures { result ≡ all_zero bytes.now }
{
    bytes.iter().all(|&b| b == 0)
}

#[tactic(auto, using(basics::proofs::Rules::cases), unfolding(crate::specs::Shown::is_zeros, basics::specs::All::all))]
fn is_zeros(page: &[u8]) -> bool
    ensures { result ≡ is_zeros page.now }
{
    page.len() == Part::BLOCK_BYTES as usize && all_zero(page)
}

// Device, image, page and block come one by one, as C hands them in.
#[tactic(auto, using(basics::proofs::Rules::cases), unfolding(crate::specs::Shown::can_show, basics::specs::All::all))]
fn can_show(device: Device, image: &[u8], page: &[u8], block: u32) -> bool
    ensures { result ≡ can_show device image.now page.now block }
{
    device.is_sound() && image.len() == Part::BYTES && block < Part::BLOCKS && is_zeros(page)
}

#[tactic(auto, unfolding(crate::specs::Shown::read_locked))]
fn read_locked(device: Device, block: u32) -> bool
    requires { block < 16 }
    ensures { result ≡ read_locked device block }
{
    device.locks[block as usize] & 4 == 4
}

// What a reader sees of a block: nothing, where the device, the image, the block or the page will not do; the page, where the
// block is read-locked; else the block.
#[derive(Clone, Copy)]
enum Sight {
    Nothing,
    Page,
    Block(u32),
}

#[tactic(auto, using(crate::proofs::Ready::told))]
fn what_is_seen(device: Device, image: &[u8], page: &[u8], block: u32) -> Sight
    ensures { Sees device image.now page.now block result }
{
    if !can_show(device, image, page, block) {
        return Sight::Nothing;
    }
    if read_locked(device, block) {
        return Sight::Page;
    }
    Sight::Block(block)
}

// The bytes seen, the page's empty front for nothing.
#[tactic(auto, using(crate::proofs::Ready::ready, crate::proofs::Laws::shown_none, crate::proofs::Laws::shown_locked, crate::proofs::Laws::shown_open))]
pub fn view<'a>(device: Device, image: &'a [u8], page: &'a [u8], block: u32) -> &'a [u8]
    ensures { Shows device image.now page.now block result.now }
{
    let size = Part::BLOCK_BYTES as usize;
    match what_is_seen(device, image, page, block) {
        Sight::Nothing => &page[..0],
        Sight::Page => page,
        Sight::Block(b) => {
            let start = b as usize * size;
            &image[start..start + size]
        }
    }
}

// The same as numbers.
#[tactic(auto, using(basics::proofs::Rules::cases, crate::proofs::Ready::ready), unfolding(crate::specs::Shown::piece_shown))]
pub fn piece_shown(device: Device, image: &[u8], page: &[u8], block: u32) -> Piece
    ensures { ShowsPiece device image.now page.now block result }
{
    let (from, start, length) = match what_is_seen(device, image, page, block) {
        Sight::Nothing => (0, 0, 0),
        Sight::Page => (2, 0, Part::BLOCK_BYTES),
        Sight::Block(b) => (1, b * Part::BLOCK_BYTES, Part::BLOCK_BYTES),
    };
    Piece {
        from,
        start,
        length,
    }
}
