// The block of bytes that holds a frame (docs/RULES.md, program `frame`): the header is tested before a table is written, so that
// no count in it leads outside, and a refusal changes nothing.
#![tactic(auto)]

ghost use Rattle.std.specs.Prelude.{◌≡◌, ℕ, ◌+◌, ◌*◌, ◌^◌, ◌<◌, ◌≤◌, List, length};
ghost use Rattle.block.specs.Block.{half_at, word_at, float_at, values_from, is_block, block_answer, indices_after, solutes_after, waters_after};

use base::Refused;
use cell::{Cell, Vec3};

// The bytes of a block, at most, with its length word.
pub const MAX_BLOCK: usize = 60000;

// The bytes before a block's indices.
const HEADER: usize = 46;

// The frame of a block: its atoms per copy, its numbers of solute atoms, indices and waters, and its cell.
#[derive(Clone, Copy)]
pub struct BlockFrame {
    pub per: usize,
    pub solutes: usize,
    pub indices: usize,
    pub waters: usize,
    pub cell: Cell,
}

// A value of four bytes, the lowest first.
trait LittleEndian: Copy {
    ghost at: { List ℕ → ℕ → Self };

    fn read(bytes: &[u8], p: usize) -> Self
        requires { p + 4 ≤ length bytes.now }
        ensures { result ≡ at bytes.now p };
}

impl LittleEndian for u32 {
    ghost at = { word_at };

    fn read(bytes: &[u8], p: usize) -> u32 {
        u32::from_le_bytes([bytes[p], bytes[p + 1], bytes[p + 2], bytes[p + 3]])
    }
}

// Every NaN's pattern arrives as a NaN.
impl LittleEndian for f32 {
    ghost at = { float_at };

    fn read(bytes: &[u8], p: usize) -> f32 {
        numbers::class::from_bits(u32::read(bytes, p))
    }
}

// The block's kind.
fn half(bytes: &[u8], p: usize) -> u16
    requires { p + 2 ≤ length bytes.now }
    ensures { result ≡ half_at bytes.now p }
{
    u16::from_le_bytes([bytes[p], bytes[p + 1]])
}

// A number of atoms, indices or waters.
fn count(bytes: &[u8], p: usize) -> usize
    requires { p + 4 ≤ length bytes.now }
    ensures { (result ≡ word_at bytes.now p) × (result < 2 ^ 32) }
{
    u32::read(bytes, p) as usize
}

// Whether the bytes are a block. The counts are below 2^32, so their products do not come round in a usize.
fn is_block(bytes: &[u8]) -> bool
    ensures { result ≡ is_block bytes.now }
{
    if bytes.len() < HEADER {
        return false;
    }
    if bytes.len() > MAX_BLOCK {
        return false;
    }
    if half(bytes, 4) != 1 {
        return false;
    }
    let length = count(bytes, 0);
    let atoms = count(bytes, 10) + count(bytes, 18);
    if length != 42 + 4 * count(bytes, 14) + 12 * atoms {
        return false;
    }
    4 + length == bytes.len()
}

fn read_corner(bytes: &[u8], p: usize) -> Vec3
    requires { p + 12 ≤ length bytes.now }
    ensures { result ≡ record { x = float_at bytes.now p; y = float_at bytes.now (p + 4); z = float_at bytes.now (p + 8) } }
{
    Vec3 {
        x: f32::read(bytes, p),
        y: f32::read(bytes, p + 4),
        z: f32::read(bytes, p + 8),
    }
}

// Reads a value from position p on into each entry of the table.
fn read_all<T: LittleEndian>(bytes: &[u8], p: usize, table: &mut [T])
    requires { p + length table.old * 4 ≤ length bytes.now }
    ensures { table.new ≡ values_from (T.at bytes.now) (length table.old) p }
{
    for (i, x) in table.iter_mut().enumerate() {
        *x = T::read(bytes, p + i * 4);
    }
}

// Reads the block's frame into the lent tables: 14, 7, or the frame.
#[tactic(auto, using(crate::proofs::Header::lengths))]
pub fn read_block(
    bytes: &[u8],
    indices: &mut [u32],
    solutes: &mut [f32],
    waters: &mut [f32],
) -> Result<BlockFrame, Refused>
    ensures answer { result ≡ block_answer bytes.now indices.old solutes.old waters.old }
    ensures indices_after { indices.new ≡ indices_after bytes.now indices.old solutes.old waters.old }
    ensures solutes_after { solutes.new ≡ solutes_after bytes.now indices.old solutes.old waters.old }
    ensures waters_after { waters.new ≡ waters_after bytes.now indices.old solutes.old waters.old }
{
    if !is_block(bytes) {
        return Err(Refused::Block);
    }
    let s = count(bytes, 10);
    let k = count(bytes, 14);
    let w = count(bytes, 18);
    if (indices.len() < k) | ((solutes.len() < s * 3) | (waters.len() < w * 3)) {
        return Err(Refused::Short);
    }
    let first = HEADER + k * 4;
    read_all(bytes, HEADER, &mut indices[..k]);
    read_all(bytes, first, &mut solutes[..s * 3]);
    read_all(bytes, first + s * 12, &mut waters[..w * 3]);
    Ok(BlockFrame {
        per: count(bytes, 6),
        solutes: s,
        indices: k,
        waters: w,
        cell: Cell {
            low: read_corner(bytes, 22),
            high: read_corner(bytes, 34),
        },
    })
}
