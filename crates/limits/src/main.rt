// Runs Select and the tests of a frame at each limit and past it (by one; of picks by one copy's), and prints what each answered beside what
// docs/RULES.md says: a refusal's number, or 0. The expected answers were worked out from the rules, by hand. Every atom is at the origin,
// unless a case says otherwise.
#![tactic(auto)]

use base::Refused;
use cell::{Cell, Vec3};
use numbers::class::from_bits;
use std::io;

// What Select is given: coordinates, atoms per copy, indices, starts lent, picks lent.
#[derive(Clone, Copy)]
struct Lent(usize, usize, usize, usize, usize);

// A table has its cases, each beside the expected answer.
static SELECTS: [(Lent, u32); 16] = [
    (Lent(3, 1, 0, 4098, 65537), 0),
    (Lent(4, 1, 0, 4098, 65537), 1),
    (Lent(196608, 65536, 0, 4098, 65537), 0),
    (Lent(196611, 65536, 0, 4098, 65537), 2),
    (Lent(3, 1, 256, 4098, 65537), 0),
    (Lent(3, 1, 257, 4098, 65537), 2),
    (Lent(12288, 1, 0, 4098, 65537), 0),
    (Lent(12291, 1, 0, 4098, 65537), 5),
    (Lent(768, 1, 256, 4098, 65537), 0),
    (Lent(771, 1, 256, 4098, 65537), 6),
    (Lent(12288, 1, 0, 4097, 4096), 0),
    (Lent(12288, 1, 0, 4096, 4096), 7),
    (Lent(12288, 1, 0, 4097, 4095), 7),
    (Lent(12288, 0, 0, 1, 0), 0),
    (Lent(12288, 0, 0, 0, 0), 7),
    (Lent(15, 3, 0, 2, 3), 0),
];

// The bits of one coordinate of an atom, those of another: 1,048,576 and the next f32, both signs, infinity, beside a NaN.
static COORDINATES: [((u32, u32), u32); 6] = [
    ((0x4980_0000, 0), 0),
    ((0x4980_0001, 0), 4),
    ((0xc980_0000, 0), 0),
    ((0xc980_0001, 0), 4),
    ((0x7f80_0000, 0), 0),
    ((0x4980_0001, 0x7fc0_0000), 4),
];

// The bits of the cell's high bounds, water coordinates: 65,536 and the next f32, infinity, a NaN, 2^-23 and 1.5 x 2^-23; then 65,536 waters and
// one more.
static CELLS: [((u32, usize), u32); 8] = [
    ((0x4780_0000, 0), 0),
    ((0x4780_0001, 0), 3),
    ((0x7f80_0000, 0), 15),
    ((0x7fc0_0000, 0), 15),
    ((0x3400_0000, 0), 15),
    ((0x3440_0000, 0), 0),
    ((0x3f80_0000, 196608), 0),
    ((0x3f80_0000, 196611), 2),
];

// Starts and picks of the pick lists of 4,097 atoms, a copy each, as Select writes them for 4,096 and one more by hand.
static PICK_LISTS: [((usize, usize), u32); 6] = [
    ((0, 0), 8),
    ((1, 0), 0),
    ((1, 1), 8),
    ((4097, 4096), 0),
    ((4098, 4097), 8),
    ((4097, 4097), 8),
];

// The cell from 0 to h on each axis.
fn cube(h: f32) -> Cell {
    Cell {
        low: Vec3 {
            x: 0.0,
            y: 0.0,
            z: 0.0,
        },
        high: Vec3 { x: h, y: h, z: h },
    }
}

// The first n entries of a list, or all where it has fewer.
fn first<T>(xs: &[T], n: usize) -> &[T] {
    &xs[..n.min(xs.len())]
}

fn select(xs: &[f32], lent: Lent) -> Result<(), Refused> {
    let Lent(coordinates, per, indices, a, b) = lent;
    let mut starts: [u32; 4098] = base::room(0);
    let mut picks: [u32; 65537] = base::room(0);
    selection::select(
        first(xs, coordinates),
        per,
        first(&[0u32; 257], indices),
        &mut starts[..a.min(4098)],
        &mut picks[..b.min(65537)],
    )?;
    Ok(())
}

// Select on one atom.
fn select_atom(x: u32, y: u32) -> Result<(), Refused> {
    let atom = [from_bits(x), from_bits(y), 0.0];
    select(&atom, Lent(3, 1, 0, 4098, 65537))
}

fn frame(xs: &[f32], high: u32, waters: usize) -> Result<(), Refused> {
    frame_limits::frame_refusal(cube(from_bits(high)), first(xs, 3), first(xs, waters))
}

fn lists(xs: &[f32], n: usize, m: usize) -> Result<(), Refused> {
    let mut starts: [u32; 4098] = base::room(0);
    let mut picks: [u32; 65537] = base::room(0);
    selection::select(first(xs, 12288), 1, &[], &mut starts, &mut picks)?;
    starts[4097] = 4097;
    picks[4096] = 4096;
    pick_lists::input_refusal(
        cube(1.0),
        first(xs, 12291),
        &[],
        first(&starts, n),
        first(&picks, m),
    )
}

// Prints what each case of a table answered, a refusal's number or 0, beside what it must.
fn show<C: Copy, F: Fn(C) -> Result<(), Refused>>(
    rt: &impl Print,
    name: &str,
    table: &[(C, u32)],
    answer: F,
) -> io::Result<()>
    requires { F.IsAlwaysCallable answer }
{
    for (i, (case, expected)) in table.iter().enumerate() {
        let got = match answer(*case) {
            Ok(()) => 0,
            Err(e) => e.number(),
        };
        println!(rt; "{name} {i}: {got}, expected {expected}")?;
    }
    Ok(())
}

fn main(rt: HostRuntime) -> io::Result<()> {
    let xs: [f32; 196611] = base::room(0.0);
    show(&rt, "select", &SELECTS, |c| select(&xs, c))?;
    show(&rt, "coordinate", &COORDINATES, |(x, y)| select_atom(x, y))?;
    show(&rt, "cell", &CELLS, |(h, waters)| frame(&xs, h, waters))?;
    show(&rt, "pick lists", &PICK_LISTS, |(n, m)| lists(&xs, n, m))
}
