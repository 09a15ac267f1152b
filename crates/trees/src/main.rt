// Runs Tree and Report on frames at the edges, and prints nodes, greatest depth, reported leaves and dry leaves beside the expected
// ones, worked out from the rules by hand: a box of width w splits while w > 0.75, its depth is below 14 and it has two centers, and
// copies in one place always fall into one octant. So two copies at one point make a chain of nodes: widths 16, 8, 4, 2, 1 and 0.5 in
// the cell 0..16 (depth 5), and in the cell 0..16,384 widths down to 1 at depth 14.
#![tactic(auto)]

ghost use Rattle.std.specs.Prelude.{◌≤◌};

use base::Refused;
use cell::{Cell, Vec3};
use octree::TreeSize;
use report::ReportCounts;
use std::io;

fn cube(h: f32) -> Cell {
    Cell {
        low: Vec3 {
            x: 0.0,
            y: 0.0,
            z: 0.0,
        },
        high: Vec3 { x: h, y: h, z: h },
    }
}

fn show_tree(rt: &impl Print, answer: Result<TreeSize, Refused>) -> io::Result<()> {
    match answer {
        Ok(TreeSize { nodes, depth }) => print!(rt; "{nodes} {depth} "),
        Err(e) => print!(rt; "refused {} ", e.number()),
    }
}

fn show_report(rt: &impl Print, answer: Result<ReportCounts, Refused>) -> io::Result<()> {
    match answer {
        Ok(
            ReportCounts {
                nodes,
                depth,
                leaves,
                dry,
            },
        ) => print!(rt; "{nodes} {depth} {leaves} {dry} "),
        Err(e) => print!(rt; "refused {} ", e.number()),
    }
}

// Tree, and then Report in the node tables that Tree has left.
fn both(
    rt: &impl Print,
    cell: Cell,
    solutes: &[f32],
    waters: &[f32],
    starts: &[u32],
    picks: &[u32],
    records: &mut [u32],
    boxes: &mut [f32],
) -> io::Result<()> {
    let mut center_order = [0u32; 2];
    let mut water_order = [0u32; 2];
    let mut leaves = [1u32; 120];
    show_tree(
        rt,
        tree::tree(
            cell,
            solutes,
            waters,
            starts,
            picks,
            &mut center_order,
            &mut water_order,
            records,
            boxes,
        ),
    )?;
    print!(rt; "and ")?;
    show_report(
        rt,
        report::report(
            cell,
            solutes,
            waters,
            starts,
            picks,
            &mut center_order,
            &mut water_order,
            records,
            boxes,
            &mut leaves,
        ),
    )
}

// Both on n copies and m waters, all in one place, in the cell 0..h, with room for r records.
fn run(
    rt: &impl Print,
    name: &str,
    h: f32,
    n: usize,
    m: usize,
    r: usize,
    expected: &str,
) -> io::Result<()>
    requires { (n ≤ 2) × ((m ≤ 1) × (r ≤ 15)) }
{
    let place = [3.0f32; 6];
    let water = [3.0f32; 3];
    let starts = [0u32, 1, 2];
    let picks = [0u32, 1];
    let mut records = [1u32; 120];
    let mut boxes = [1f32; 90];
    print!(rt; "{name}: ")?;
    both(
        rt,
        cube(h),
        &place[..n * 3],
        &water[..m * 3],
        &starts[..n + 1],
        &picks[..n],
        &mut records[..r * 8],
        &mut boxes,
    )?;
    println!(rt; "expected {expected}")
}

fn main(rt: HostRuntime) -> io::Result<()> {
    run(
        &rt,
        "two copies in one place",
        16.0,
        2,
        1,
        15,
        "6 5 and 6 5 1 0",
    )?;
    run(
        &rt,
        "two copies, depth 14",
        16384.0,
        2,
        1,
        15,
        "15 14 and 15 14 1 0",
    )?;
    run(
        &rt,
        "one copy, no waters",
        16.0,
        1,
        0,
        15,
        "1 0 and 1 0 1 1",
    )?;
    run(
        &rt,
        "no centers, one water",
        16.0,
        0,
        1,
        15,
        "1 0 and 1 0 0 0",
    )?;
    run(&rt, "no points", 16.0, 0, 0, 15, "0 0 and 0 0 0 0")?;
    // one record less than the nodes: 13
    run(
        &rt,
        "five records for six nodes",
        16.0,
        2,
        1,
        5,
        "refused 13 and refused 13",
    )
}
