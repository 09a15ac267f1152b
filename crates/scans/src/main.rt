// Scans copies in groups of four, 4 angstrom apart, with 8 angstrom between the groups, in a cell of 32,768: 4,096 copies with the rows
// in rising order, and 64 copies in three orders with refused calls in between, at the cutoff 4.2; and 64 copies at 8, where a copy touches the one after
// the next too, and groups touch. Prints the fractions beside the expected ones, 3 / (n - 1), n / n and (3 n / 4) / (n (n - 1) / 2), and at 8 63 / 63,
// 64 / 64 and (16 x 5 + 15) / 2016, each divided once in f32 by Python's struct and float.
#![tactic(auto)]

ghost use Rattle.std.specs.Prelude.{◌*◌, ◌≤◌, ◌<◌, length};

use base::Refused;
use cell::{Cell, Vec3};
use numbers::class::to_bits;
use std::io;
use touch::CUTOFF;

fn cube() -> Cell {
    Cell {
        low: Vec3 {
            x: 0.0,
            y: 0.0,
            z: 0.0,
        },
        high: Vec3 {
            x: 32768.0,
            y: 32768.0,
            z: 32768.0,
        },
    }
}

// A refusal's number, or 0.
fn number<T: Drop>(answer: Result<T, Refused>) -> u32 {
    match answer {
        Ok(_) => 0,
        Err(e) => e.number(),
    }
}

// Prints an answer that is not the expected one.
fn expect(rt: &impl Print, name: &str, got: u32, expected: u32) -> io::Result<()> {
    if got != expected {
        println!(rt; "{name} wrongly answered {got}")?;
    }
    Ok(())
}

// Atom i at x = 4 (i + i / 4).
fn place(xs: &mut [f32], n: usize)
    requires { (n ≤ 4096) × (n * 3 ≤ length xs.old) }
{
    let mut x = 0.0;
    for i in 0..n {
        xs[i * 3] = x;
        x += if i % 4 == 3 { 8.0 } else { 4.0 };
    }
}

// n atoms, a copy each; a refusal's number or 0.
fn copies(xs: &mut [f32], starts: &mut [u32], picks: &mut [u32], n: usize) -> u32
    requires { (n ≤ 4096) × (n * 3 ≤ length xs.old) }
{
    place(xs, n);
    number(selection::select(xs, 1, &[], starts, picks))
}

fn open(
    rt: &impl Print,
    table: &mut [u32],
    n: usize,
    cutoff: f32,
    expected: u32,
) -> io::Result<()> {
    expect(
        rt,
        "open",
        number(clusters::open(table, n, cutoff)),
        expected,
    )
}

// 12 while rows are missing.
fn close(rt: &impl Print, table: &[u32], missing: bool) -> io::Result<()> {
    let expected = if missing { 12 } else { 0 };
    expect(rt, "close", number(clusters::close(table)), expected)
}

// The fractions, and those that are expected: they are the same in every order.
fn show(rt: &impl Print, name: &str, table: &[u32], expected: &str) -> io::Result<()> {
    print!(rt; "{name}: close ")?;
    match clusters::close(table) {
        Ok(f) => {
            let (largest, contacted) = (to_bits(f.largest), to_bits(f.contacted));
            print!(rt; "{largest:08x} {contacted:08x} {:08x} ", to_bits(f.pair))?;
        }
        Err(e) => print!(rt; "{}", e.number())?,
    }
    println!(rt; "expected {expected}")
}

// What is scanned: copies of one atom, at a cutoff.
#[derive(Clone, Copy)]
struct Scan<'a> {
    cutoff: f32,
    xs: &'a [f32],
    starts: &'a [u32],
    picks: &'a [u32],
}

impl Scan<'_> {
    // A row, with the answer that is expected: a refusal's number or 0.
    fn row(self, rt: &impl Print, table: &mut [u32], i: usize, expected: u32) -> io::Result<()> {
        let got = clusters::row(
            cube(),
            self.cutoff,
            self.xs,
            self.starts,
            self.picks,
            table,
            i,
        );
        expect(rt, "row", number(got), expected)
    }

    // Refused rows: row i again (11), a row past the copies (10), and that row at another cutoff (17) and at 0 (16).
    fn refused_rows(self, rt: &impl Print, table: &mut [u32], i: usize) -> io::Result<()> {
        self.row(rt, table, i, 11)?;
        self.row(rt, table, 5000, 10)?;
        Scan {
            cutoff: 4.0,
            ..self
        }
        .row(rt, table, 5000, 17)?;
        Scan {
            cutoff: 0.0,
            ..self
        }
        .row(rt, table, 5000, 16)
    }

    // Row i; and, where it is so, refused rows, openings for too many copies (5) and above 16 angstrom (16), and a close.
    fn turn(
        self,
        rt: &impl Print,
        table: &mut [u32],
        i: usize,
        others: bool,
        missing: bool,
    ) -> io::Result<()> {
        self.row(rt, table, i, 0)?;
        if others {
            self.refused_rows(rt, table, i)?;
            open(rt, table, 5000, self.cutoff, 5)?;
            open(rt, table, 64, 16.5, 16)?;
            close(rt, table, missing)?;
        }
        Ok(())
    }

    // The rows 0, step, 2 step, .. of n copies, counted round n; with other calls in between where there are fewer than 4,096.
    fn scan(
        self,
        rt: &impl Print,
        name: &str,
        expected: &str,
        table: &mut [u32],
        n: usize,
        step: usize,
    ) -> io::Result<()>
        requires { (0 < n) × (n ≤ 4096) × (step ≤ 4096) }
    {
        open(rt, table, n, self.cutoff, 0)?;
        for k in 0..n {
            self.turn(rt, table, k * step % n, n < 4096, k + 1 < n)?;
        }
        show(rt, name, table, expected)
    }
}

fn all_copies(rt: &impl Print) -> io::Result<()> {
    let mut xs: [f32; 12288] = base::room(0.0);
    let mut starts = [0; 4097];
    let mut picks = [0; 4096];
    let mut table: [u32; 12294] = base::room(0);
    let kept = copies(&mut xs, &mut starts, &mut picks, 4096);
    let many = number(clusters::open(&mut table, 4097, CUTOFF));
    println!(rt; "{kept} for 4,096 copies, {many} for 4,097; expected 0 and 5")?;
    let scan = Scan {
        cutoff: CUTOFF,
        xs: &xs,
        starts: &starts,
        picks: &picks,
    };
    scan.scan(
        rt,
        "4,096 copies",
        "3a400c01 3f800000 39c00c01",
        &mut table,
        4096,
        1,
    )
}

fn orders(rt: &impl Print, scan: Scan, table: &mut [u32]) -> io::Result<()> {
    let fractions = "3d430c31 3f800000 3cc30c31";
    scan.scan(rt, "rising", fractions, table, 64, 1)?;
    scan.scan(rt, "falling", fractions, table, 64, 63)?;
    scan.scan(rt, "strided", fractions, table, 64, 37)?;
    let wide = Scan {
        cutoff: 8.0,
        ..scan
    };
    wide.scan(rt, "at 8", "3f800000 3f800000 3d410410", table, 64, 37)
}

fn three_orders(rt: &impl Print) -> io::Result<()> {
    let mut xs = [0.0; 192];
    let mut starts = [0; 65];
    let mut picks = [0; 64];
    let mut table = [0; 195];
    let kept = copies(&mut xs, &mut starts, &mut picks, 64);
    println!(rt; "{kept} for 64 copies; expected 0")?;
    let scan = Scan {
        cutoff: CUTOFF,
        xs: &xs,
        starts: &starts,
        picks: &picks,
    };
    orders(rt, scan, &mut table)
}

fn main(rt: HostRuntime) -> io::Result<()> {
    all_copies(&rt)?;
    three_orders(&rt)
}
