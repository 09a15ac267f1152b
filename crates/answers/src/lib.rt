// How the C interface takes a cell and gives an answer: its number, and its values as words of the lent answers table.
#![tactic(auto, unfolding(crate::specs::Interface::bits_of, crate::specs::Interface::frame_words, crate::specs::Interface::mixed_words, crate::specs::Interface::answers_after, base::specs::Tables::over))]

ghost use Rattle.std.specs.Prelude.{◌≡◌, ℕ};
ghost use Rattle.base.specs.Refusals.{refusal_number, number_by};
ghost use Rattle.selection.specs.Selection.{select_values};
ghost use Rattle.clusters.specs.Answers.{close_values};
ghost use Rattle.dispersion.specs.Dispersion.{dispersion_values};
ghost use Rattle.tree.specs.Tree.{tree_values};
ghost use Rattle.report.specs.Report.{report_values};
ghost use Rattle.answers.specs.Interface.{cell_of, bits_of, Small, answers_after, mixed_counts, frame_counts, mixed_words, frame_words};

use base::Refused;
use cell::{Cell, Vec3};
use cluster_table::ClusterFractions;
use mixing::Mixture;
use numbers::class::to_bits;
use octree::TreeSize;
use report::ReportCounts;
use selection::Counted;

// What an answer may refuse with: the library's own refusals, or a number of the caller's own.
pub trait Numbered: Copy {
    ghost number: { Self → ℕ };

    fn number(self) -> u32
        ensures { result ≡ number self };
}

impl Numbered for Refused {
    ghost number = { refusal_number };

    fn number(self) -> u32 {
        Refused::number(self)
    }
}

impl Numbered for u32 {
    ghost number = { λ n. n };

    fn number(self) -> u32 {
        self
    }
}

// The cell of six numbers.
pub fn cell(lx: f32, ly: f32, lz: f32, hx: f32, hy: f32, hz: f32) -> Cell
    ensures { result ≡ cell_of lx ly lz hx hy hz }
{
    Cell {
        low: Vec3 {
            x: lx,
            y: ly,
            z: lz,
        },
        high: Vec3 {
            x: hx,
            y: hy,
            z: hz,
        },
    }
}

// Writes as many of the values as the answers table holds.
#[tactic(auto, using(std::proofs::lemmas::List::take_min), unfolding(crate::specs::Interface::answers_after, base::specs::Tables::over))]
fn words(values: &[u32], answers: &mut [u32])
    ensures { answers.new ≡ answers_after values.now answers.old }
{
    let n = answers.len().min(values.len());
    answers[..n].copy_from_slice(&values[..n]);
}

// An answer that is acceptance alone.
pub fn number<E: Numbered>(a: Result<(), E>) -> u32
    ensures { result ≡ number_by E.number a }
{
    match a {
        Err(refused) => refused.number(),
        Ok(()) => 0,
    }
}

// Select's answer. Its counts fit a word, as do the other calls'.
pub fn selected<E: Numbered>(a: Result<Counted, E>, answers: &mut [u32]) -> u32
    requires { Small (select_values a) }
    ensures number { result ≡ number_by E.number a }
    ensures answers_after { answers.new ≡ answers_after (select_values a) answers.old }
{
    match a {
        Err(e) => e.number(),
        Ok(n) => {
            words(&[n.copies as u32, n.picks as u32], answers);
            0
        }
    }
}

// Close's answer.
pub fn closing<E: Numbered>(a: Result<ClusterFractions, E>, answers: &mut [u32]) -> u32
    ensures number { result ≡ number_by E.number a }
    ensures answers_after { answers.new ≡ answers_after (bits_of (close_values a)) answers.old }
{
    match a {
        Err(e) => e.number(),
        Ok(f) => {
            words(
                &[to_bits(f.largest), to_bits(f.contacted), to_bits(f.pair)],
                answers,
            );
            0
        }
    }
}

// Dispersion's answer.
pub fn dispersed<E: Numbered>(a: Result<f32, E>, answers: &mut [u32]) -> u32
    ensures number { result ≡ number_by E.number a }
    ensures answers_after { answers.new ≡ answers_after (bits_of (dispersion_values a)) answers.old }
{
    match a {
        Err(e) => e.number(),
        Ok(score) => {
            words(&[to_bits(score)], answers);
            0
        }
    }
}

// Tree's answer.
pub fn tree<E: Numbered>(a: Result<TreeSize, E>, answers: &mut [u32]) -> u32
    requires { Small (tree_values a) }
    ensures number { result ≡ number_by E.number a }
    ensures answers_after { answers.new ≡ answers_after (tree_values a) answers.old }
{
    match a {
        Err(e) => e.number(),
        Ok(t) => {
            words(&[t.nodes as u32, t.depth as u32], answers);
            0
        }
    }
}

// Report's answer.
pub fn report<E: Numbered>(a: Result<ReportCounts, E>, answers: &mut [u32]) -> u32
    requires { Small (report_values a) }
    ensures number { result ≡ number_by E.number a }
    ensures answers_after { answers.new ≡ answers_after (report_values a) answers.old }
{
    match a {
        Err(e) => e.number(),
        Ok(r) => {
            words(
                &[
                    r.nodes as u32,
                    r.depth as u32,
                    r.leaves as u32,
                    r.dry as u32,
                ],
                answers,
            );
            0
        }
    }
}

// The words of a frame that nothing refuses: the first tells blank.
fn mixed(a: Option<Mixture>, answers: &mut [u32])
    requires { Small (mixed_counts a) }
    ensures { answers.new ≡ answers_after (mixed_words a) answers.old }
{
    match a {
        None => words(&[1, 0, 0, 0, 0, 0, 0, 0, 0, 0, 0], answers),
        Some(m) => words(
            &[
                0,
                m.counted.copies as u32,
                m.counted.picks as u32,
                to_bits(m.fractions.largest),
                to_bits(m.fractions.contacted),
                to_bits(m.fractions.pair),
                to_bits(m.dispersion),
                m.report.nodes as u32,
                m.report.depth as u32,
                m.report.leaves as u32,
                m.report.dry as u32,
            ],
            answers,
        ),
    }
}

// The whole frame's answer.
pub fn frame<E: Numbered>(a: Result<Option<Mixture>, E>, answers: &mut [u32]) -> u32
    requires { Small (frame_counts a) }
    ensures number { result ≡ number_by E.number a }
    ensures answers_after { answers.new ≡ answers_after (frame_words a) answers.old }
{
    match a {
        Err(e) => e.number(),
        Ok(m) => {
            mixed(m, answers);
            0
        }
    }
}
