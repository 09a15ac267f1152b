// The whole frame (docs/RULES.md, 'Whole frame'): the input is tested once, all lengths are known before the first write, and then the
// unchecked cores of Select, Open, Row, Close, Dispersion and Report run. Beside the lent tables it keeps on its stack what they keep.
#![tactic(auto)]

ghost use Rattle.std.specs.Prelude.{◌≡◌};
ghost use Rattle.mixing.specs.Frame.{frame_of, frame_tables, frame_answer, frame_after};

use base::Refused;
use cell::Cell;
use cluster_table::ClusterFractions;
use report::ReportCounts;
use selection::Counted;

// What the whole frame answers where it is not blank: the answers of Select, Close, Dispersion and Report.
#[derive(Clone, Copy)]
pub struct Mixture {
    pub counted: Counted,
    pub fractions: ClusterFractions,
    pub dispersion: f32,
    pub report: ReportCounts,
}

// The whole frame: 1, 2, 3, 4, then blank (`None`, for zeros in all four fractions), then 5, 6, 16, 7, 13 in this order, or every answer. Contacts are at
// the cutoff; `per` is the atoms per copy.
pub fn frame(
    cell: Cell,
    cutoff: f32,
    solutes: &[f32],
    per: usize,
    indices: &[u32],
    waters: &[f32],
    starts: &mut [u32],
    picks: &mut [u32],
    clusters: &mut [u32],
    center_order: &mut [u32],
    water_order: &mut [u32],
    records: &mut [u32],
    boxes: &mut [f32],
    leaves: &mut [u32],
) -> Result<Option<Mixture>, Refused>
    ensures answer { result ≡ frame_answer (frame_of cell cutoff solutes.now per indices.now waters.now) (frame_tables starts.old picks.old clusters.old center_order.old water_order.old records.old boxes.old leaves.old) }
    ensures after { frame_tables starts.new picks.new clusters.new center_order.new water_order.new records.new boxes.new leaves.new
        ≡ frame_after (frame_of cell cutoff solutes.now per indices.now waters.now) (frame_tables starts.old picks.old clusters.old center_order.old water_order.old records.old boxes.old leaves.old) }
{
    frame_limits::limit_refusal(cell, solutes, waters, indices)?;
    // Copies, picks and finite waters are counted before the first write: blank and 5, 6, 7 go by them.
    let n = selection::count(solutes, per, indices);
    let finite = points::count_waters(waters);
    if frame_tests::is_blank(cell, solutes, waters, n.copies, finite) {
        return Ok(None);
    }
    frame_tests::size_refusal(
        n.copies,
        n.picks,
        finite,
        cutoff,
        starts.len(),
        picks.len(),
        clusters.len(),
        center_order.len(),
        water_order.len(),
    )?;
    // From here on only 13 refuses, and what it leaves is written by Report.
    selection::fill(solutes, per, indices, starts, picks);
    // The lent tables may be longer than the pick lists.
    let firsts = &starts[..n.copies + 1];
    let picked = &picks[..n.picks];
    scan::scan_all(cell, cutoff, solutes, firsts, picked, clusters);
    let fractions = cluster_table::fractions(clusters, n.copies);
    let dispersion = dispersion::dispersion_of(cell, solutes, firsts, picked);
    // Last: where it answers 13, the scan and Select have written already, as the rules have it.
    let report = report::report_of(
        cell,
        solutes,
        waters,
        firsts,
        picked,
        center_order,
        water_order,
        records,
        boxes,
        leaves,
    )?;
    Ok(Some(Mixture {
        counted: n,
        fractions,
        dispersion,
        report,
    }))
}
