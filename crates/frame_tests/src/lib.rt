// What the whole frame tests, after 1, 2, 3 and 4, before it writes anything (docs/RULES.md, 'Whole frame'): blank, then 5, 6, 16 and 7. The order of
// all its refusals is crate `mixing`'s.
#![tactic(auto)]

ghost use Rattle.std.specs.Prelude.{◌≡◌};
ghost use Rattle.base.specs.Refusals.{first_refusal, answer_of};
ghost use Rattle.frame_tests.specs.Tests.{is_blank, size_refusals};

use base::{MAX_COPIES, MAX_PICKS, Refused};
use cell::Cell;
use cluster_table::HEADER;

// Whether a frame with so many kept copies and finite waters is blank.
pub fn is_blank(cell: Cell, solutes: &[f32], waters: &[f32], copies: usize, finite: usize) -> bool
    ensures { result ≡ is_blank cell solutes.now waters.now copies finite }
{
    !cell::is_valid(cell)
        | ((solutes.len() == 0) | ((waters.len() == 0) | ((copies == 0) | (finite == 0))))
}

// The first of 5, 6, 16, 7 that holds: for so many copies, picks and finite waters, a cutoff, and tables of these lengths.
pub fn size_refusal(
    copies: usize,
    picked: usize,
    finite: usize,
    cutoff: f32,
    starts: usize,
    picks: usize,
    clusters: usize,
    center_order: usize,
    water_order: usize,
) -> Result<(), Refused>
    ensures { result ≡ answer_of (first_refusal (size_refusals copies picked finite cutoff starts picks clusters center_order water_order)) }
{
    if copies > MAX_COPIES {
        return Err(Refused::Copies);
    }
    if picked > MAX_PICKS {
        return Err(Refused::Picks);
    }
    let reaches = cell::sound_reach(cutoff);
    let short = ((starts < copies + 1) | (picks < picked))
        | ((clusters < HEADER + 3 * copies) | ((center_order < copies) | (water_order < finite)));
    if !reaches {
        return Err(Refused::Reach);
    }
    if short {
        return Err(Refused::Short);
    }
    Ok(())
}
