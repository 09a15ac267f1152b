// Boxes (docs/RULES.md, 'Octree'): low, high, center and extent as floats, by value.
#![tactic(auto)]

ghost use Rattle.std.specs.Prelude.{◌≡◌};
ghost use Rattle.bounds.specs.Bounds.{box_between, cell_box, corner as corner_of, child_of, wide_box};

use cell::{Cell, Vec3};

// A box is split only where its widest side is over this.
const LEAST_WIDTH: f32 = 0.75;

#[derive(Clone, Copy)]
pub struct OctreeBounds {
    pub low: Vec3,
    pub high: Vec3,
    pub center: Vec3,
    pub extent: Vec3,
}

// On each axis p, or q where the octant's bit is set.
fn corner(octant: usize, p: Vec3, q: Vec3) -> Vec3
    ensures { result ≡ corner_of octant p q }
{
    Vec3 {
        x: if octant & 1 == 0 { p.x } else { q.x },
        y: if octant & 2 == 0 { p.y } else { q.y },
        z: if octant & 4 == 0 { p.z } else { q.z },
    }
}

impl OctreeBounds {
    // The box between two corners.
    fn between(low: Vec3, high: Vec3) -> OctreeBounds
        ensures { result ≡ box_between low high }
    {
        OctreeBounds {
            low,
            high,
            center: Vec3 {
                x: (low.x + high.x) * 0.5,
                y: (low.y + high.y) * 0.5,
                z: (low.z + high.z) * 0.5,
            },
            extent: Vec3 {
                x: high.x - low.x,
                y: high.y - low.y,
                z: high.z - low.z,
            },
        }
    }

    // The box of an octant.
    #[tactic(auto, unfolding(crate::specs::Bounds::child_of))]
    pub fn child(self, octant: usize) -> OctreeBounds
        ensures { result ≡ child_of self octant }
    {
        OctreeBounds::between(
            corner(octant, self.low, self.center),
            corner(octant, self.center, self.high),
        )
    }

    // Whether its widest side is over 0.75.
    #[tactic(auto, unfolding(crate::specs::Bounds::wide_box))]
    pub fn is_wide(self) -> bool
        ensures { result ≡ wide_box self }
    {
        (self.extent.x > LEAST_WIDTH)
            | ((self.extent.y > LEAST_WIDTH) | (self.extent.z > LEAST_WIDTH))
    }
}

// The box of the whole cell.
impl From<Cell> for OctreeBounds {
    ghost from_gives = { λ c b. b ≡ cell_box c };

    fn from(cell: Cell) -> OctreeBounds {
        OctreeBounds::between(cell.low, cell.high)
    }
}
