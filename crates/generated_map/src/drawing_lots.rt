//! Numbers that look like chance and follow from a first one: each is the one before times a factor, and a
//! summand, cut to 64 bits. Of such numbers the upper bits alone look like chance.
ghost use Rattle.std.specs.Prelude.{◌≡◌};
ghost use Rattle.generated_map.specs.Generated.{next_number, drawn_behind, after_four};
ghost use Rattle.generated_map.specs.Generated.{corners_behind, IsNear};

use line_grammar::At;

const FACTOR: u64 = 6_364_136_223_846_793_005;

const SUMMAND: u64 = 1_442_695_040_888_963_407;

/// Two corners of a rectangle, the other one right of the first and not below it.
#[derive(Clone, Copy, Debug, PartialEq, Eq)]
pub struct Corners {
    pub low: At,
    pub high: At,
}

// Draws 31 bits, and keeps the number behind the last one.
fn draw(last: &mut u64) -> u64
    ensures drawn { result ≡ drawn_behind last.old }
    ensures last { last.new ≡ next_number last.old }
{
    *last = last.wrapping_mul(FACTOR).wrapping_add(SUMMAND);
    *last >> 33
}

/// Draws two corners.
pub(crate) fn draw_corners(last: &mut u64) -> Corners
    ensures corners { result ≡ corners_behind last.old }
    ensures low { IsNear result.low }
    ensures high { IsNear result.high }
    ensures last { last.new ≡ after_four last.old }
{
    let x = draw(last) % 65_536;
    let y = draw(last) % 65_536;
    let width = 1 + draw(last) % 256;
    let height = draw(last) % 256;
    Corners {
        low: At { x, y },
        high: At {
            x: x + width,
            y: y + height,
        },
    }
}
