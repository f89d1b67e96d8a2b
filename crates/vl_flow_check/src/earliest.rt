ghost use Rattle.std.specs.Prelude.{◌≡◌, ◌<◌, ◌∷◌, [], List, take};
ghost use Rattle.vl_flow_spec.specs.Refusals.{in_order, with_place};
ghost use Rattle.vl_flow_check.specs.Earliest.{listed};
ghost use Rattle.vl_flow_check.specs.Shares.{places_at};
ghost use Rattle.vl_flow_check.specs.declared.share.Share.{Share};

use crate::share::Share;
use fv_text::Pos;
use vl_size::earlier::is_earlier;

/// The first two of places in order, where there are so many.
#[derive(Debug, Clone, Copy)]
pub(crate) enum Earliest {
    None,
    One(Pos),
    Two(Pos, Pos),
}

/// The first two, where the first two of the others are known.
fn with_two(pos: Pos, first: Pos, second: Pos) -> Earliest
    ensures { listed result ≡ take 2 (with_place pos (first ∷ second ∷ [])) }
{
    if !is_earlier(first, pos) {
        return Earliest::Two(pos, first);
    }
    if is_earlier(second, pos) {
        return Earliest::Two(first, second);
    }
    Earliest::Two(first, pos)
}

fn with_one(pos: Pos, first: Pos) -> Earliest
    ensures { listed result ≡ take 2 (with_place pos (first ∷ [])) }
{
    if is_earlier(first, pos) {
        return Earliest::Two(first, pos);
    }
    Earliest::Two(pos, first)
}

impl Earliest {
    /// With one place more.
    fn with(self, pos: Pos) -> Earliest
        ensures { listed result ≡ take 2 (with_place pos (listed self)) }
    {
        match self {
            Earliest::None => Earliest::One(pos),
            Earliest::One(first) => with_one(pos, first),
            Earliest::Two(first, second) => with_two(pos, first, second),
        }
    }

    /// With the place of the share, where it has the bit.
    fn with_share(self, share: &Share, cell: u64, bit: u32) -> Earliest
        requires { bit < 128 }
        ensures { (shares : List Share) → listed self ≡ take 2 (in_order (places_at shares cell bit))
            → listed result ≡ take 2 (in_order (places_at (share.now ∷ shares) cell bit)) }
    {
        if share.has(cell, bit) {
            return self.with(share.pos);
        }
        self
    }
}

/// The first two places of shares that have the bit.
pub(crate) fn earliest_of(shares: &[Share], cell: u64, bit: u32) -> Earliest
    requires { bit < 128 }
    ensures { listed result ≡ take 2 (in_order (places_at shares.now cell bit)) }
{
    let mut found = Earliest::None;
    let mut rest = shares.len();
    'back: while rest > 0 {
        rest -= 1;
        found = found.with_share(&shares[rest], cell, bit);
    }
    found
}
