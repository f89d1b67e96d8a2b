//! Whether a design is too heavy for what is to be done with it.

ghost use Rattle.std.specs.Prelude.{◌≡◌, ◌<◌, ◌^◌, length};
ghost use Rattle.rvf_load.specs.Loads as loads;

/// What a weight times a factor may be.
const LIMIT: u64 = 20_000_000;

/// The place of the first factor that the weight is too much for, counted from 0, with the product.
pub(crate) fn too_heavy(weight: u64, factors: &[u32]) -> Option<(u32, u64)>
    requires { length factors.now < 2 ^ 32 }
    ensures { result ≡ loads.too_heavy weight 0 factors.now }
{
    for (place, factor) in factors.iter().enumerate() {
        let product = weight.saturating_mul(u64::from(*factor));
        if product > LIMIT {
            return Some((place as u32, product));
        }
    }
    None
}
