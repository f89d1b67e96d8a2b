ghost use Rattle.std.specs.Prelude.{All, IfOk};
ghost use Rattle.vl_flow_check.specs.Layouts.{IsLayoutOf};
ghost use Rattle.vl_mean.specs.FlatLaw.{IsDriver};
ghost use Rattle.vl_flow_check.specs.Shares.{AreNameShares};

use crate::layout::Layout;
use crate::share::{Share, push};
use fv_text::Memory;
use std::alloc::Global;
use vl_flow_order::named;
use vl_mean::Driver;
use vl_size::Decls;

/// The names of which the drivers assign bits, each as bit 0 under the number of its place.
pub(crate) fn name_shares(
    alloc: Global,
    layout: &Layout,
    decls: &Decls,
    drivers: &[Driver],
) -> Result<Vec<Share>, Memory>
    requires layout { IsLayoutOf decls.now drivers.now layout.now }
    requires driven { All (λ x. IsDriver decls.now x.what) drivers.now }
    ensures { IfOk result (λ shares. AreNameShares decls.now drivers.now shares.items) }
{
    let _count = decls.len();
    let footprints = layout.footprints.as_slice();
    let mut shares = Vec::new(alloc);
    for at in 0..drivers.len() {
        let bits = named(alloc, &layout.groups, &footprints[at].drives)?;
        push(
            &mut shares,
            Share {
                bits,
                pos: drivers[at].pos,
            },
        )?;
    }
    Ok(shares)
}
