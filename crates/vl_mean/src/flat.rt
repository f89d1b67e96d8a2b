ghost use Rattle.vl_mean.specs.FlatLaw.{IsLawful};
ghost use Rattle.vl_mean.specs.FlatProps.{lawful_prop};

use crate::driver::{Driver, Start};
use fv_text::List;
use vl_size::Decls;

/// A design without hierarchy: names are full names, and each parameter and genvar is a number. Nothing in it is
/// refused: each name is declared, each expression has a size, and each target is one that may be assigned there, by
/// specs/FlatLaw.
#[derive(Drop)]
pub struct Flat {
    pub decls: Decls,
    pub drivers: List<Driver>,
    pub starts: List<Start>,
    pub ghost lawful: { IsLawful decls drivers starts } by { lawful_prop decls drivers starts },
}
