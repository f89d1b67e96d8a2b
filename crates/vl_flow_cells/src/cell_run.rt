ghost use Rattle.std.specs.Prelude.{◌<◌};

/// The bits of a mask, in each cell from the first up to the one before `past`.
#[derive(Debug, Clone, Copy)]
pub struct CellRun {
    pub(crate) first: u64,
    pub(crate) past: u64,
    pub(crate) mask: u128,
    pub ghost some: { first < past },
}
