use ck_cfg::CheckKind;
use fv_text::Text;
use rv_table::RowId;

/// What a run is to reach.
#[derive(Debug, Drop)]
pub struct Target {
    /// `any_KIND`, or `hit_ROW_chN`.
    pub name: Text,
    /// The kind of checks whose design and assumptions count.
    pub kind: CheckKind,
    /// The row of which a word is to retire; without a row the assumptions are all that a run has to meet.
    pub row: Option<RowId>,
    /// The channel in which it is to retire, from 0; 0 without a row.
    pub channel: u32,
    /// The cycle in which it is to retire, and the last one of the run.
    pub cycle: u32,
}
