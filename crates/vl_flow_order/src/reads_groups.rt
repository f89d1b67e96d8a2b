ghost use Rattle.vl_flow_order.specs.Groups.{AreGroups, groups_prop};

use fv_text::List;

/// Neighbouring cells of one name: for each cell the number of its group, and for each group the cell behind it.
#[derive(Debug, Drop)]
pub struct Groups {
    pub of_cells: List<u32>,
    pub ends: List<u64>,
    pub ghost kept: { AreGroups of_cells ends } by { groups_prop of_cells ends },
}
