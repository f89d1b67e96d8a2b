ghost use Rattle.std.specs.Prelude.{◌≡◌, IfOk};
ghost use Rattle.rvf_core.specs.Certificate.{one_line};

use fv_text::{List, Memory, Text};
use rvf_report::{Delivery, Status};
use std::alloc::Global;

/// What a run comes to: a status, and what is to be delivered before it stands, in this order.
#[derive(Drop)]
pub(crate) struct Report {
    pub(crate) status: Status,
    pub(crate) deliveries: List<Delivery>,
}

impl Report {
    /// A status with one line.
    pub(crate) fn of_line(alloc: Global, status: Status, line: Text) -> Result<Report, Memory>
        ensures { IfOk result (λ report. report ≡ one_line status line) }
    {
        let mut deliveries = List::new(alloc);
        deliveries.push(Delivery::Line(line))?;
        Ok(Report { status, deliveries })
    }
}
