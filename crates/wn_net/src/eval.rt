//! Cycles of a net.
ghost use Rattle.std.specs.Prelude.{◌≡◌, length};
ghost use Rattle.wn_net.specs.Net.{values_of};
ghost use Rattle.wn_net.specs.Given.{IsGiven, IsStateOf, given};
ghost use Rattle.wn_net.specs.Next.{next_state};

use crate::advance::{move_mems, move_regs};
use crate::net::Net;
use crate::parts::State;
use crate::value::node_value;

impl Net {
    /// Fills in the value of each node.
    pub fn eval(&self, inputs: &[u128], state: &State, values: &mut [u128])
        requires given { IsGiven self.now (given inputs.now state.now) }
        requires room { length values.old ≡ length self.now.nodes }
        ensures { values.new ≡ values_of self.now (given inputs.now state.now) }
    {
        for (index, node) in self.nodes.as_slice().iter().enumerate() {
            let value = node_value(node, inputs, state, &self.widths[..index], &values[..index]);
            values[index] = value;
        }
    }

    /// Fills in the value of each node, and moves the state on to the next cycle.
    pub fn step(&self, inputs: &[u128], state: &mut State, values: &mut [u128])
        requires given { IsGiven self.now (given inputs.now state.old) }
        requires room { length values.old ≡ length self.now.nodes }
        ensures values { values.new ≡ values_of self.now (given inputs.now state.old) }
        ensures next { state.new ≡ next_state self.now (given inputs.now state.old) }
        ensures state { IsStateOf self.now state.new }
    {
        self.eval(inputs, state, values);
        move_regs(self.regs.as_slice(), values, &mut state.regs);
        move_mems(self.mems.as_slice(), values, &mut state.mems);
    }
}
