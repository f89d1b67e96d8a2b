//! What holds of choices that are read from a witness.

ghost use Rattle.bm_decide.specs.Chosen as spec;

/// The bits of a run of a net may be read, and the choices that are read from a witness are choices of its net.
pub fn read_choices_are_the_nets()
    ensures readable { spec.BitsAreReadable }
    ensures of_net { spec.ReadChoicesAreTheNets }
{}
