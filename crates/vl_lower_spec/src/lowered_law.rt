//! When a net that is built in steps is that of the design: definitions, and the law, without code.
ghost use Rattle.vl_lower_spec.specs.Built.{BuiltNetsAreLowered};

/// A net with what is free, what is settled, what comes next and what is assumed of a design is that of the design.
pub fn built_nets_are_lowered()
    ensures { BuiltNetsAreLowered }
{}
