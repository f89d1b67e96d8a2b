//! Instances of which no steps come but their own.
ghost use Rattle.std.specs.Prelude.{◌≡◌};
ghost use Rattle.vl_elab_check.specs.Bare as spec;

use crate::scopes::{connections_of, header_of, ports_of};
use vl_tree::{Instance, Module};

/// Nothing is given to parameters and joined to ports.
fn gives_nothing(instance: &Instance) -> bool
    ensures { result ≡ spec.gives_nothing instance.now }
{
    let overrides = connections_of(&instance.overrides);
    let connections = instance.connections.as_slice();
    overrides.is_empty() && connections.is_empty()
}

/// No parameters in the head, no ports and no items.
fn has_nothing(module: &Module) -> bool
    ensures { result ≡ spec.has_nothing module.now }
{
    let parameters = header_of(&module.parameters);
    let ports = ports_of(&module.ports);
    let all = module.items.as_slice();
    all.is_empty() && ports.is_empty() && parameters.is_empty()
}

/// An instance that gives nothing to a module that has nothing: then its module needn't be entered.
pub(crate) fn is_bare(module: &Module, instance: &Instance) -> bool
    ensures { result ≡ spec.is_bare module.now instance.now }
{
    has_nothing(module) && gives_nothing(instance)
}
