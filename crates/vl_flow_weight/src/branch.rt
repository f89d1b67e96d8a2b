ghost use Rattle.std.specs.Prelude.{◌≡◌, ◌+◌, ◌++◌, [], ℕ, List, IfOk};
ghost use Rattle.vl_mean.specs.ConstantFaults.{capped};
ghost use Rattle.vl_flow_spec.specs.Weight as spec;
ghost use Rattle.vl_size.specs.declared.decl.Decl.{Decl};
ghost use Rattle.vl_flow_weight.specs.Branches.{IsBranchOf};

use crate::names::merge_weight;
use fv_bit_sets::Bits;
use fv_text::Memory;
use std::alloc::Global;
use vl_mean::widths::plus;
use vl_size::Decls;

/// What statements weigh, and which names they assign.
#[derive(Debug, Drop)]
pub(crate) struct Branch {
    pub(crate) weight: u64,
    /// Bit 0 of the cells with the numbers of the names' places.
    pub(crate) names: Bits,
}

impl Branch {
    /// Without an assignment.
    pub(crate) fn without_names(alloc: Global, weight: u64) -> Branch
        ensures { (ds : List Decl) (m : ℕ) → weight ≡ capped m → IsBranchOf ds m [] result }
    {
        Branch {
            weight,
            names: Bits::none(alloc),
        }
    }

    /// Both of them.
    pub(crate) fn with(&self, other: &Branch) -> Result<Branch, Memory>
        ensures { IfOk result (λ made. (ds : List Decl) (m n : ℕ) (names others : List (List ℕ))
            → IsBranchOf ds m names self.now → IsBranchOf ds n others other.now
            → IsBranchOf ds (m + n) (names ++ others) made) }
    {
        let names = self.names.with(&other.names)?;
        Ok(Branch {
            weight: plus(self.weight, other.weight),
            names,
        })
    }

    /// Taken by a test: what is assigned in it is merged with what was there.
    pub(crate) fn merged(self, test: u64, decls: &Decls) -> Branch
        ensures { (m n : ℕ) (names : List (List ℕ)) → test ≡ capped m → IsBranchOf decls.now n names self
            → IsBranchOf decls.now (spec.merge_weight decls.now names + m + n) names result }
    {
        let merge = merge_weight(&self.names, decls);
        let Branch { weight, names } = self;
        Branch {
            weight: plus(plus(merge, test), weight),
            names,
        }
    }
    /// Behind tests.
    pub(crate) fn behind(self, tests: u64) -> Branch
        ensures { (ds : List Decl) (m n : ℕ) (names : List (List ℕ)) → tests ≡ capped m → IsBranchOf ds n names self
            → IsBranchOf ds (m + n) names result }
    {
        let Branch { weight, names } = self;
        Branch {
            weight: plus(tests, weight),
            names,
        }
    }
}
