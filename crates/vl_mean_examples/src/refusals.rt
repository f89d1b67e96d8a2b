//! Small designs that are refused, and some that aren't: what the definitions say of them.
ghost use Rattle.fv_text.specs.declared.pos.Pos.{Pos as SpecPos};
ghost use Rattle.std.specs.Prelude.{◌≡◌, ◌∷◌, [], ◌*◌, ℤ, None, Some, codes};
ghost use Rattle.vl_mean_examples.specs.Examples.{blocks, choice, counter, exchange, is_one, looped};
ghost use Rattle.vl_mean.specs.Parts.{here};
ghost use Rattle.vl_mean.specs.Walk.{Place};
ghost use Rattle.vl_elab_spec.specs.Items.{head_refusals};
ghost use Rattle.vl_elab_spec.specs.Meanings.{loop_variable};
ghost use Rattle.vl_mean_examples.specs.RefusedDesigns as designs;
ghost use Rattle.vl_elab_spec.specs.Refused.{refusal, state_bits, too_many_bits};
ghost use Rattle.vl_elab_spec.specs.declared.elab_fault.ElabFault.TheVariants as fault;
ghost use Rattle.vl_size.specs.Table.{span};

/// The small designs whose meaning is shown elsewhere are designs.
pub fn small_designs_are_accepted()
    ensures counter { refusal (counter ∷ []) (codes "counter") ≡ None }
    ensures choice { refusal (choice ∷ []) (codes "choice") ≡ None }
    ensures exchange { refusal (exchange ∷ []) (codes "exchange") ≡ None }
    ensures widest { refusal designs.widest_net (codes "top") ≡ None }
    ensures looped { refusal (looped ∷ is_one ∷ []) (codes "top") ≡ None }
    ensures blocks { refusal (blocks ∷ []) (codes "blocks") ≡ None }
{}

/// A genvar is read in its loops alone, and they are over genvars alone; a label of one `if` counts once.
pub fn generate_constructs_have_names()
    ensures outside { refusal designs.genvar_outside (codes "top") ≡ Some (fault.Unknown (codes "i") here) }
    ensures net { refusal designs.loop_over_a_net (codes "top") ≡ Some (fault.Kind (codes "i") here) }
    ensures once { refusal designs.one_label (codes "top") ≡ None }
    ensures twice { refusal designs.one_label_twice (codes "top") ≡ Some (fault.Twice (codes "g") here) }
{}

/// A name has to be declared, once in its scope.
pub fn names_are_declared_once()
    ensures unknown { refusal designs.unknown (codes "top") ≡ Some (fault.Unknown (codes "x") here) }
    ensures twice { refusal designs.declared_twice (codes "top") ≡ Some (fault.Twice (codes "w") here) }
{}

/// Nets are assigned continuously and variables in blocks, inputs not at all.
pub fn what_is_assigned_is_of_its_kind()
    ensures net { refusal designs.net_in_a_block (codes "top") ≡ Some (fault.Kind (codes "w") here) }
    ensures input { refusal designs.assigned_input (codes "top") ≡ Some (fault.Kind (codes "a") here) }
{}

/// A use before the declaration isn't refused where the declaration is; a scalar isn't selected from.
pub fn uses_wait_for_declarations()
    ensures bound { refusal designs.bound_that_varies (codes "top") ≡ Some (fault.NotConstant here) }
    ensures own { refusal designs.net_of_its_own_width (codes "top") ≡ Some (fault.NotConstant here) }
    ensures scalar { refusal designs.selected_scalar (codes "top") ≡ Some (fault.Range here) }
    ensures memory { refusal designs.memory_with_a_value (codes "top") ≡ Some (fault.Range here) }
    ensures nets { refusal designs.memory_of_nets (codes "top") ≡ Some (fault.Range designs.next_line) }
{}

/// The clock is no number, and parameters are constants of those before them.
pub fn some_names_are_no_numbers()
    ensures clock { refusal designs.clock_that_is_read (codes "top") ≡ Some (fault.Clock here) }
    ensures parameter { refusal designs.later_parameter (codes "top") ≡ Some (fault.NotConstant here) }
    ensures assigned { refusal designs.parameter_of_nine_bits (codes "top") ≡ Some (fault.TooWide here 201) }
{}

/// What is divided by 0, and what has more than 128 bits.
pub fn expressions_have_limits()
    ensures divisor { refusal designs.zero_divisor (codes "top") ≡ Some (fault.ZeroDivisor here) }
    ensures context { refusal designs.divisor_of_nine_bits (codes "top") ≡ None }
    ensures expression { refusal designs.wide_concatenation (codes "top") ≡ Some (fault.TooWide here 129) }
    ensures declaration { refusal designs.wide_net (codes "top") ≡ Some (fault.TooWide here 129) }
{}

/// Modules that aren't there, and one within itself.
pub fn modules_stand_below_others()
    ensures top { refusal designs.unknown (codes "other") ≡ Some (fault.NoModule (codes "other")) }
    ensures missing { refusal designs.missing_module (codes "top") ≡ Some (fault.NoModule (codes "missing")) }
    ensures own { refusal designs.own_instance (codes "top") ≡ Some (fault.Recursive (codes "top" ∷ [])) }
{}

/// What an instance gives and joins; what it gives comes before what it joins.
pub fn instances_fit_their_modules()
    ensures port { refusal designs.no_port (codes "top") ≡ Some (fault.Port (codes "p") here) }
    ensures net { refusal designs.no_net (codes "top") ≡ Some (fault.Port (codes "y") here) }
    ensures parameter { refusal designs.given_localparam (codes "top") ≡ Some (fault.Param (codes "L") here) }
{}

/// Of one item the lowest number counts, and of two items the first.
pub fn refusals_have_an_order()
    ensures in_one { refusal designs.two_in_one (codes "top") ≡ Some (fault.Unknown (codes "x") here) }
    ensures first { refusal designs.two_items (codes "top") ≡ Some (fault.Clock here) }
    ensures port { refusal designs.no_port_and_no_name (codes "top") ≡ Some (fault.Unknown (codes "x") here) }
    ensures parameter { refusal designs.no_parameter_and_no_name (codes "top")
        ≡ Some (fault.Unknown (codes "x") here) }
    ensures select { refusal designs.assigned_parameter (codes "top") ≡ Some (fault.Range here) }
{}

/// A design with 200,001 names.
pub fn designs_have_few_names()
    ensures { refusal designs.many_names (codes "top") ≡ Some (fault.TooLarge here) }
{}

/// A loop over a genvar of its own is refused where it has no last turn, and for nothing else.
#[tactic(auto, using(crate::proofs::Limits::endless_loop))]
pub fn loops_end()
    ensures { (at : Place) (p : SpecPos)
        → head_refusals at p designs.endless_head loop_variable ≡ fault.GenLoop p ∷ [] }
{}

/// A memory that no block drives counts with all its bits, of which there are 65,536 at most.
#[tactic(auto, using(crate::proofs::Limits::memory_bits))]
pub fn designs_have_few_bits()
    ensures bits { (left right : ℤ)
        → state_bits (designs.memory_part left right ∷ []) (designs.memory_part left right ∷ [])
        ≡ 128 * span left right }
    ensures most { too_many_bits 65536 ≡ None }
    ensures more { too_many_bits 65537 ≡ Some (fault.TooManyBits 65537) }
{}
