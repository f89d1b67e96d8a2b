//! Over names that mean the same all is refused alike.
ghost use Rattle.std.specs.Prelude.{◌≡◌, ℕ, List, Bool, Option, false};
ghost use Rattle.fv_text.specs.declared.pos.Pos.{Pos};
ghost use Rattle.vl_tree.specs.declared.declaration.DeclaredName.{DeclaredName};
ghost use Rattle.vl_tree.specs.declared.declaration.NetKind.{NetKind};
ghost use Rattle.vl_tree.specs.declared.declaration.Range.{Range};
ghost use Rattle.vl_tree.specs.declared.part.Assignment.{Assignment};
ghost use Rattle.vl_tree.specs.declared.part.EventKind.{EventKind};
ghost use Rattle.vl_tree.specs.Expr.{Expr};
ghost use Rattle.vl_tree.specs.Lval.{Lval};
ghost use Rattle.vl_tree.specs.Stmt.{Stmt};
ghost use Rattle.vl_size.specs.declared.context.Context.{Context};
ghost use Rattle.vl_size.specs.declared.decl.Class.{Class};
ghost use Rattle.vl_size.specs.Table.{declared_as};
ghost use Rattle.vl_elab_spec.specs.Expressions.{expr_refusals, own_refusals};
ghost use Rattle.vl_elab_spec.specs.Items as items;
ghost use Rattle.vl_elab_spec.specs.Meanings.{Names, objects};
ghost use Rattle.vl_elab_spec.specs.Statements as stmts;
ghost use Rattle.vl_elab_scope.specs.Alike.{Alike};

/// The nets and variables that the names mean.
pub fn meanings_decide_declarations()
    ensures { (ns ms : List Names) → Alike ns ms → (text : List ℕ)
        → declared_as (objects ns) text ≡ declared_as (objects ms) text }
{}

/// An expression, in a context and with its own size and sign.
pub fn expressions_are_refused_alike()
    ensures context { (ns ms : List Names) → Alike ns ms → (fixed : Bool) (c : Context) (e : Expr)
        → expr_refusals ns fixed c e ≡ expr_refusals ms fixed c e }
    ensures own { (ns ms : List Names) → Alike ns ms → (fixed : Bool) (e : Expr)
        → own_refusals ns fixed e ≡ own_refusals ms fixed e }
{}

/// An assignment, a statement, and the statement of an `initial` block.
pub fn statements_are_refused_alike()
    ensures assignment { (ns ms : List Names) → Alike ns ms → (continuous fixed_target fixed_value : Bool)
        (l : Lval) (e : Expr) → stmts.assignment_refusals ns continuous fixed_target fixed_value l e
        ≡ stmts.assignment_refusals ms continuous fixed_target fixed_value l e }
    ensures statement { (ns ms : List Names) → Alike ns ms → (s : Stmt)
        → stmts.stmt_refusals ns s ≡ stmts.stmt_refusals ms s }
    ensures initial { (ns ms : List Names) → Alike ns ms → (s : Stmt)
        → stmts.initial_refusals ns s ≡ stmts.initial_refusals ms s }
{}

/// Ranges, declared names, values of ports and parameters, continuous assignments, events and genvars.
pub fn declarations_are_refused_alike()
    ensures range { (ns ms : List Names) → Alike ns ms → (r : Option Range)
        → items.range_refusals ns r ≡ items.range_refusals ms r }
    ensures width { (ns ms : List Names) → Alike ns ms → (p : Pos) (r : Option Range)
        → items.width_refusals ns p r ≡ items.width_refusals ms p r }
    ensures names { (ns ms : List Names) → Alike ns ms → (kind : NetKind) (c : Class) (shape : Option Range)
        (xs : List DeclaredName) → items.names_refusals ns kind c shape xs ≡ items.names_refusals ms kind c shape xs }
    ensures value { (ns ms : List Names) → Alike ns ms → (p : Pos) (kind : NetKind) (text : List ℕ)
        (value : Option Expr) → items.given_value ns p kind text value ≡ items.given_value ms p kind text value }
    ensures parameter { (ns ms : List Names) → Alike ns ms → (r : Option Range) (e : Expr)
        → items.value_context ns r e ≡ items.value_context ms r e }
    ensures assignments { (ns ms : List Names) → Alike ns ms → (xs : List Assignment)
        → items.assignments_refusals ns xs ≡ items.assignments_refusals ms xs }
    ensures event { (ns ms : List Names) → Alike ns ms → (p : Pos) (kind : EventKind)
        → items.event_refusals ns p kind ≡ items.event_refusals ms p kind }
    ensures genvar { (ns ms : List Names) → Alike ns ms → (e : Expr)
        → items.genvar_refusals ns e ≡ items.genvar_refusals ms e }
{}

/// What an instance joins to the ports of its module.
pub fn instances_are_refused_alike()
    ensures output { (ns ms : List Names) → Alike ns ms → (text : List ℕ) (p : Pos) (e : Expr) (l : Option Lval)
        → items.output_target ns text p e l ≡ items.output_target ms text p e l }
    ensures input { (ns ms : List Names) → Alike ns ms → (w : Option ℕ) (e : Expr)
        → expr_refusals ns false (items.joined_context ns w e) e
        ≡ expr_refusals ms false (items.joined_context ms w e) e }
{}
