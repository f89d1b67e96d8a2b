//! Laws of statements that are executed over the cells of a design.
ghost use Rattle.std.specs.Prelude.{◌++◌, ◌∷◌, [], List, Option, Some, not, ℕ};
ghost use Rattle.fv_text.specs.declared.pos.Pos.{Pos};
ghost use Rattle.vl_tree.specs.Attributes.{Attributes};
ghost use Rattle.vl_tree.specs.Expr.{Expr};
ghost use Rattle.vl_tree.specs.Stmt.{Stmt, if_else, stmts};
ghost use Rattle.vl_size.specs.declared.decl.Decl.{Decl};
ghost use Rattle.wn_net.specs.Net.{Netlist};
ghost use Rattle.vl_lower_assign.specs.Slots.{IsPath};
ghost use Rattle.vl_lower_assign.specs.Frames.{Cells, IsFrame};
ghost use Rattle.vl_lower_stmt.specs.Executes.{Enters, Executes, ExecutesAll};

/// Where statements are executed and then one more, all of them are (IEEE 1364-2005, section 9.8.1).
#[tactic(auto, using(crate::proofs::Branches::all_more))]
pub fn statements_follow_one_another()
    ensures { (ds : List Decl) (old mid new : Netlist) (f h k : Cells) (path : Option ℕ) (xs : List Stmt) (x : Stmt)
        → IsPath old path → ExecutesAll ds old mid f h path (stmts xs) → Executes ds mid new h k path x
        → ExecutesAll ds old new f k path (stmts (xs ++ x ∷ [])) }
{}

/// Both statements of a branch are executed, each on the path of its own, over the same cells (section 9.4).
#[tactic(auto, using(crate::proofs::Branches::two_branches))]
pub fn a_branch_executes_each_on_its_own_path()
    ensures { (ds : List Decl) (old by half new : Netlist) (f h k : Cells) (path : Option ℕ) (inner other : ℕ)
        (attrs : Attributes) (p : Pos) (e : Expr) (x y : Stmt) → IsFrame old ds f → IsPath old path
        → Enters ds old by f.now path (λ b. b) e inner → Enters ds old by f.now path (λ b. not b) e other
        → Executes ds by half f h (Some inner) x → Executes ds half new h k (Some other) y
        → Executes ds old new f k path (if_else attrs p e x y) }
{}
