ghost use Rattle.std.specs.Prelude.{◌≡◌, ◌≤◌};
ghost use Rattle.fv_lines.specs.Words.{lines};
ghost use Rattle.cnf_text.specs.Dimacs.{read_behind, formula_of, Answers};
ghost use Rattle.cnf_text.specs.Bodies.{sizes_of};

use crate::body::Body;
use crate::fault::DimacsFault;
use crate::header::{Sizes, is_skipped};
use cnf_form::Formula;
use fv_lines::{next_line, next_place};
use std::alloc::Global;

/// The formula of a clause file.
///
/// Comment lines, whose first word begins with `c`, stand anywhere; blank lines too; a clause may go over several
/// lines.
pub fn read_dimacs(alloc: Global, bytes: &[u8]) -> Result<Formula, DimacsFault>
    ensures { Answers (λ f. f) result (formula_of bytes.now) }
{
    let mut rest = bytes;
    let mut line = 1;
    while !rest.is_empty() {
        let (first, behind) = next_line(rest);
        rest = behind;
        if !is_skipped(first) {
            let Some(sizes) = Sizes::of(first) else {
                return Err(DimacsFault::Header { line });
            };
            return read_behind(alloc, sizes, next_place(line), rest);
        }
        line = next_place(line);
    }
    Err(DimacsFault::Header { line })
}

/// The formula of the lines behind the header, of which the first has this number.
fn read_behind(alloc: Global, sizes: Sizes, line: u32, rest: &[u8]) -> Result<Formula, DimacsFault>
    requires { sizes.vars ≤ 100000000 }
    ensures { Answers (λ f. f) result (read_behind (sizes_of sizes) line (lines rest.now)) }
{
    let mut body = Body::new(alloc, sizes.vars);
    body.take_lines(sizes.vars, line, rest)?;
    body.finish(sizes.count)
}
