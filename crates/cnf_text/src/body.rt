ghost use Rattle.std.specs.Prelude.{◌≡◌, ◌≤◌, ◌<◌, ◌^◌, min, ◌+◌, [], unsigned_abs, IfOk, OnOk};
ghost use Rattle.fv_lines.specs.Words.{lines, words};
ghost use Rattle.cnf_text.specs.Dimacs.{with_number, with_words, with_line, with_lines, finished, Answers};

use crate::fault::DimacsFault;
use crate::header::is_comment;
use crate::literal::literal;
use cnf_form::Formula;
use fv_lines::{next_line, next_place, next_word};
use std::alloc::Global;

/// What was read behind the header: the whole clauses, the literals of the open one, and the line of the last of them.
#[derive(Drop)]
pub(crate) struct Body {
    pub formula: Formula,
    pub clause: Vec<i64>,
    pub last: u32,
}

impl Body {
    ghost use Rattle.cnf_text.specs.Bodies.{body_of, IsBody, Goes, OnlyMemory};

    pub(crate) fn new(alloc: Global, vars: u64) -> Body
        requires { vars ≤ 100000000 }
        ensures body { IsBody vars result }
        ensures empty { body_of result ≡ record { clauses = []; clause = []; last = 0 } }
    {
        Body {
            formula: Formula::new(alloc, vars),
            clause: Vec::new(alloc),
            last: 0,
        }
    }

    /// One number more: 0 ends the clause.
    fn take_number(&mut self, line: u32, lit: i64) -> Result<(), DimacsFault>
        requires body { IsBody self.old.formula.vars self.old }
        requires named { unsigned_abs lit ≤ self.old.formula.vars }
        ensures ok { OnOk result (body_of self.new ≡ with_number (body_of self.old) line lit) }
        ensures body { OnOk result (IsBody self.old.formula.vars self.new) }
        ensures memory { OnlyMemory result }
    {
        if lit == 0 {
            self.formula.push(self.clause.as_slice())?;
            self.clause.clear();
        } else {
            self.clause.push(lit)?;
            self.last = line;
        }
        Ok(())
    }

    /// The words of a line.
    fn take_words(&mut self, vars: u64, line: u32, text: &[u8]) -> Result<(), DimacsFault>
        requires body { IsBody vars self.old }
        requires vars { vars ≤ 100000000 }
        ensures { Goes vars self.new result (with_words vars line (body_of self.old) (words text.now)) }
    {
        let mut rest = text;
        while let Some((word, behind)) = next_word(rest) {
            let Some(lit) = literal(word, vars) else {
                return Err(DimacsFault::Literal { line });
            };
            self.take_number(line, lit)?;
            rest = behind;
        }
        Ok(())
    }

    /// The line, if it is no comment.
    fn take_line(&mut self, vars: u64, line: u32, text: &[u8]) -> Result<(), DimacsFault>
        requires body { IsBody vars self.old }
        requires vars { vars ≤ 100000000 }
        ensures { Goes vars self.new result (with_line vars line (body_of self.old) text.now) }
    {
        if is_comment(text) {
            return Ok(());
        }
        self.take_words(vars, line, text)
    }

    /// The lines behind the header, of which the first has this number.
    pub(crate) fn take_lines(
        &mut self,
        vars: u64,
        first: u32,
        text: &[u8],
    ) -> Result<(), DimacsFault>
        requires body { IsBody vars self.old }
        requires vars { vars ≤ 100000000 }
        ensures { Goes vars self.new result (with_lines vars first (body_of self.old) (lines text.now)) }
    {
        let mut rest = text;
        let mut line = first;
        while !rest.is_empty() {
            let (text, behind) = next_line(rest);
            self.take_line(vars, line, text)?;
            line = next_place(line);
            rest = behind;
        }
        Ok(())
    }

    /// The text ends here.
    pub(crate) fn finish(self, count: u64) -> Result<Formula, DimacsFault>
        ensures { Answers (λ f. f) result (finished self.formula.vars count (body_of self)) }
    {
        let Body {
            formula,
            clause,
            last,
        } = self;
        if !clause.is_empty() {
            return Err(DimacsFault::Open { line: last });
        }
        let found = formula.len() as u64;
        if found != count {
            return Err(DimacsFault::Count { found, said: count });
        }
        Ok(formula)
    }
}
