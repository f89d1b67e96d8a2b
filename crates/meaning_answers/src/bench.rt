//! The names and numbers of the lines so far, and the answers to the next ones.

ghost use Rattle.std.specs.Prelude.{◌≤◌};

use crate::line::{Line, line_of};
use crate::names::names_of;
use crate::read::{directed, expr_in, expr_of, items_of};
use crate::show;
use anyhow::{Result, anyhow};
use fv_bits::low;
use fv_text::Text;
use std::alloc::{AllocError, Global};
use vl_mean::{Env, Params, constant, value};
use vl_prep::Macros;
use vl_size::{Context, Decls, self_size, sign_of, size_of, zero_divisor};
use vl_tree::{Expr, Source};

/// Macros, names with their numbers, and parameters.
#[derive(Drop)]
pub struct Bench {
    alloc: Global,
    macros: Macros,
    env: Env,
    params: Params,
}

impl Bench {
    /// Before the first line: there are no macros, names or parameters.
    pub fn new(alloc: Global) -> Bench {
        Bench {
            alloc,
            macros: Macros::empty(alloc),
            env: Env::new(alloc, Decls::new(alloc)),
            params: Params::new(alloc),
        }
    }

    /// Takes a line, and answers it with what it says: behind the line itself, or behind its length where this is more
    /// than 120 bytes. A line that begins with no word of `line.rt` is answered by itself. An error is want of memory,
    /// or a text that isn't what its word asks for; behind it the macros may be gone.
    pub fn answer(&mut self, line: &str) -> Result<String> {
        let Some(asked) = line_of(line) else {
            return Ok(String::from_str(self.alloc, line)?);
        };
        let said = self.said(asked)?;
        Ok(show::behind(self.alloc, line, said.as_str())?)
    }

    fn said(&mut self, asked: Line<'_>) -> Result<String> {
        match asked {
            Line::Names(items) => self.declare(items),
            Line::Count(count) => self.count(count),
            Line::Find(name) => self.find(name),
            Line::Set(name, number) => self.set(name, number),
            Line::Size(expr) => self.size(expr),
            Line::Into(width, expr) => self.assigned(width, expr),
            Line::Constant(expr) => self.constant(expr),
            Line::Directive(text) => self.directive(text),
        }
    }

    fn directive(&mut self, text: &str) -> Result<String> {
        directed(self.alloc, &mut self.macros, text)?;
        Ok(String::from_str(self.alloc, "done")?)
    }

    fn declare(&mut self, items: &str) -> Result<String> {
        let source = items_of(self.alloc, &mut self.macros, items)?;
        let names = names_of(self.alloc, &source)?;
        self.take(names)
    }

    /// Takes names and parameters in place of those before. The tree that they are of isn't alive here.
    fn take(&mut self, names: (Decls, Params)) -> Result<String> {
        let (decls, params) = names;
        let count = decls.len();
        self.env = Env::new(self.alloc, decls);
        self.params = params;
        Ok(format!(in self.alloc; "{count} names")?)
    }

    fn count(&mut self, count: u32) -> Result<String> {
        let items = scalars(self.alloc, count)?;
        self.declare(items.as_str())
    }

    fn find(&self, name: &str) -> Result<String> {
        let name = Text::from_bytes(self.alloc, name.as_bytes())?;
        match self.env.decls().find(&name) {
            None => Ok(String::from_str(self.alloc, "none")?),
            Some(place) => Ok(format!(in self.alloc; "{place}")?),
        }
    }

    fn set(&mut self, name: &str, number: &str) -> Result<String> {
        let number = self.number(number)?;
        let name = Text::from_bytes(self.alloc, name.as_bytes())?;
        self.env.set(&name, number)?;
        let held = self.env.get(&name);
        Ok(format!(in self.alloc; "{held}")?)
    }

    /// The number that a constant is.
    fn number(&mut self, expr: &str) -> Result<u128> {
        let source = expr_of(self.alloc, &mut self.macros, expr)?;
        let Ok(number) = constant(self.alloc, expr_in(&source)?, &self.params) else {
            return Err(anyhow!("a number that isn't constant"));
        };
        Ok(number.value)
    }

    fn size(&mut self, expr: &str) -> Result<String> {
        let source = expr_of(self.alloc, &mut self.macros, expr)?;
        size_in(self.alloc, &source, self.env.decls())
    }

    fn assigned(&mut self, width: u32, expr: &str) -> Result<String> {
        if width > 128 {
            return Err(anyhow!("a target of more than 128 bits"));
        }
        match self.target(width, expr)? {
            None => Ok(String::from_str(self.alloc, "refused")?),
            Some(number) => Ok(format!(in self.alloc; "{number}")?),
        }
    }

    /// What a target of so many bits gets.
    fn target(&mut self, width: u32, expr: &str) -> Result<Option<u128>>
        requires { width ≤ 128 }
    {
        let source = expr_of(self.alloc, &mut self.macros, expr)?;
        let right = expr_in(&source)?;
        Ok(assigned(right, width, &self.env))
    }

    fn constant(&mut self, expr: &str) -> Result<String> {
        let source = expr_of(self.alloc, &mut self.macros, expr)?;
        constant_in(self.alloc, &source, &self.params)
    }
}

/// The scalars `last`, `n0`, `n1` and so on.
fn scalars(alloc: Global, count: u32) -> Result<String, AllocError> {
    let mut items = String::from_str(alloc, "reg last")?;
    for index in 0..count {
        write!(items, ", n{index}")?;
    }
    items.push_str(";")?;
    Ok(items)
}

/// Size and sign of the expression of a text.
fn size_in(alloc: Global, source: &Source, decls: &Decls) -> Result<String> {
    let expr = expr_in(source)?;
    Ok(show::size(alloc, size_of(expr, decls), sign_of(expr, decls))?)
}

/// The constant that the expression of a text is, or why it is none.
fn constant_in(alloc: Global, source: &Source, params: &Params) -> Result<String> {
    match constant(alloc, expr_in(source)?, params) {
        Ok(found) => Ok(show::constant(alloc, &found)?),
        Err(fault) => Ok(show::fault(alloc, &fault)?),
    }
}

/// What a target of so many bits gets: the right side is evaluated at the larger size with its own sign, and cut.
/// None where it has no size, or a divisor in it is 0 there.
fn assigned(right: &Expr, target: u32, env: &Env) -> Option<u128>
    requires { target ≤ 128 }
{
    let width = self_size(right, env.decls())?.max(target);
    let signed = sign_of(right, env.decls());
    let context = Context {
        size: Some(width),
        signed,
    };
    if zero_divisor(right, context, env.decls()).is_some() {
        return None;
    }
    Some(low(target, value(right, width, signed, env)))
}
