ghost use Rattle.std.specs.Prelude.{◌≡◌, ◌↔◌, option_map, IfOk, IsTrue};
ghost use Rattle.vcd_text.specs.Reading.{FindsName};
ghost use Rattle.vcd_dump.specs.Vcd.{time_line};

use crate::name_line::name_at;
use crate::words::value_at;
use fv_lines::behind;
use fv_text::{List, Memory, Text, Trace, TraceName};
use itoa::Buffer;
use std::alloc::Global;

/// Which line is the next.
#[derive(Debug, Clone, Copy, PartialEq, Eq)]
enum Part {
    Scale,
    Scope,
    Names,
    Definitions,
    Start,
    Dump,
    Values,
    Changes,
}

/// What the lines so far say.
#[derive(Debug, Drop)]
pub(crate) struct Reader {
    alloc: Global,
    part: Part,
    names: Vec<TraceName>,
    /// The whole cycles.
    cycles: Vec<List<u128>>,
    /// The values at time 0 so far; later those of the open cycle, from `next` on those of the cycle before.
    values: Vec<u128>,
    /// The first name that may still change in the open cycle.
    next: usize,
}

impl Reader {
    ghost use Rattle.std.specs.Prelude.{◌+◌, ℕ, List, length, OnOk};
    ghost use Rattle.fv_text.specs.declared.trace.Trace.{Trace};
    ghost use Rattle.vcd_text.specs.Reading.{IsReadable};
    ghost use Rattle.vcd_text.specs.Reached.{IsSound, Awaits, Takes, TakesFixed, IsClosed, Finishes};
    ghost use Rattle.vcd_dump.specs.Vcd.{vcd_lines};

    pub(crate) fn new(alloc: Global) -> Reader
        ensures sound { IsSound result }
        ensures awaits { (t : Trace) (more : List (List ℕ)) → IsReadable t → Awaits result t more
            ↔ (vcd_lines t ≡ more) }
    {
        Reader {
            alloc,
            part: Part::Scale,
            names: Vec::new(alloc),
            cycles: Vec::new(alloc),
            values: Vec::new(alloc),
            next: 0,
        }
    }

    /// Takes one line more, or says that no dump has it here.
    pub(crate) fn take(&mut self, line: &[u8]) -> Result<bool, Memory>
        requires { IsSound self.old }
        ensures { IfOk result (λ took. Takes self.old line.now took self.new) }
    {
        match self.part {
            Part::Scale => Ok(self.take_fixed(line, b"$timescale 1 ns $end", Part::Scope)),
            Part::Scope => Ok(self.take_fixed(
                line,
                b"$scope module rvfi_wrapper $end",
                Part::Names,
            )),
            Part::Names => self.take_name(line),
            Part::Definitions => Ok(self.take_fixed(line, b"$enddefinitions $end", Part::Start)),
            Part::Start => Ok(self.take_fixed(line, b"#0", Part::Dump)),
            Part::Dump => Ok(self.take_fixed(line, b"$dumpvars", Part::Values)),
            Part::Values => self.take_value(line),
            Part::Changes => self.take_change(line),
        }
    }

    /// Goes on with this part if the line is the wanted one.
    fn take_fixed(&mut self, line: &[u8], wanted: &[u8], part: Part) -> bool
        ensures { TakesFixed self.old line.now wanted.now part result self.new }
    {
        if line != wanted {
            return false;
        }
        self.part = part;
        true
    }

    /// A name, or the end of the scope.
    fn take_name(&mut self, line: &[u8]) -> Result<bool, Memory>
        requires part { self.old.part ≡ Part.Names }
        requires sound { IsSound self.old }
        ensures { IfOk result (λ took. Takes self.old line.now took self.new) }
    {
        if line == b"$upscope $end".as_slice() {
            self.part = Part::Definitions;
            return Ok(true);
        }
        match name_of(self.alloc, line, self.names.len())? {
            Some(name) => {
                self.names.push(name)?;
                Ok(true)
            }
            None => Ok(false),
        }
    }

    /// A value at time 0, or the end of these values.
    fn take_value(&mut self, line: &[u8]) -> Result<bool, Memory>
        requires part { self.old.part ≡ Part.Values }
        requires sound { IsSound self.old }
        ensures { IfOk result (λ took. Takes self.old line.now took self.new) }
    {
        if self.values.len() == self.names.len() {
            return Ok(self.end_values(line));
        }
        let next = self.values.len();
        let Some((index, value)) = value_at(line, self.names.as_slice()) else {
            return Ok(false);
        };
        if index != next {
            return Ok(false);
        }
        self.values.push(value)?;
        Ok(true)
    }

    /// The end of the values at time 0.
    fn end_values(&mut self, line: &[u8]) -> bool
        requires part { self.old.part ≡ Part.Values }
        requires sound { IsSound self.old }
        requires all { length self.old.values.items ≡ length self.old.names.items }
        ensures { Takes self.old line.now result self.new }
    {
        if line != b"$end".as_slice() {
            return false;
        }
        self.part = Part::Changes;
        self.next = self.values.len();
        true
    }

    /// A value that changed, or the next time.
    fn take_change(&mut self, line: &[u8]) -> Result<bool, Memory>
        requires part { self.old.part ≡ Part.Changes }
        requires sound { IsSound self.old }
        ensures { IfOk result (λ took. Takes self.old line.now took self.new) }
    {
        if is_time(line, self.cycles.len() + 1) {
            self.close_cycle()?;
            return Ok(true);
        }
        Ok(self.change_value(line))
    }

    fn close_cycle(&mut self) -> Result<(), Memory>
        ensures { OnOk result (IsClosed self.old self.new) }
    {
        let values = Vec::from_slice(self.alloc, self.values.as_slice())?;
        self.cycles.push(List::from_vec(values))?;
        self.next = 0;
        Ok(())
    }

    fn change_value(&mut self, line: &[u8]) -> bool
        requires part { self.old.part ≡ Part.Changes }
        requires sound { IsSound self.old }
        requires no_time { line.now ≡ time_line (length self.old.cycles.items + 1) → ⊥ }
        ensures { Takes self.old line.now result self.new }
    {
        let Some((index, value)) = value_at(line, self.names.as_slice()) else {
            return false;
        };
        if index < self.next {
            return false;
        }
        if self.values[index] == value {
            return false;
        }
        self.values[index] = value;
        self.next = index + 1;
        true
    }

    /// The trace, if the last line said the number of cycles.
    pub(crate) fn finish(self) -> Option<Trace>
        requires { IsSound self }
        ensures { Finishes self result }
    {
        let Reader {
            alloc: _,
            part: _,
            names,
            cycles,
            values: _,
            next,
        } = self;
        if cycles.is_empty() {
            return None;
        }
        if next > 0 {
            return None;
        }
        Some(Trace {
            names: List::from_vec(names),
            cycles: List::from_vec(cycles),
        })
    }
}

fn is_time(line: &[u8], time: usize) -> bool
    ensures { IsTrue result ↔ (line.now ≡ time_line time) }
{
    let mut buffer = Buffer::new();
    let Some(rest) = behind(line, b"#") else {
        return false;
    };
    rest == buffer.format(time).as_bytes()
}

/// The name that the line declares, if its code is that of this index.
fn name_of(alloc: Global, line: &[u8], index: usize) -> Result<Option<TraceName>, Memory>
    ensures { IfOk result (λ found. FindsName index line.now (option_map (λ name. (name.width, name.text)) found)) }
{
    match name_at(line, index) {
        Some((width, text)) => Ok(Some(TraceName {
            text: Text::from_bytes(alloc, text)?,
            width,
        })),
        None => Ok(None),
    }
}
