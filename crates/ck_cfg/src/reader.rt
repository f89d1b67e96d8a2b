ghost use Rattle.std.specs.Prelude.{◌≡◌, IfOk, None};
ghost use Rattle.fv_lines.specs.Words.{words};
ghost use Rattle.ck_cfg.specs.Faults.{Goes, Answers};
ghost use Rattle.ck_cfg.specs.Line.{counted, counted_lines};
ghost use Rattle.ck_cfg.specs.Options.{is_among};
ghost use Rattle.ck_cfg.specs.Reading.{start, piece, with_text_in, with_text, with_section, with_line, with_lines};
ghost use Rattle.ck_cfg.specs.Reading.{finished};

use crate::config::{Config, KindPiece, Piece};
use crate::fault::CfgFault;
use crate::line::{is_dropped, section_begun, trimmed};
use crate::section::Section;
use fv_lines::{next_line, next_place};
use fv_text::{List, Memory, Text};
use rv_table::Isa;
use std::alloc::Global;

/// What the lines so far say.
#[derive(Debug, Drop)]
pub(crate) struct Reader {
    /// The section that the next line stands in.
    pub section: Option<Section>,
    /// The names of the sections that were begun.
    pub sections: List<Text>,
    /// The keys of the options that were given.
    pub keys: List<Text>,
    pub config: Config,
}

impl Reader {
    /// What is read before the first line, where there are so many channels.
    pub(crate) fn new(alloc: Global, channels: u32) -> Reader
        ensures { result ≡ start channels }
    {
        Reader {
            section: None,
            sections: List::new(alloc),
            keys: List::new(alloc),
            config: Config {
                isa: Isa { m: false, c: false },
                nret: channels,
                depths: List::new(alloc),
                skips: List::new(alloc),
                defines: List::new(alloc),
                kind_defines: List::new(alloc),
                files: List::new(alloc),
                sort: List::new(alloc),
                assumes: List::new(alloc),
            },
        }
    }

    /// The lines of a text, in order.
    pub(crate) fn take_lines(&mut self, alloc: Global, bytes: &[u8]) -> Result<(), CfgFault>
        ensures { Goes self.new result (with_lines self.old (counted_lines bytes.now)) }
    {
        let mut rest = bytes;
        let mut line = 1;
        while !rest.is_empty() {
            let (text, behind) = next_line(rest);
            self.take_line(alloc, line, trimmed(text))?;
            line = next_place(line);
            rest = behind;
        }
        Ok(())
    }

    /// The line, if it counts.
    fn take_line(&mut self, alloc: Global, line: u32, text: &[u8]) -> Result<(), CfgFault>
        ensures { Goes self.new result (with_lines self.old (counted line text.now)) }
    {
        if is_dropped(text) {
            return Ok(());
        }
        self.take(alloc, line, text)
    }

    /// A line that counts.
    fn take(&mut self, alloc: Global, line: u32, text: &[u8]) -> Result<(), CfgFault>
        ensures { Goes self.new result (with_line self.old (record { number = line; text = text.now })) }
    {
        match section_begun(text) {
            Some(name) => self.begin(alloc, line, name),
            None => self.take_text(alloc, line, text),
        }
    }

    /// The begin of the section with this name.
    fn begin(&mut self, alloc: Global, line: u32, name: &[u8]) -> Result<(), CfgFault>
        ensures { Goes self.new result (with_section self.old line name.now) }
    {
        let name = Text::from_bytes(alloc, name)?;
        let Some(section) = Section::of_name(name.bytes()) else {
            return Err(CfgFault::Section { line, name });
        };
        if is_among(self.sections.as_slice(), name.bytes()) {
            return Err(CfgFault::Twice { line, key: name });
        }
        self.sections.push(name)?;
        self.section = Some(section);
        Ok(())
    }

    fn take_text(&mut self, alloc: Global, line: u32, text: &[u8]) -> Result<(), CfgFault>
        ensures { Goes self.new result (with_text self.old line text.now) }
    {
        match self.section {
            Some(section) => self.take_text_in(alloc, section, line, text),
            None => {
                let name = Text::from_vec(Vec::new(alloc));
                Err(CfgFault::Section { line, name })
            }
        }
    }

    fn take_text_in(
        &mut self,
        alloc: Global,
        section: Section,
        line: u32,
        text: &[u8],
    ) -> Result<(), CfgFault>
        ensures { Goes self.new result (with_text_in section self.old line text.now) }
    {
        match section {
            Section::Options => return self.take_option(alloc, line, text),
            Section::Depth => return self.take_depth(alloc, line, text),
            Section::ScriptSources => return self.take_script(alloc, line, text),
            Section::Defines => self.config.defines.push(Piece::of(alloc, line, text)?)?,
            Section::KindDefines(kind) => {
                let piece = Piece::of(alloc, line, text)?;
                self.config.kind_defines.push(KindPiece { kind, piece })?;
            }
            Section::VerilogFiles => self.config.files.push(Text::from_bytes(alloc, text)?)?,
            Section::Csrs => {}
            Section::Sort => self.config.sort.push(Text::from_bytes(alloc, text)?)?,
            Section::Assume => self.config.assumes.push(Piece::of(alloc, line, text)?)?,
        }
        Ok(())
    }

    /// The lines end here.
    pub(crate) fn finish(self, alloc: Global) -> Result<Config, CfgFault>
        ensures { Answers result (finished self) }
    {
        let Reader {
            section: _,
            sections: _,
            keys: _,
            config,
        } = self;
        if config.depths.is_empty() && config.skips.is_empty() {
            let section = Text::from_bytes(alloc, b"depth")?;
            return Err(CfgFault::Missing { section });
        }
        if config.files.is_empty() {
            let section = Text::from_bytes(alloc, b"verilog-files")?;
            return Err(CfgFault::Missing { section });
        }
        Ok(config)
    }
}

impl Piece {
    fn of(alloc: Global, line: u32, text: &[u8]) -> Result<Piece, Memory>
        ensures { IfOk result (λ p. p ≡ piece line text.now) }
    {
        Ok(Piece {
            line,
            text: Text::from_bytes(alloc, text)?,
        })
    }
}

/// Whether one of these texts is that text.
pub(crate) fn is_among(texts: &[Text], text: &[u8]) -> bool
    ensures { result ≡ is_among texts.now text.now }
{
    texts.iter().any(|other| other.bytes() == text)
}
