//! The files of a case, and runs over them.

use crate::line::{Line, line_of};
use crate::meeting::run_to_meet;
use anyhow::Result;
use fv_base::{MemFiles, MemOut};
use rvf_core::run;
use std::alloc::{AllocError, Global};
use std::thread::Threads;

/// The kinds of the checks whose files are told.
const KINDS: [&str; 7] = ["ill", "reg", "pc_fwd", "unique", "liveness", "imem", "dmem"];

/// The channels of those checks.
const CHANNELS: [u32; 2] = [0, 1];

/// Targets, and a check of an instruction, whose files are told behind them.
const NAMED: [&str; 5] = [
    "any_insn",
    "any_ill",
    "any_reg",
    "hit_add_ch0",
    "insn_bext_ch0",
];

/// How the names of a check's files end.
const ENDINGS: [&str; 8] = [
    "base.cnf",
    "base.lrat",
    "cnf",
    "lrat",
    "step.cnf",
    "step.lrat",
    "step.vcd",
    "vcd",
];

/// A text under its name.
#[derive(Drop)]
struct Named {
    name: String,
    text: String,
}

/// How a run is made and told.
#[derive(Clone, Copy)]
enum Manner {
    Whole,
    InBrief,
    ToMeet,
    WithDumps,
    WithNames,
}

/// A run that is asked for.
#[derive(Drop)]
pub struct Asked {
    words: Vec<String>,
    manner: Manner,
}

/// Where a line of text goes.
#[derive(Clone, Copy)]
enum Target {
    Piece,
    File,
}

/// The pieces of text so far, and the files of the case.
#[derive(Drop)]
pub struct Bench {
    alloc: Global,
    pieces: Vec<Named>,
    files: Vec<Named>,
    failing_files: Vec<u64>,
    failing_puts: Vec<u64>,
    /// How many bytes are reserved for what a run puts.
    room: u64,
    target: Target,
    /// The files once a run has begun.
    held: Option<MemFiles>,
}

impl Bench {
    pub fn new(alloc: Global) -> Bench {
        Bench {
            alloc,
            pieces: Vec::new(alloc),
            files: Vec::new(alloc),
            failing_files: Vec::new(alloc),
            failing_puts: Vec::new(alloc),
            room: 0,
            target: Target::Piece,
            held: None,
        }
    }

    /// Takes a line, and answers the run that it asks for, if it does.
    pub fn take(&mut self, text: &str) -> Result<Option<Asked>, AllocError> {
        match line_of(text) {
            Line::Piece(name) => self.begin(Target::Piece, name)?,
            Line::File(name) => self.begin(Target::File, name)?,
            Line::Use(name) => self.use_piece(name)?,
            Line::FailingFile(call) => self.failing_files.push(call)?,
            Line::FailingPut(call) => self.failing_puts.push(call)?,
            Line::Room(bytes) => self.room = bytes,
            Line::Run(words) => return Ok(Some(self.asked(words, Manner::Whole)?)),
            Line::RunInBrief(words) => return Ok(Some(self.asked(words, Manner::InBrief)?)),
            Line::RunToMeet(words) => return Ok(Some(self.asked(words, Manner::ToMeet)?)),
            Line::RunWithDumps(words) => return Ok(Some(self.asked(words, Manner::WithDumps)?)),
            Line::RunWithNames(words) => return Ok(Some(self.asked(words, Manner::WithNames)?)),
            Line::Repeat(count, text) => self.repeat(count, text)?,
            Line::Numbered(first, last, text) => self.repeat_numbered(first, last, text)?,
            Line::End => self.end(),
            Line::Comment => {}
            Line::Text(text) => {
                self.append(text)?;
                self.append("\n")?;
            }
        }
        Ok(None)
    }

    fn begin(&mut self, target: Target, name: &str) -> Result<(), AllocError> {
        let named = Named {
            name: String::from_str(self.alloc, name)?,
            text: String::new(self.alloc),
        };
        match target {
            Target::Piece => self.pieces.push(named)?,
            Target::File => self.files.push(named)?,
        }
        self.target = target;
        Ok(())
    }

    fn append(&mut self, text: &str) -> Result<(), AllocError> {
        match self.target {
            Target::Piece => append_to_last(&mut self.pieces, text),
            Target::File => append_to_last(&mut self.files, text),
        }
    }

    fn repeat(&mut self, count: u64, text: &str) -> Result<(), AllocError> {
        for _ in 0..count {
            self.append(text)?;
        }
        Ok(())
    }

    fn repeat_numbered(&mut self, first: u64, last: u64, text: &str) -> Result<(), AllocError> {
        let mut lines = String::new(self.alloc);
        for number in first..=last {
            for letter in text.chars() {
                match letter {
                    '#' => write!(lines, "{number}")?,
                    '|' => lines.push('\n')?,
                    _ => lines.push(letter)?,
                }
            }
        }
        self.append(lines.as_str())
    }

    fn use_piece(&mut self, name: &str) -> Result<(), AllocError> {
        let mut text = String::new(self.alloc);
        for piece in self.pieces.iter() {
            if piece.name.as_str() == name {
                text.push_str(piece.text.as_str())?;
            }
        }
        self.append(text.as_str())
    }

    fn asked(&self, words: &str, manner: Manner) -> Result<Asked, AllocError> {
        let mut all = Vec::new(self.alloc);
        for word in words.split_whitespace() {
            all.push(String::from_str(self.alloc, word)?)?;
        }
        Ok(Asked { words: all, manner })
    }

    fn end(&mut self) {
        self.files = Vec::new(self.alloc);
        self.failing_files = Vec::new(self.alloc);
        self.failing_puts = Vec::new(self.alloc);
        self.room = 0;
        self.held = None;
    }

    /// The case's files in memory, with what earlier runs of the case wrote.
    fn held(&mut self) -> Result<MemFiles> {
        if let Some(files) = self.held.take() {
            return Ok(files);
        }
        let mut pairs = Vec::new(self.alloc);
        for file in self.files.iter() {
            let bytes = file.text.as_bytes().to_vec(self.alloc)?;
            pairs.push((file.name.clone()?, bytes))?;
        }
        Ok(MemFiles::new(self.alloc, pairs, self.failing_files.clone()?)?)
    }

    /// Makes the run: its words, what was put, the code, whether its first check met the second one where that is
    /// asked, and each file of a check that is there, of a dump with its text where that is asked.
    pub fn run<R: Threads + Sync>(&mut self, rt: &R, asked: &Asked) -> Result<String> {
        let mut files = self.held()?;
        let mut out = MemOut::new(self.alloc, self.failing_puts.clone()?);
        out.reserve(self.room)?;
        let words = asked.words.as_slice();
        let (status, met) = match asked.manner {
            Manner::ToMeet => run_to_meet(rt, self.alloc, words, &mut files, &mut out),
            _ => (run(rt, self.alloc, words, &mut files, &mut out), ""),
        };
        let code = status.code();
        let mut told = self.told(words)?;
        put(
            &mut told,
            out.sent(),
            matches!(asked.manner, Manner::InBrief),
        )?;
        told.push_str(format!(in self.alloc; "= {code}\n{met}")?.as_str())?;
        self.put_files(&mut told, &files, asked.manner)?;
        self.held = Some(files);
        Ok(told)
    }

    /// A line of the words.
    fn told(&self, words: &[String]) -> Result<String, AllocError> {
        let mut told = String::from_str(self.alloc, "$")?;
        for word in words {
            told.push(' ')?;
            told.push_str(word.as_str())?;
        }
        told.push('\n')?;
        Ok(told)
    }

    /// A line for each file of a check or a target that is there, and the texts of dumps and the names of notes where
    /// they are asked.
    fn put_files(&self, told: &mut String, files: &MemFiles, manner: Manner) -> Result<()> {
        for kind in KINDS {
            for channel in CHANNELS {
                let name = format!(in self.alloc; "{kind}_ch{channel}")?;
                self.put_files_of(told, files, name.as_str(), manner)?;
            }
        }
        for name in NAMED {
            self.put_files_of(told, files, name, manner)?;
        }
        Ok(())
    }

    /// A line for each file of the check or target of a name, and the text of its dump or the names of its notes where
    /// they are asked.
    fn put_files_of(
        &self,
        told: &mut String,
        files: &MemFiles,
        name: &str,
        manner: Manner,
    ) -> Result<()> {
        for ending in ENDINGS {
            let path = format!(in self.alloc; "out/{name}.{ending}")?;
            let is_dump = ending == "vcd";
            put_file(
                told,
                files,
                path.as_str(),
                is_dump && matches!(manner, Manner::WithDumps),
            )?;
            if ending == "cnf" && matches!(manner, Manner::WithNames) {
                put_names(told, files, path.as_str())?;
            }
        }
        Ok(())
    }
}

/// A line for the file if it is there, and its text where that is asked.
fn put_file(
    told: &mut String,
    files: &MemFiles,
    name: &str,
    with_text: bool,
) -> Result<(), AllocError> {
    if let Some(bytes) = files.get(name) {
        told.push_str("+ ")?;
        told.push_str(name)?;
        told.push('\n')?;
        if with_text {
            put(told, bytes, false)?;
        }
    }
    Ok(())
}

/// A line with the names of which the notes of a clause file have bit 0, in order.
fn put_names(told: &mut String, files: &MemFiles, name: &str) -> Result<(), AllocError> {
    let Some(bytes) = files.get(name) else {
        return Ok(());
    };
    let text = str::from_utf8(bytes).unwrap_or("");
    for line in text.split('\n') {
        if let Some(note) = line.strip_prefix("c ") {
            let mut words = note.split(' ');
            let _literal = words.next();
            let _cycle = words.next();
            let bit = words.next().unwrap_or("");
            if bit == "0" {
                told.push(' ')?;
                told.push_str(words.next().unwrap_or(""))?;
            }
        }
    }
    told.push('\n')
}

fn append_to_last(all: &mut Vec<Named>, text: &str) -> Result<(), AllocError> {
    if let Some(named) = all.last_mut() {
        named.text.push_str(text)?;
    }
    Ok(())
}

/// Tells what was put; in brief the first word of each line.
fn put(told: &mut String, sent: &[u8], in_brief: bool) -> Result<(), AllocError> {
    let mut passes = false;
    for byte in sent {
        if *byte == b'\n' {
            passes = false;
        } else if *byte == b' ' && in_brief {
            passes = true;
        }
        if !passes {
            told.push(char::from(*byte))?;
        }
    }
    Ok(())
}
