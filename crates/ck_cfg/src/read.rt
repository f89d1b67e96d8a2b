ghost use Rattle.std.specs.Prelude.{◌≡◌, ◌≤◌, IfOk};
ghost use Rattle.std.specs.Str.{is_utf8};
ghost use Rattle.ck_cfg.specs.Channels.{stated_nret};
ghost use Rattle.ck_cfg.specs.Faults.{Answers};
ghost use Rattle.ck_cfg.specs.Lawful.{HasLawfulChecks};
ghost use Rattle.ck_cfg.specs.Line.{counted_lines};
ghost use Rattle.ck_cfg.specs.Reading.{config_of};

use crate::channels::stated_nret;
use crate::config::Config;
use crate::fault::CfgFault;
use crate::reader::Reader;
use std::alloc::Global;

/// The configuration of a text.
pub fn read_cfg(alloc: Global, bytes: &[u8]) -> Result<Config, CfgFault>
    ensures answers { Answers result (config_of bytes.now) }
    ensures lawful { IfOk result (λ config. HasLawfulChecks config) }
    ensures channels { IfOk result (λ config. config.nret ≡ stated_nret (counted_lines bytes.now)) }
    ensures one_or_two { IfOk result (λ config. 1 ≤ config.nret × config.nret ≤ 2) }
{
    read_text(alloc, bytes)
}

fn read_text(alloc: Global, bytes: &[u8]) -> Result<Config, CfgFault>
    ensures { Answers result (config_of bytes.now) }
{
    if !is_utf8(bytes) {
        return Err(CfgFault::NotUtf8);
    }
    let mut reader = Reader::new(alloc, stated_nret(bytes));
    reader.take_lines(alloc, bytes)?;
    reader.finish(alloc)
}

fn is_utf8(bytes: &[u8]) -> bool
    ensures { result ≡ is_utf8 bytes.now }
{
    str::from_utf8(bytes).is_ok()
}
