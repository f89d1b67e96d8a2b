//! Lists of the items of a module, in which generate regions are open (IEEE 1364-2005, sections 12.4 and A.1.4).

ghost use Rattle.std.specs.Prelude.{◌≡◌, ◌+◌, ◌<◌, ℕ, [], None, List, IfOk, IfErr};
ghost use Rattle.fv_text.specs.declared.kind.Kind.{Kind};
ghost use Rattle.fv_text.specs.declared.token.Token.{Token};
ghost use Rattle.vl_tree.specs.DeclarationWellFormed as declared_formed;
ghost use Rattle.vl_tree.specs.Phrase.{Spells, BeginsAt, at, word, ◌▸◌};
ghost use Rattle.vl_tree.specs.ItemView.{shown};
ghost use Rattle.vl_tree.specs.ItemSpelling as spec;
ghost use Rattle.vl_tree.specs.DeclarationSpelling as declared;
ghost use Rattle.vl_tree.specs.WellFormed as formed;
ghost use Rattle.vl_parse_grammar.specs.Machine.{then};
ghost use Rattle.vl_parse_cursor.specs.Goes.{IsMemory};
ghost use Rattle.vl_parse.specs.declared.reading.Ending.{Ending};
ghost use Rattle.vl_parse.specs.Items as items;

use fv_text::{Keyword, List, Pos};
use std::alloc::Global;
use vl_parse_cursor::{Stop, add};
use vl_tree::{AttributeInstance, Item, ItemKind, RegionMark};

/// An item without attributes.
pub(crate) fn bare(alloc: Global, pos: Pos, kind: ItemKind) -> Item
    ensures { result ≡ shown [] pos kind }
{
    Item {
        attributes: List::new(alloc),
        pos,
        kind,
    }
}

/// What a list of items ends with.
#[derive(Clone, Copy)]
pub enum Ending {
    Endmodule,
    Endgenerate,
    End,
}

impl Ending {
    pub fn word(self) -> Keyword
        ensures { result ≡ items.word_of self }
    {
        match self {
            Ending::Endmodule => Keyword::Endmodule,
            Ending::Endgenerate => Keyword::Endgenerate,
            Ending::End => Keyword::End,
        }
    }
}

/// More regions than can be counted want memory.
fn one_more(regions: usize) -> Result<usize, Stop>
    ensures more { IfOk result (λ n. n ≡ regions + 1) }
    ensures memory { IfErr result (λ e. IsMemory e) }
{
    match regions.checked_add(1) {
        Some(regions) => Ok(regions),
        None => Err(Stop::Memory),
    }
}

/// The items that were read, and how many regions among them are still open.
#[derive(Drop)]
pub struct Reading {
    pub all: List<Item>,
    pub regions: usize,
}

/// What a list of items goes on with: an item, or the first word of a region with what stands before it.
#[derive(Drop)]
pub enum Front {
    Item(Item),
    Generate(List<AttributeInstance>, Pos),
}

impl Reading {
    /// What the list goes on to, up to the end of its innermost region.
    #[tactic(auto, using(crate::proofs::ItemsSpelled::innermost_read))]
    pub(crate) fn ending(&self, outer: Ending) -> Ending
        ensures { result ≡ items.innermost self.now.regions outer }
    {
        if self.regions == 0 {
            outer
        } else {
            Ending::Endgenerate
        }
    }

    #[tactic(auto, using(crate::proofs::ItemsSpelled::items_spelled))]
    pub(crate) fn with_item(self, item: Item) -> Result<Reading, Stop>
        requires formed { items.IsReading self }
        requires unmarked { formed.mark_of item ≡ None }
        requires item { formed.IsWellFormed item }
        ensures formed { IfOk result (λ x. items.IsReading x) }
        ensures found { IfOk result (λ x. (start middle rest : List Token)
            → Spells (items.spell_reading self) start middle → Spells (spec.spell item) middle rest
            → Spells (items.spell_reading x) start rest) }
        ensures regions { IfOk result (λ x. x.regions ≡ self.regions) }
        ensures memory { IfErr result (λ e. IsMemory e) }
    {
        let mut all = self.all;
        add(&mut all, item)?;
        Ok(Reading {
            all,
            regions: self.regions,
        })
    }

    /// One region more is open.
    #[tactic(auto, using(crate::proofs::ItemsSpelled::items_spelled))]
    pub(crate) fn with_generate(
        self,
        attributes: List<AttributeInstance>,
        pos: Pos,
    ) -> Result<Reading, Stop>
        requires formed { items.IsReading self }
        requires attributes { declared_formed.AreAttributes attributes }
        ensures formed { IfOk result (λ x. items.IsReading x) }
        ensures found { IfOk result (λ x. (start middle rest : List Token)
            → Spells (items.spell_reading self) start middle
            → Spells (declared.spell_attributes attributes ▸ at pos (word Keyword.Generate)) middle rest
            → Spells (items.spell_reading x) start rest) }
        ensures regions { IfOk result (λ x. x.regions ≡ self.regions + 1) }
        ensures memory { IfErr result (λ e. IsMemory e) }
    {
        let regions = one_more(self.regions)?;
        let mut all = self.all;
        let mark = Item {
            attributes,
            pos,
            kind: ItemKind::Generate(RegionMark::Open),
        };
        add(&mut all, mark)?;
        Ok(Reading { all, regions })
    }

    pub(crate) fn with_front(self, front: Front) -> Result<Reading, Stop>
        requires formed { items.IsReading self }
        requires front { items.IsFront front }
        ensures formed { IfOk result (λ x. items.IsReading x) }
        ensures found { IfOk result (λ x. (start middle rest : List Token)
            → Spells (items.spell_reading self) start middle → Spells (items.spell_front front) middle rest
            → Spells (items.spell_reading x) start rest) }
        ensures goes { IfOk result (λ x. (outer : Ending) (room : ℕ) (ts : List Kind)
            → then (items.behind_front front room ts) (λ r. items.still self.regions outer room r)
            ≡ items.still x.regions outer room ts) }
        ensures memory { IfErr result (λ e. IsMemory e) }
    {
        match front {
            Front::Item(item) => {
                let reading = self.with_item(item)?;
                Ok(reading)
            }
            Front::Generate(attributes, pos) => {
                let reading = self.with_generate(attributes, pos)?;
                Ok(reading)
            }
        }
    }

    /// The region that was opened last ends, at the place.
    #[tactic(auto, using(crate::proofs::ItemsSpelled::items_spelled))]
    pub(crate) fn closed(self, alloc: Global, pos: Pos) -> Result<Reading, Stop>
        requires formed { items.IsReading self }
        requires within { 0 < self.regions }
        ensures formed { IfOk result (λ x. items.IsReading x) }
        ensures found { IfOk result (λ x. (start middle rest : List Token)
            → Spells (items.spell_reading self) start middle → BeginsAt pos middle
            → Spells (word Keyword.Endgenerate) middle rest → Spells (items.spell_reading x) start rest) }
        ensures regions { IfOk result (λ x. self.regions ≡ x.regions + 1) }
        ensures memory { IfErr result (λ e. IsMemory e) }
    {
        let mut all = self.all;
        add(
            &mut all,
            bare(alloc, pos, ItemKind::Generate(RegionMark::Close)),
        )?;
        Ok(Reading {
            all,
            regions: self.regions - 1,
        })
    }
}

/// The item with these attributes before it.
#[tactic(auto, using(crate::proofs::ItemsSpelled::shown_with))]
pub(crate) fn with_attributes(attributes: List<AttributeInstance>, item: Item) -> Item
    ensures { result ≡ items.with_attributes attributes item }
{
    Item {
        attributes,
        pos: item.pos,
        kind: item.kind,
    }
}
