//! The parameters of a module that may be given a value, by name.
ghost use Rattle.std.specs.Prelude.{◌≡◌, ◌++◌, [], ℕ, List, Some, IfOk, OnOk, bytes_eq, slice_get};
ghost use Rattle.std.specs.Prelude.{if◌then◌else◌};
ghost use Rattle.std.specs.Option.{option_copied};
ghost use Rattle.vl_tree.specs.declared.declaration.HeaderParameter.{HeaderParameter as SpecHeader};
ghost use Rattle.vl_tree.specs.declared.declaration.Parameter.{Parameter as SpecParameter};
ghost use Rattle.vl_tree.specs.Item.{Item as SpecItem, items};
ghost use Rattle.vl_mean.specs.Declarations.{header_parameters};
ghost use Rattle.vl_mean.specs.Walk as walk;
ghost use Rattle.vl_elab_spec.specs.Items.{given_parameter, items_parameters, parameter_named};
ghost use Rattle.vl_elab_check_instance.specs.declared.parameters.Spot.TheVariants as s;
ghost use Rattle.vl_elab_check_instance.specs.Parameters as spec;

use fv_text::{List, Memory, Text};
use indexmap::IndexMap;
use std::alloc::Global;
use vl_tree::{HeaderParameter, Item, ItemKind, Module, Parameter, ParameterKind};

/// Where a parameter stands in its module.
#[derive(Clone, Copy)]
pub(crate) enum Spot {
    /// In the head.
    Header(usize),
    /// The item, and the parameter in it.
    Item(usize, usize),
}

/// The places of the parameters of a module that may be given a value, by name; the first of a name counts.
#[derive(Drop)]
pub struct ParameterTable {
    spots: IndexMap<Vec<u8>, Spot>,
}

impl ParameterTable {
    pub fn new(alloc: Global, module: &Module) -> Result<ParameterTable, Memory>
        ensures { IfOk result (λ table. spec.AreParametersOf table module.now) }
    {
        ParameterTable::of(
            alloc,
            header_of(&module.parameters),
            module.items.as_slice(),
        )
    }

    /// `headers`: the parameters of the head; `all`: the items.
    fn of(
        alloc: Global,
        headers: &[HeaderParameter],
        all: &[Item],
    ) -> Result<ParameterTable, Memory>
        ensures { IfOk result (λ table. spec.AreParameters table headers.now all.now) }
    {
        let mut table = ParameterTable {
            spots: IndexMap::new(alloc),
        };
        table.put_items(alloc, headers, all)?;
        table.put_headers(alloc, headers, all)?;
        Ok(table)
    }

    /// In place of one of the same name.
    fn put(&mut self, name: Text, spot: Spot) -> Result<(), Memory>
        ensures { OnOk result ((other : List ℕ) → spec.spot_in self.new other
            ≡ (if bytes_eq name other then Some spot else spec.spot_in self.old other)) }
    {
        let key = name.into_vec()?;
        self.spots.insert(key, spot)?;
        Ok(())
    }

    fn put_parameter(
        &mut self,
        alloc: Global,
        parameter: &Parameter,
        spot: Spot,
    ) -> Result<(), Memory>
        ensures { OnOk result ((other : List ℕ) → spec.spot_in self.new other
            ≡ (if bytes_eq parameter.now.name other then Some spot else spec.spot_in self.old other)) }
    {
        self.put(parameter.name.copied(alloc)?, spot)
    }

    /// The parameters of an item, before others.
    fn put_all(&mut self, alloc: Global, all: &[Parameter], place: usize) -> Result<(), Memory>
        ensures { OnOk result ((hs : List SpecHeader) (xs : List SpecItem) (ps : List SpecParameter)
            → ((i : ℕ) → spec.parameter_at hs xs (s.Item place i) ≡ slice_get all.now i)
            → spec.Finds self.old hs xs ps → spec.Finds self.new hs xs (all.now ++ ps)) }
    {
        let mut inner = all.len();
        while inner > 0 {
            inner -= 1;
            self.put_parameter(alloc, &all[inner], Spot::Item(place, inner))?;
        }
        Ok(())
    }

    fn put_item(&mut self, alloc: Global, item: &Item, place: usize) -> Result<(), Memory>
        ensures { OnOk result ((hs : List SpecHeader) (xs : List SpecItem) (ps : List SpecParameter)
            → slice_get xs place ≡ Some item.now
            → spec.Finds self.old hs xs ps → spec.Finds self.new hs xs (spec.given_of item.now ++ ps)) }
    {
        match &item.kind {
            ItemKind::Parameter(ParameterKind::Parameter, list) => {
                self.put_all(alloc, list.as_slice(), place)
            }
            ItemKind::Parameter(ParameterKind::Localparam, _) => Ok(()),
            ItemKind::Declaration(_) | ItemKind::Integer(_) | ItemKind::Genvar(_) => Ok(()),
            ItemKind::Assign(_) | ItemKind::Always(_, _) | ItemKind::Initial(_) => Ok(()),
            ItemKind::Instance(_) | ItemKind::Generate(_) | ItemKind::For(_, _) => Ok(()),
            ItemKind::If(_, _, None) | ItemKind::If(_, _, Some(_)) => Ok(()),
        }
    }

    fn put_items(
        &mut self,
        alloc: Global,
        headers: &[HeaderParameter],
        all: &[Item],
    ) -> Result<(), Memory>
        requires { spec.Finds self.old headers.now all.now [] }
        ensures { OnOk result (spec.Finds self.new headers.now all.now (items_parameters (items all.now))) }
    {
        let mut place = all.len();
        while place > 0 {
            place -= 1;
            self.put_item(alloc, &all[place], place)?;
        }
        Ok(())
    }

    fn put_header(
        &mut self,
        alloc: Global,
        header: &HeaderParameter,
        place: usize,
    ) -> Result<(), Memory>
        ensures { OnOk result ((other : List ℕ) → spec.spot_in self.new other
            ≡ (if bytes_eq header.now.parameter.name other then Some (s.Header place)
            else spec.spot_in self.old other)) }
    {
        self.put_parameter(alloc, &header.parameter, Spot::Header(place))
    }

    fn put_headers(
        &mut self,
        alloc: Global,
        headers: &[HeaderParameter],
        all: &[Item],
    ) -> Result<(), Memory>
        requires { spec.Finds self.old headers.now all.now (items_parameters (items all.now)) }
        ensures { OnOk result (spec.AreParameters self.new headers.now all.now) }
    {
        let mut place = headers.len();
        while place > 0 {
            place -= 1;
            self.put_header(alloc, &headers[place], place)?;
        }
        Ok(())
    }

    /// The parameter of this name that may be given a value. `module`: that of the table. None exactly where none has
    /// the name.
    pub fn find<'a>(&self, module: &'a Module, name: &Text) -> Option<&'a Parameter>
        requires { spec.AreParametersOf self.now module.now }
        ensures { option_copied result ≡ given_parameter module.now name.now }
    {
        self.find_in(header_of(&module.parameters), module.items.as_slice(), name)
    }

    fn find_in<'a>(
        &self,
        headers: &'a [HeaderParameter],
        all: &'a [Item],
        name: &Text,
    ) -> Option<&'a Parameter>
        requires { spec.AreParameters self.now headers.now all.now }
        ensures { option_copied result
            ≡ parameter_named (header_parameters headers.now ++ items_parameters (items all.now)) name.now }
    {
        match self.spots.get(name.bytes()) {
            None => None,
            Some(spot) => parameter_at(headers, all, *spot),
        }
    }
}

fn header_of(all: &Option<List<HeaderParameter>>) -> &[HeaderParameter]
    ensures { result.now ≡ walk.header_of all.now }
{
    match all {
        None => &[],
        Some(all) => all.as_slice(),
    }
}

fn parameter_in(item: &Item, inner: usize) -> Option<&Parameter>
    ensures { option_copied result ≡ spec.parameter_in (Some item.now) inner }
{
    match &item.kind {
        ItemKind::Parameter(_, list) => list.as_slice().get(inner),
        ItemKind::Declaration(_) | ItemKind::Integer(_) | ItemKind::Genvar(_) => None,
        ItemKind::Assign(_) | ItemKind::Always(_, _) | ItemKind::Initial(_) => None,
        ItemKind::Instance(_) | ItemKind::Generate(_) | ItemKind::For(_, _) => None,
        ItemKind::If(_, _, None) | ItemKind::If(_, _, Some(_)) => None,
    }
}

fn parameter_at<'a>(
    headers: &'a [HeaderParameter],
    all: &'a [Item],
    spot: Spot,
) -> Option<&'a Parameter>
    ensures { option_copied result ≡ spec.parameter_at headers.now all.now spot }
{
    match spot {
        Spot::Header(place) => match headers.get(place) {
            None => None,
            Some(header) => Some(&header.parameter),
        },
        Spot::Item(place, inner) => match all.get(place) {
            None => None,
            Some(item) => parameter_in(item, inner),
        },
    }
}
