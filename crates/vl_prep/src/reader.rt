//! Reading texts, token by token.

ghost use Rattle.std.specs.Prelude.{◌≡◌, ◌<◌, Some, Ok, Err, IfOk, IfErr, OnOk, MatchResult};
ghost use Rattle.vl_prep.specs.Faults.{OnNotMemory};
ghost use Rattle.vl_prep.specs.Groups.{IsPreprocessed, IsRefused};
ghost use Rattle.vl_prep.specs.Macros.{held};
ghost use Rattle.vl_prep.specs.Places.{IsPlaced, IsPlacedFault};
ghost use Rattle.vl_prep.specs.declared.reading.Reading.TheVariants as reading;
ghost use Rattle.vl_prep.specs.Prep as specs;
ghost use Rattle.vl_prep.specs.Stands.{done_of, stand_of, Goes, KeepsFresh, OnOkFresh};

use crate::directive::Directive;
use crate::fault::PrepFault;
use crate::macros::Macros;
use crate::opens::Opens;
use crate::prepared::Prepared;
use crate::reading::{Body, Reading, on_line};
use crate::refusal::Cause;
use crate::scope::{Scope, Site};
use crate::steps::Use;
use fv_text::{Kind, List, Memory, Pos, Text, Token};
use std::alloc::Global;

/// How many uses of macros may stand within one another.
const LEVELS: u32 = 32;

/// The tokens of the chosen groups, each use of a macro replaced by what its text comes to there, and the macros that
/// are defined at the end (IEEE 1364-2005, clause 19). A token from a macro has the place of the outermost use.
///
/// Reading goes on behind what is refused. Of all refusals the one at the least place is answered, by file, line and
/// column, and at one place the one with the lowest number: the first in the order of `PrepFault`.

#[tactic(auto, using(crate::proofs::Whole::groups_of, crate::proofs::Whole::refusal_of, crate::proofs::Places::placed_output, crate::proofs::Places::placed_fault))]
pub fn prep(
    alloc: Global,
    macros: Macros,
    tokens: &[Token],
) -> Result<(Vec<Token>, Macros), PrepFault>
    ensures groups { IfOk result (λ r. IsPreprocessed (held macros) tokens.now
        (record { macros = held r.1; output = r.0.items })) }
    ensures refused { IfErr result (λ f. OnNotMemory f (IsRefused (held macros) tokens.now f)) }
    ensures exactly { MatchResult result
        (λ r. specs.preprocessed (held macros) tokens.now ≡ Ok (record { macros = held r.1; output = r.0.items }))
        (λ f. OnNotMemory f (specs.preprocessed (held macros) tokens.now ≡ Err f)) }
    ensures placed { MatchResult result (λ r. IsPlaced tokens.now r.0.items) (λ f. IsPlacedFault tokens.now f) }
{
    let mut prepared = Prepared::new(alloc, macros);
    let site = Site {
        at: None,
        levels: LEVELS,
    };
    read_text(&mut prepared, site, tokens)?;
    let Prepared {
        macros,
        output,
        refusal,
        ..
    } = prepared;
    match refusal {
        Some(refusal) => Err(refusal.into_fault()),
        None => Ok((output.into_vec(), macros)),
    }
}

#[cycle(read)]
fn read_text(prepared: &mut Prepared, site: Site, text: &[Token]) -> Result<(), Memory>
    ensures comes { OnOk result (done_of prepared.new
        ≡ specs.read_from site.at (specs.expand site.levels) (specs.started (done_of prepared.old)) text.now) }
    ensures fresh { OnOkFresh result prepared.old prepared.new }
{
    let mut scope = Scope::new(prepared.alloc);
    for token in text {
        read_token(prepared, &mut scope, site, token)?;
    }
    end_text(prepared, scope, site)
}

fn end_text(prepared: &mut Prepared, scope: Scope, site: Site) -> Result<(), Memory>
    ensures comes { OnOk result (done_of prepared.new
        ≡ specs.at_end site.at (stand_of (done_of prepared.old) scope)) }
    ensures fresh { OnOkFresh result prepared.old prepared.new }
{
    let Scope { opens, reading } = scope;
    match reading {
        Reading::Named(_, pos) => prepared.refuse(site.place(pos), Cause::NoName),
        Reading::Body(body) => prepared.define(body.name, body.tokens)?,
        _ => {}
    }
    refuse_opens(prepared, opens);
    Ok(())
}

/// The conditionals that are open at the end of a text have no partners.
#[tactic(auto, using(crate::proofs::Ended::one_less, crate::proofs::Ended::one_refused, crate::proofs::Ended::none_refused))]
fn refuse_opens(prepared: &mut Prepared, opens: Opens)
    ensures refused { done_of prepared.new ≡ specs.all_refused opens (done_of prepared.old) }
    ensures fresh { KeepsFresh prepared.old prepared.new }
{
    let mut opens = opens;
    while let Some(place) = opens.close() {
        prepared.refuse(place, Cause::UnbalancedIf);
    }
}

#[cycle(read)]
fn read_token(
    prepared: &mut Prepared,
    scope: &mut Scope,
    site: Site,
    token: &Token,
) -> Result<(), Memory>
    ensures goes { Goes (specs.at_token site.at (specs.expand site.levels)
        (stand_of (done_of prepared.old) scope.old) token.now scope.old.reading) result prepared.new scope.new }
    ensures fresh { OnOkFresh result prepared.old prepared.new }
{
    match scope.take_reading() {
        Reading::Plain => read_plain(prepared, scope, site, token),
        Reading::Named(directive, pos) => read_name(prepared, scope, site, (directive, pos), token),
        Reading::Body(body) => read_body(prepared, scope, site, body, token),
        Reading::Dropped(pos) => {
            if on_line(pos, token.pos) {
                scope.reading = Reading::Dropped(pos);
                return Ok(());
            }
            read_plain(prepared, scope, site, token)
        }
    }
}

/// Behind a directive that needs a name.
#[cycle(read)]
fn read_name(
    prepared: &mut Prepared,
    scope: &mut Scope,
    site: Site,
    begun: (Directive, Pos),
    token: &Token,
) -> Result<(), Memory>
    requires { scope.old.reading ≡ reading.Plain }
    ensures goes { Goes (specs.at_named site.at (specs.expand site.levels)
        (stand_of (done_of prepared.old) scope.old) begun.0 begun.1 token.now token.now.kind) result prepared.new
        scope.new }
    ensures fresh { OnOkFresh result prepared.old prepared.new }
{
    match &token.kind {
        Kind::Name(name) if on_line(begun.1, token.pos) => {
            do_named(prepared, scope, site, begun, name, token.pos)
        }
        _ => {
            prepared.refuse(site.place(begun.1), Cause::NoName);
            read_plain(prepared, scope, site, token)
        }
    }
}

/// The directive with its name, and the name's place.
fn do_named(
    prepared: &mut Prepared,
    scope: &mut Scope,
    site: Site,
    begun: (Directive, Pos),
    name: &Text,
    pos: Pos,
) -> Result<(), Memory>
    requires { scope.old.reading ≡ reading.Plain }
    ensures goes { Goes (specs.named site.at
        (stand_of (done_of prepared.old) scope.old) begun.0 begun.1 name.now pos) result prepared.new scope.new }
    ensures fresh { OnOkFresh result prepared.old prepared.new }
{
    match begun.0 {
        Directive::Define => {
            scope.reading = Reading::Body(Body {
                name: name.copied(prepared.alloc)?,
                pos,
                line: pos.line,
                tokens: List::new(prepared.alloc),
            });
        }
        Directive::Undef => prepared.undefine(name)?,
        Directive::ElseIf => scope
            .opens
            .turn(false, prepared.macros.is_defined(name.bytes())),
        Directive::IfNotDef => {
            let decided = !prepared.macros.is_defined(name.bytes());
            scope.opens.open(site.place(begun.1), decided)?;
        }
        _ => {
            let decided = prepared.macros.is_defined(name.bytes());
            scope.opens.open(site.place(begun.1), decided)?;
        }
    }
    Ok(())
}

/// In a macro's text, which ends with its line.
#[cycle(read)]
fn read_body(
    prepared: &mut Prepared,
    scope: &mut Scope,
    site: Site,
    body: Body,
    token: &Token,
) -> Result<(), Memory>
    requires { scope.old.reading ≡ reading.Plain }
    ensures goes { Goes (specs.at_token site.at (specs.expand site.levels)
        (stand_of (done_of prepared.old) scope.old) token.now (reading.Body body)) result prepared.new scope.new }
    ensures fresh { OnOkFresh result prepared.old prepared.new }
{
    if !body.goes_on(token.pos) {
        prepared.define(body.name, body.tokens)?;
        return read_plain(prepared, scope, site, token);
    }
    if body.has_bracket(token) {
        prepared.refuse(site.place(token.pos), Cause::MacroArgs);
    }
    scope.reading = Reading::Body(body.with(prepared.alloc, token)?);
    Ok(())
}

/// Where nothing is begun.
#[cycle(read)]
fn read_plain(
    prepared: &mut Prepared,
    scope: &mut Scope,
    site: Site,
    token: &Token,
) -> Result<(), Memory>
    requires { scope.old.reading ≡ reading.Plain }
    ensures goes { Goes (specs.at_plain site.at (specs.expand site.levels)
        (stand_of (done_of prepared.old) scope.old) token.now token.now.kind) result prepared.new scope.new }
    ensures fresh { OnOkFresh result prepared.old prepared.new }
{
    match &token.kind {
        Kind::Tick(name) => match Directive::of_text(name.bytes()) {
            Some(directive) => {
                do_directive(prepared, scope, site, directive, token.pos);
                Ok(())
            }
            None => read_use(prepared, scope, site, name, token.pos),
        },
        Kind::Continue => Ok(()),
        _ => put_token(prepared, scope, site, token),
    }
}

fn do_directive(
    prepared: &mut Prepared,
    scope: &mut Scope,
    site: Site,
    directive: Directive,
    pos: Pos,
)
    requires { scope.old.reading ≡ reading.Plain }
    ensures goes { stand_of (done_of prepared.new) scope.new
        ≡ specs.at_directive site.at (stand_of (done_of prepared.old) scope.old) directive pos }
    ensures fresh { KeepsFresh prepared.old prepared.new }
{
    match directive {
        Directive::IfDef | Directive::IfNotDef => scope.reading = Reading::Named(directive, pos),
        Directive::ElseIf if scope.opens.can_turn() => scope.reading = Reading::Named(
            directive, pos,
        ),
        Directive::Else if scope.opens.can_turn() => scope.opens.turn(true, true),
        Directive::ElseIf | Directive::Else => {
            prepared.refuse(site.place(pos), Cause::UnbalancedIf);
        }
        Directive::EndIf => {
            if scope.opens.close().is_none() {
                prepared.refuse(site.place(pos), Cause::UnbalancedIf);
            }
        }
        _ => {
            if scope.opens.are_chosen() {
                do_chosen(prepared, scope, site, directive, pos);
            }
        }
    }
}

/// The directives that count in chosen groups alone.
fn do_chosen(prepared: &mut Prepared, scope: &mut Scope, site: Site, directive: Directive, pos: Pos)
    requires { scope.old.reading ≡ reading.Plain }
    ensures goes { stand_of (done_of prepared.new) scope.new
        ≡ specs.in_chosen site.at (stand_of (done_of prepared.old) scope.old) directive pos }
    ensures fresh { KeepsFresh prepared.old prepared.new }
{
    match directive {
        Directive::Define | Directive::Undef => scope.reading = Reading::Named(directive, pos),
        Directive::Include => prepared.refuse(site.place(pos), Cause::Include),
        _ => scope.reading = Reading::Dropped(pos),
    }
}

fn put_token(
    prepared: &mut Prepared,
    scope: &Scope,
    site: Site,
    token: &Token,
) -> Result<(), Memory>
    requires { scope.now.reading ≡ reading.Plain }
    ensures goes { Goes (specs.put_chosen site.at
        (stand_of (done_of prepared.old) scope.now) token.now) result prepared.new scope.now }
    ensures fresh { OnOkFresh result prepared.old prepared.new }
{
    if scope.opens.are_chosen() {
        prepared.put(token, site.place(token.pos))?;
    }
    Ok(())
}

/// The use of a macro, for which its text stands.
#[cycle(read)]
#[tactic(auto, using(crate::proofs::Uses::too_deep))]
fn read_use(
    prepared: &mut Prepared,
    scope: &Scope,
    site: Site,
    name: &Text,
    pos: Pos,
) -> Result<(), Memory>
    requires { scope.now.reading ≡ reading.Plain }
    ensures goes { Goes (specs.at_use site.at (specs.expand site.levels)
        (stand_of (done_of prepared.old) scope.now) name.now pos) result prepared.new scope.now }
    ensures fresh { OnOkFresh result prepared.old prepared.new }
{
    if !scope.opens.are_chosen() {
        return Ok(());
    }
    let place = site.place(pos);
    match prepared.text_at_use(name.bytes(), place, site.levels)? {
        Use::Text(text) => read_macro(prepared, site.levels, name, place, text.as_slice()),
        Use::Unknown => {
            let name = name.copied(prepared.alloc)?;
            prepared.refuse(place, Cause::UnknownMacro(name));
            Ok(())
        }
        Use::TooDeep => {
            prepared.refuse(place, Cause::MacroDepth);
            Ok(())
        }
        Use::Quiet => Ok(()),
    }
}

/// The text of a macro, which is used at a place.
#[cycle(read)]
#[tactic(auto, using(crate::proofs::Uses::one_level, crate::proofs::Uses::quiet_use))]
fn read_macro(
    prepared: &mut Prepared,
    levels: u32,
    name: &Text,
    place: Pos,
    text: &[Token],
) -> Result<(), Memory>
    requires held { held prepared.old.macros name.now ≡ Some text.now }
    requires levels { 0 < levels }
    ensures comes { OnOk result (done_of prepared.new ≡ specs.expand levels place text.now (done_of prepared.old)) }
    ensures fresh { OnOkFresh result prepared.old prepared.new }
{
    let fresh = prepared.fresh;
    prepared.fresh = true;
    let inner = Site {
        at: Some(place),
        levels: levels - 1,
    };
    read_text(prepared, inner, text)?;
    prepared.note_use(name, place, levels, fresh)?;
    Ok(())
}
