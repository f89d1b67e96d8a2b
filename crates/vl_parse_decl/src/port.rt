//! Ports and parameters of a module's head (IEEE 1364-2005, sections 12.1 to 12.3 and A.1.3).

ghost use Rattle.std.specs.Prelude.{
  ◌≡◌,
  ◌<◌,
  ◌≤◌,
  ℕ,
  Ok,
  true,
  length,
  IfOk,
  IfSome,
  IsNone,
  [],
  ◌∷◌,
};
ghost use Rattle.fv_text.specs.declared.kind.Kind.TheVariants as k;
ghost use Rattle.vl_tree.specs.Phrase.{Spells, word, sign, parens, between_commas, ◌▸◌};
ghost use Rattle.vl_tree.specs.DeclarationSpelling as spec;
ghost use Rattle.vl_tree.specs.DeclarationWellFormed as formed;
ghost use Rattle.vl_tree.specs.ItemSpelling.{spell_parameters, spell_ports};
ghost use Rattle.vl_tree.specs.WellFormed.{AreOptionalParameters, AreOptionalPorts};
ghost use Rattle.vl_parse_grammar.specs.Machine.{then};
ghost use Rattle.fv_text.specs.declared.symbol.Symbol.TheVariants as s;
ghost use Rattle.vl_parse_grammar.specs.Grammar as grammar;
ghost use Rattle.vl_parse_cursor.specs.Goes.{Goes};
ghost use Rattle.vl_parse_cursor.specs.Next.{kinds_in, IsOther};

use crate::attribute::{Before, read_attributes, read_named_value, read_value};
use crate::declaration::read_shape;
use crate::list::{Element, read_list_behind};
use fv_text::{Keyword, List, Symbol, Token};
use std::alloc::Global;
use vl_parse_cursor::{
    Stop, enter, first_place, past_name, past_sign, past_word, read_sign, read_word,
};
use vl_tree::{Direction, FullPort, HeaderParameter, NetKind, Parameter, Port, PortKind};

impl Element for HeaderParameter {
    ghost use Rattle.vl_tree.specs.DeclarationSpelling.{spell_header_parameter};
    ghost use Rattle.vl_tree.specs.DeclarationWellFormed.{IsHeaderParameter};

    ghost phrase = { spell_header_parameter };

    ghost fits = { IsHeaderParameter };

    ghost rules = { grammar.optional_parameter ∷ grammar.parameter };

    ghost tail = { grammar.more_header_parameters };

    ghost closing = { s.CloseParen };

    #[tactic(auto, using(crate::specs::Tails::tails, crate::proofs::DeclarationRows::basics))]
    fn read(
        alloc: Global,
        room: u32,
        tokens: &[Token],
    ) -> Result<(HeaderParameter, &[Token]), Stop> {
        let (keyword, rest) = read_keyword(tokens);
        let (parameter, rest) = Parameter::read(alloc, room, rest)?;
        Ok((HeaderParameter { keyword, parameter }, rest))
    }

    ghost use Rattle.vl_parse_decl.specs.Tails.{more_header_parameters_comma_all, more_header_parameters_ending};

    ghost comma = { more_header_parameters_comma_all };

    ghost ending = { more_header_parameters_ending };
}

#[tactic(auto, using(crate::proofs::DeclarationRows::of_optional_parameter, crate::proofs::DeclarationRows::basics))]
fn read_keyword(tokens: &[Token]) -> (bool, &[Token])
    ensures found { Spells (spec.spell_if result.0 Keyword.Parameter) tokens.now result.1.now }
    ensures shorter { length result.1.now ≤ length tokens.now }
    ensures goes { (room : ℕ) → grammar.read grammar.optional_parameter room (kinds_in tokens.now)
        ≡ Ok (kinds_in result.1.now) }
{
    match past_word(Keyword::Parameter, tokens) {
        Some(rest) => (true, rest),
        None => (false, tokens),
    }
}

/// `parameter` and the first one behind it.
#[tactic(auto, using(crate::proofs::DeclarationRows::of_the_parameter, crate::specs::Tails::tails, crate::proofs::DeclarationRows::basics))]
fn read_first_parameter(
    alloc: Global,
    room: u32,
    tokens: &[Token],
) -> Result<(HeaderParameter, &[Token]), Stop>
    ensures keyword { IfOk result (λ x. x.0.keyword ≡ true) }
    ensures found { IfOk result (λ x. Spells (spec.spell_header_parameter x.0) tokens.now x.1.now) }
    ensures formed { IfOk result (λ x. formed.IsHeaderParameter x.0) }
    ensures shorter { IfOk result (λ x. length x.1.now < length tokens.now) }
    ensures goes { Goes (λ x. Ok (kinds_in x.1.now)) result
        (then (grammar.read grammar.the_parameter room (kinds_in tokens.now))
        (λ r. grammar.read_all grammar.parameter room r)) }
{
    let rest = read_word(Keyword::Parameter, tokens)?;
    let (parameter, rest) = Parameter::read(alloc, room, rest)?;
    Ok((
        HeaderParameter {
            keyword: true,
            parameter,
        },
        rest,
    ))
}

/// `#(parameter first = 1, second = 2)`, where it is there.
#[tactic(auto, using(crate::proofs::DeclarationRows::of_module_head, crate::proofs::DeclarationRows::basics))]
pub fn read_parameters(
    alloc: Global,
    room: u32,
    tokens: &[Token],
) -> Result<(Option<List<HeaderParameter>>, &[Token]), Stop>
    ensures found { IfOk result (λ x. Spells (spell_parameters x.0) tokens.now x.1.now) }
    ensures formed { IfOk result (λ x. AreOptionalParameters x.0) }
    ensures shorter { IfOk result (λ x. length x.1.now ≤ length tokens.now) }
    ensures goes { Goes (λ x. grammar.read grammar.module_ports room (kinds_in x.1.now)) result
        (grammar.read grammar.module_head room (kinds_in tokens.now)) }
{
    match past_sign(Symbol::Hash, tokens) {
        None => Ok((None, tokens)),
        Some(bracket) => {
            let (all, rest) = read_bracket(alloc, room, bracket)?;
            Ok((Some(all), rest))
        }
    }
}

/// Parameters in brackets.
#[tactic(auto, using(crate::proofs::HeadSpelled::in_brackets, crate::proofs::PortLaws::of_header, crate::proofs::DeclarationRows::basics))]
fn read_bracket(
    alloc: Global,
    room: u32,
    tokens: &[Token],
) -> Result<(List<HeaderParameter>, &[Token]), Stop>
    ensures found { IfOk result (λ x. Spells
        (parens (between_commas spec.spell_header_parameter x.0)) tokens.now x.1.now) }
    ensures formed { IfOk result (λ x. formed.AreHeaderParameters x.0) }
    ensures shorter { IfOk result (λ x. length x.1.now < length tokens.now) }
    ensures goes { Goes (λ x. Ok (kinds_in x.1.now)) result
        (grammar.read grammar.header_parameters room (kinds_in tokens.now)) }
{
    let rest = read_sign(Symbol::OpenParen, tokens)?;
    let inside = enter(room, tokens)?;
    read_parameters_inside(alloc, inside, rest)
}

/// Parameters up to the closing bracket. `parameter` stands before the first one.
#[tactic(auto, using(crate::proofs::PortLaws::port_laws))]
fn read_parameters_inside(
    alloc: Global,
    room: u32,
    tokens: &[Token],
) -> Result<(List<HeaderParameter>, &[Token]), Stop>
    ensures found { IfOk result (λ x. Spells
        (between_commas spec.spell_header_parameter x.0 ▸ sign Symbol.CloseParen) tokens.now x.1.now) }
    ensures formed { IfOk result (λ x. formed.AreHeaderParameters x.0) }
    ensures shorter { IfOk result (λ x. length x.1.now < length tokens.now) }
    ensures goes { Goes (λ x. Ok (kinds_in x.1.now)) result
        (then (then (grammar.read grammar.the_parameter room (kinds_in tokens.now))
        (λ r. grammar.read_all grammar.parameter room r)) (λ q. grammar.read grammar.more_header_parameters room q)) }
{
    let (first, rest) = read_first_parameter(alloc, room, tokens)?;
    read_list_behind(alloc, room, Symbol::CloseParen, first, rest)
}

#[tactic(auto, using(crate::proofs::DeclarationRows::of_full_port, crate::proofs::DeclarationRows::basics))]
fn read_direction(tokens: &[Token]) -> Result<(Direction, &[Token]), Stop>
    requires { IsOther (k.Symbol Symbol.OpenAttribute) (kinds_in tokens.now) }
    ensures found { IfOk result (λ x. Spells (word (spec.direction_word x.0)) tokens.now x.1.now) }
    ensures shorter { IfOk result (λ x. length x.1.now < length tokens.now) }
    ensures goes { (room : ℕ) → Goes (λ x. then (grammar.read grammar.net room (kinds_in x.1.now))
        (λ r. then (grammar.read grammar.shape room r)
        (λ q. then (grammar.read grammar.name room q) (λ u. grammar.read grammar.value room u)))) result
        (grammar.read grammar.full_port room (kinds_in tokens.now)) }
{
    if let Some(rest) = past_word(Keyword::Input, tokens) {
        return Ok((Direction::Input, rest));
    }
    match past_word(Keyword::Output, tokens) {
        Some(rest) => Ok((Direction::Output, rest)),
        None => Err(Stop::Wrong(tokens.len())),
    }
}

#[tactic(auto, using(crate::proofs::DeclarationRows::of_net, crate::proofs::DeclarationRows::basics))]
fn read_net(tokens: &[Token]) -> (Option<NetKind>, &[Token])
    ensures found { Spells (spec.spell_net result.0) tokens.now result.1.now }
    ensures shorter { length result.1.now ≤ length tokens.now }
    ensures goes { (room : ℕ) → grammar.read grammar.net room (kinds_in tokens.now) ≡ Ok (kinds_in result.1.now) }
{
    if let Some(rest) = past_word(Keyword::Wire, tokens) {
        return (Some(NetKind::Wire), rest);
    }
    match past_word(Keyword::Reg, tokens) {
        Some(rest) => (Some(NetKind::Reg), rest),
        None => (None, tokens),
    }
}

/// A port with its direction.
#[tactic(auto, using(crate::proofs::PortLaws::of_ports, crate::proofs::DeclarationRows::basics))]
fn read_full_port(alloc: Global, room: u32, tokens: &[Token]) -> Result<(Port, &[Token]), Stop>
    ensures found { IfOk result (λ x. Spells (spec.spell_port x.0) tokens.now x.1.now) }
    ensures formed { IfOk result (λ x. formed.IsPort x.0) }
    ensures shorter { IfOk result (λ x. length x.1.now < length tokens.now) }
    ensures full { IfOk result (λ x. formed.IsFull x.0.kind) }
    ensures goes { Goes (λ x. Ok (kinds_in x.1.now)) result
        (grammar.read grammar.full_port room (kinds_in tokens.now)) }
{
    let (attributes, tokens) = read_attributes(alloc, Before::Port, room, tokens)?;
    let pos = first_place(tokens)?;
    let (direction, rest) = read_direction(tokens)?;
    let (net, rest) = read_net(rest);
    let (shape, rest) = read_shape(alloc, room, rest)?;
    let name_pos = first_place(rest)?;
    let (name, value, rest) = read_named_value(alloc, room, rest)?;
    let port = FullPort {
        attributes,
        direction,
        net,
        shape,
        name,
        name_pos,
        value,
    };
    Ok((
        Port {
            pos,
            kind: PortKind::Full(port),
        },
        rest,
    ))
}

impl Element for Port {
    ghost use Rattle.vl_tree.specs.DeclarationSpelling.{spell_port};
    ghost use Rattle.vl_tree.specs.DeclarationWellFormed.{IsPort};

    ghost phrase = { spell_port };

    ghost fits = { IsPort };

    ghost rules = { grammar.port ∷ [] };

    ghost tail = { grammar.more_ports };

    ghost closing = { s.CloseParen };

    #[tactic(auto, using(crate::proofs::PortLaws::of_ports, crate::proofs::DeclarationRows::of_port, crate::specs::Tails::tails, crate::proofs::DeclarationRows::basics))]
    fn read(alloc: Global, room: u32, tokens: &[Token]) -> Result<(Port, &[Token]), Stop> {
        let pos = first_place(tokens)?;
        match past_name(alloc, tokens)? {
            None => read_full_port(alloc, room, tokens),
            Some((name, rest)) => {
                let (value, rest) = read_value(alloc, room, rest)?;
                let kind = PortKind::Short(name, value);
                Ok((Port { pos, kind }, rest))
            }
        }
    }

    ghost use Rattle.vl_parse_decl.specs.Tails.{more_ports_comma_all, more_ports_ending};

    ghost comma = { more_ports_comma_all };

    ghost ending = { more_ports_ending };
}

/// `(port, port)`, where it is there, and the semicolon.
#[tactic(auto, using(crate::proofs::HeadSpelled::in_brackets, crate::proofs::DeclarationRows::of_module_ports, crate::proofs::DeclarationRows::basics))]
pub fn read_ports(
    alloc: Global,
    room: u32,
    tokens: &[Token],
) -> Result<(Option<List<Port>>, &[Token]), Stop>
    ensures found { IfOk result (λ x. Spells (spell_ports x.0 ▸ sign Symbol.Semicolon) tokens.now x.1.now) }
    ensures formed { IfOk result (λ x. AreOptionalPorts x.0) }
    ensures shorter { IfOk result (λ x. length x.1.now < length tokens.now) }
    ensures goes { Goes (λ x. Ok (kinds_in x.1.now)) result
        (grammar.read grammar.module_ports room (kinds_in tokens.now)) }
{
    match past_sign(Symbol::OpenParen, tokens) {
        None => {
            let rest = read_sign(Symbol::Semicolon, tokens)?;
            Ok((None, rest))
        }
        Some(rest) => {
            let inside = enter(room, tokens)?;
            let (all, rest) = read_ports_inside(alloc, inside, rest)?;
            let rest = read_sign(Symbol::Semicolon, rest)?;
            Ok((Some(all), rest))
        }
    }
}

/// Ports up to the closing bracket. The first one has its direction.
#[tactic(auto, using(crate::proofs::PortLaws::port_laws, crate::proofs::DeclarationRows::of_first_port, crate::specs::Tails::tails, crate::proofs::DeclarationRows::basics))]
fn read_ports_inside(
    alloc: Global,
    room: u32,
    tokens: &[Token],
) -> Result<(List<Port>, &[Token]), Stop>
    ensures found { IfOk result (λ x. Spells
        (between_commas spec.spell_port x.0 ▸ sign Symbol.CloseParen) tokens.now x.1.now) }
    ensures formed { IfOk result (λ x. formed.ArePorts x.0) }
    ensures shorter { IfOk result (λ x. length x.1.now < length tokens.now) }
    ensures goes { Goes (λ x. Ok (kinds_in x.1.now)) result
        (grammar.read grammar.first_port room (kinds_in tokens.now)) }
{
    match past_sign(Symbol::CloseParen, tokens) {
        Some(rest) => Ok((List::new(alloc), rest)),
        None => {
            let (first, rest) = read_full_port(alloc, room, tokens)?;
            read_list_behind(alloc, room, Symbol::CloseParen, first, rest)
        }
    }
}
