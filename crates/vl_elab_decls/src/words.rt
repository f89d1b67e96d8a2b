//! Classes of nets and variables, and the words of memories.
ghost use Rattle.std.specs.Prelude.{◌≡◌, ◌∷◌, [], IfOk};
ghost use Rattle.fv_bits.specs.Bits.{as_int};
ghost use Rattle.vl_mean.specs.Declarations as declarations;
ghost use Rattle.vl_elab_spec.specs.Meanings as meanings;
ghost use Rattle.vl_elab_decls.specs.Objects as spec;

use fv_text::Memory;
use std::alloc::Global;
use vl_elab_scope::{Names, value_of};
use vl_elab_spec::Role;
use vl_mean::widths::bound;
use vl_size::{Class, Own};
use vl_tree::{Attribute, AttributeInstance, DeclaredName, Expr, NetKind, Range};

fn class_of_attribute(class: Class, attribute: &Attribute) -> Class
    ensures { result ≡ declarations.class_of_attributes class (attribute.now ∷ []) }
{
    if attribute.name.is(b"anyseq") {
        return Class::EachCycle;
    }
    if attribute.name.is(b"anyconst") {
        return Class::Once;
    }
    class
}

fn class_of_instance(class: Class, all: &[Attribute]) -> Class
    ensures { result ≡ declarations.class_of_attributes class all.now }
{
    let mut class = class;
    let mut place = all.len();
    while place > 0 {
        place -= 1;
        class = class_of_attribute(class, &all[place]);
    }
    class
}

/// The class that attributes give to what stands behind them: of `anyseq` and `anyconst` the first counts. `class`: the
/// one that it has without them.
pub fn class_of_attributes(class: Class, all: &[AttributeInstance]) -> Class
    ensures { result ≡ declarations.class_of_attributes class (declarations.joined_attributes all.now) }
{
    let mut class = class;
    let mut place = all.len();
    while place > 0 {
        place -= 1;
        class = class_of_instance(class, all[place].attributes.as_slice());
    }
    class
}

pub(crate) fn class_of_kind(kind: NetKind) -> Class
    ensures { result ≡ declarations.class_of_kind kind }
{
    match kind {
        NetKind::Wire => Class::Net,
        NetKind::Reg => Class::Variable,
    }
}

pub(crate) fn role_of_kind(kind: NetKind) -> Role
    ensures { result ≡ meanings.role_of_kind kind }
{
    match kind {
        NetKind::Wire => Role::Net,
        NetKind::Reg => Role::Variable,
    }
}

/// A memory is of variables, without a value.
fn may_have_words(class: Class, words: &Option<Range>, value: &Option<Expr>) -> bool
    ensures { result ≡ meanings.may_have_words class words.now value.now }
{
    if words.is_none() {
        return true;
    }
    match class {
        Class::Variable => value.is_none(),
        Class::Clock | Class::Reset | Class::Input | Class::EachCycle | Class::Once | Class::Net =>
            false,
    }
}

fn pair_of(left: Own, right: Own) -> Option<(i64, i64)>
    ensures { let l = as_int left.width left.signed left.number in
        let r = as_int right.width right.signed right.number in
        result ≡ spec.pair_between l r }
{
    let left = bound(left)?;
    let right = bound(right)?;
    Some((left, right))
}

/// The bounds of a range. None exactly where they aren't constants of 32 signed bits.
fn known_pair(alloc: Global, range: &Range, names: &Names) -> Result<Option<(i64, i64)>, Memory>
    ensures { IfOk result (λ p. p ≡ spec.known_pair names.now range.now) }
{
    let left = value_of(alloc, &range.left, names)?;
    let right = value_of(alloc, &range.right, names)?;
    match left {
        None => Ok(None),
        Some(left) => match right {
            None => Ok(None),
            Some(right) => Ok(pair_of(left, right)),
        },
    }
}

/// The bounds of the words, of a memory. None exactly where they aren't known.
fn known_words(
    alloc: Global,
    words: &Option<Range>,
    names: &Names,
) -> Result<Option<Option<(i64, i64)>>, Memory>
    ensures { IfOk result (λ w. w ≡ spec.known_words names.now words.now) }
{
    match words {
        None => Ok(Some(None)),
        Some(range) => {
            let pair = known_pair(alloc, range, names)?;
            match pair {
                None => Ok(None),
                Some(pair) => Ok(Some(Some(pair))),
            }
        }
    }
}

/// The same of a declared name, which may be no memory where it isn't of variables or has a value.
pub(crate) fn words_if_known(
    alloc: Global,
    class: Class,
    name: &DeclaredName,
    names: &Names,
) -> Result<Option<Option<(i64, i64)>>, Memory>
    ensures { IfOk result (λ w. w ≡ spec.words_if_known names.now class name.now) }
{
    if !may_have_words(class, &name.words, &name.value) {
        return Ok(None);
    }
    known_words(alloc, &name.words, names)
}
