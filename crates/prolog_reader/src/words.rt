//! Names that mean something to the reader.

ghost use Rattle.std.specs.Prelude.{◌≡◌, ◌≤◌, ◌+◌, ◌∷◌, [], ℕ, List, length, codes, IfOk, OnOk};
ghost use Rattle.prolog_operators.specs.Names.{Extends, IsNumber};
ghost use Rattle.prolog_reader.specs.Naming.{with_names, syntax_texts, word_texts};
ghost use Rattle.prolog_reader.specs.Knowing.{AreKnown, AreWords};
ghost use Rattle.prolog_reader.specs.Kinds.{kind_words, AreKinds};

use cti_terms::{Name, Names};
use prolog_terms::Known;
use std::alloc::AllocError;

/// The names that the syntax makes terms of, and those of an `op` clause.
#[derive(Clone, Copy, PartialEq, Eq)]
pub struct Words {
    pub known: Known,
    pub neck: Name,
    pub op: Name,
    pub xfx: Name,
    pub xfy: Name,
    pub yfx: Name,
    pub fx: Name,
    pub fy: Name,
    pub bar: Name,
}

/// The name of a text.
fn word(names: &mut Names, text: &[u8]) -> Result<Name, AllocError>
    requires { length names.old ≤ 4294967200 }
    ensures number { IfOk result (λ n. IsNumber names.new text.now n.0) }
    ensures added { OnOk result (names.new ≡ with_names names.old (text.now ∷ [])) }
    ensures kept { Extends names.old names.new }
    ensures few { length names.new ≤ length names.old + 1 }
{
    let name = names.intern(text)?;
    Ok(name)
}

/// Finds the names that the syntax itself makes terms of.
pub fn find_known(names: &mut Names) -> Result<Known, AllocError>
    requires { length names.old ≤ 4294967100 }
    ensures known { IfOk result (λ known. AreKnown names.new known) }
    ensures added { OnOk result (names.new ≡ with_names names.old syntax_texts) }
    ensures kept { Extends names.old names.new }
    ensures few { length names.new ≤ length names.old + 4 }
{
    let comma = word(names, b",")?;
    let nil = word(names, b"[]")?;
    let curly = word(names, b"{}")?;
    let cell = word(names, b".")?;
    Ok(Known {
        comma,
        nil,
        curly,
        cell,
    })
}

/// The names of the kinds of operators in an `op` clause.
#[derive(Clone, Copy, PartialEq, Eq)]
pub struct Kinds {
    pub xfx: Name,
    pub xfy: Name,
    pub yfx: Name,
    pub fx: Name,
    pub fy: Name,
}

/// Finds the names of the kinds of operators.
fn find_kinds(names: &mut Names) -> Result<Kinds, AllocError>
    requires { length names.old ≤ 4294967100 }
    ensures kinds { IfOk result (λ kinds. AreKinds names.new kinds) }
    ensures added { OnOk result (names.new ≡ with_names names.old kind_words) }
    ensures kept { Extends names.old names.new }
    ensures few { length names.new ≤ length names.old + 5 }
{
    let xfx = word(names, b"xfx")?;
    let xfy = word(names, b"xfy")?;
    let yfx = word(names, b"yfx")?;
    let fx = word(names, b"fx")?;
    let fy = word(names, b"fy")?;
    Ok(Kinds {
        xfx,
        xfy,
        yfx,
        fx,
        fy,
    })
}

/// Finds all these names.
pub fn find_words(names: &mut Names) -> Result<Words, AllocError>
    requires { length names.old ≤ 4294967050 }
    ensures words { IfOk result (λ words. AreWords names.new words) }
    ensures added { OnOk result (names.new ≡ with_names names.old word_texts) }
    ensures kept { Extends names.old names.new }
    ensures few { length names.new ≤ length names.old + 12 }
{
    let known = find_known(names)?;
    let neck = word(names, b":-")?;
    let op = word(names, b"op")?;
    let kinds = find_kinds(names)?;
    let bar = word(names, b"|")?;
    Ok(Words {
        known,
        neck,
        op,
        xfx: kinds.xfx,
        xfy: kinds.xfy,
        yfx: kinds.yfx,
        fx: kinds.fx,
        fy: kinds.fy,
        bar,
    })
}
