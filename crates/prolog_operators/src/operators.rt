//! The operators in force.

ghost use Rattle.std.specs.Prelude.{◌≡◌, ◌≤◌, ◌<◌, ◌+◌, ◌-◌, ◌^◌, ℕ, List, None, length, map, option_map, IfOk, IfErr, OnOk, OnErr, Ok};
ghost use Rattle.prolog_operators.specs.Meanings.{infix_of, prefix_of, table_of};
ghost use Rattle.prolog_operators.specs.Names.{Extends, name_text};
ghost use Rattle.prolog_operators.specs.Texts.{with_names, clause_texts, comparison_texts, arithmetic_texts, operator_texts};
ghost use Rattle.prolog_operators.specs.Table.{no_operators, with_infix, with_prefix, infix_meaning, prefix_meaning, with_operator, with_texts, clause_operators, comparison_operators, arithmetic_operators, standard, priority_in, setting, IsCauseOf, is_reserved};

use crate::fault::OpFault;
use crate::kind::OpKind;
use crate::limits::MOST_PRIORITY;
use cti_terms::{Name, Names};
use std::alloc::{AllocError, Global};
use std::collections::BTreeMap;

/// An infix operator: its priority, and the greatest priorities that its sides may have.
#[derive(Clone, Copy, PartialEq, Eq)]
pub struct Infix {
    pub priority: u32,
    pub left: u32,
    pub right: u32,
}

/// A prefix operator: its priority, and the greatest priority that its operand may have.
#[derive(Clone, Copy, PartialEq, Eq)]
pub struct Prefix {
    pub priority: u32,
    pub right: u32,
}

/// The operators in force: each name has at most one infix and one prefix meaning. Contracts see the two meanings of
/// each name, `table_of`.
#[derive(Drop)]
pub struct Ops {
    infixes: BTreeMap<u32, Infix>,
    prefixes: BTreeMap<u32, Prefix>,
}

/// Whether a text names no operator: `,` and `|` and `[]` and `{}`.
fn is_reserved(text: &[u8]) -> bool
    ensures { result ≡ is_reserved text.now }
{
    text == b",".as_slice()
        || text == b"|".as_slice()
        || text == b"[]".as_slice()
        || text == b"{}".as_slice()
}

/// A priority from 0 to 1200.
pub fn priority_in(priority: i128) -> Option<u32>
    ensures { result ≡ priority_in priority }
{
    if priority < 0 || priority > MOST_PRIORITY as i128 {
        None
    } else {
        Some(priority as u32)
    }
}

impl Ops {
    /// The operators before the first clause of a text. The names that they need are put to `names`, which keeps all
    /// earlier ones also where memory runs out.
    ///
    /// Source: ISO/IEC 13211-1:1995, 6.3.4.4, in this project's profile.
    pub fn standard(alloc: Global, names: &mut Names) -> Result<Ops, AllocError>
        requires room { length names.old ≤ 4294967000 }
        ensures table { IfOk result (λ ops. (later : List (List ℕ)) → Extends names.new later
            → table_of ops ≡ standard later) }
        ensures added { OnOk result (names.new ≡ with_names names.old operator_texts) }
        ensures kept { Extends names.old names.new }
        ensures few { length names.new ≤ length names.old + 41 }
    {
        let mut ops = Ops::new(alloc);
        ops.set_clause_operators(names)?;
        ops.set_comparison_operators(names)?;
        ops.set_arithmetic_operators(names)?;
        Ok(ops)
    }

    /// Sets one infix or prefix meaning of a name that `names` gave, or removes it with priority 0. All other meanings
    /// stay, and after a refusal all do.
    ///
    /// The priority is tested before the name.
    ///
    /// Source: ISO/IEC 13211-1:1995, 8.14.3, in this project's profile.
    pub fn set(
        &mut self,
        priority: i128,
        kind: OpKind,
        name: Name,
        names: &Names,
    ) -> Result<(), OpFault>
        requires given { name.0 < length names.now }

        // What is set is one meaning of the name.
        ensures ok { OnOk result (setting (table_of self.old) priority kind name.0
            (name_text names.now name.0) ≡ Ok (table_of self.new)) }

        // A refusal has its cause and changes nothing.
        ensures refused { IfErr result
            (λ fault. IsCauseOf fault
            (setting (table_of self.old) priority kind name.0 (name_text names.now name.0))) }
        ensures err { OnErr result (table_of self.new ≡ table_of self.old) }
    {
        let priority = match priority_in(priority) {
            Some(priority) => priority,
            None => return Err(OpFault::BadPriority),
        };
        if is_reserved(names.text(name)) {
            return Err(OpFault::BadName);
        }
        self.put(priority, kind, name)?;
        Ok(())
    }

    /// No operators. It takes no memory.
    fn new(alloc: Global) -> Ops
        ensures { table_of result ≡ no_operators }
    {
        Ops {
            infixes: BTreeMap::new(alloc),
            prefixes: BTreeMap::new(alloc),
        }
    }

    /// The infix meaning of a name.
    pub fn infix(&self, name: Name) -> Option<Infix>
        ensures { option_map infix_of result ≡ (table_of self.now).infixes name.0 }
    {
        self.infixes.get(&name.0).copied()
    }

    /// The prefix meaning of a name.
    pub fn prefix(&self, name: Name) -> Option<Prefix>
        ensures { option_map prefix_of result ≡ (table_of self.now).prefixes name.0 }
    {
        self.prefixes.get(&name.0).copied()
    }

    /// Sets an infix meaning, or removes it with priority 0.
    fn put_infix(
        &mut self,
        name: Name,
        priority: u32,
        left: u32,
        right: u32,
    ) -> Result<(), AllocError>
        ensures ok { OnOk result (table_of self.new ≡ with_infix (table_of self.old) name.0
            (infix_meaning priority left right)) }
        ensures err { OnErr result (table_of self.new ≡ table_of self.old) }
    {
        if priority == 0 {
            self.infixes.remove(&name.0);
            return Ok(());
        }
        self.infixes.insert(
            name.0,
            Infix {
                priority,
                left,
                right,
            },
        )?;
        Ok(())
    }

    /// Sets a prefix meaning, or removes it with priority 0.
    fn put_prefix(&mut self, name: Name, priority: u32, right: u32) -> Result<(), AllocError>
        ensures ok { OnOk result (table_of self.new ≡ with_prefix (table_of self.old) name.0
            (prefix_meaning priority right)) }
        ensures err { OnErr result (table_of self.new ≡ table_of self.old) }
    {
        if priority == 0 {
            self.prefixes.remove(&name.0);
            return Ok(());
        }
        self.prefixes.insert(name.0, Prefix { priority, right })?;
        Ok(())
    }

    /// Sets one meaning of a name, or removes it with priority 0.
    pub fn put(&mut self, priority: u32, kind: OpKind, name: Name) -> Result<(), AllocError>
        ensures ok { OnOk result (table_of self.new
            ≡ with_operator (table_of self.old) priority kind name.0) }
        ensures err { OnErr result (table_of self.new ≡ table_of self.old) }
    {
        let below = priority.saturating_sub(1);
        match kind {
            OpKind::Xfx => self.put_infix(name, priority, below, below),
            OpKind::Xfy => self.put_infix(name, priority, below, priority),
            OpKind::Yfx => self.put_infix(name, priority, priority, below),
            OpKind::Fx => self.put_prefix(name, priority, below),
            OpKind::Fy => self.put_prefix(name, priority, priority),
        }
    }

    /// Sets one meaning of each of the names with these texts.
    fn put_texts(
        &mut self,
        names: &mut Names,
        texts: &[&str],
        priority: u32,
        kind: OpKind,
    ) -> Result<(), AllocError>
        requires room { length names.old + length texts.now ≤ 4294967200 }
        ensures ok { OnOk result ((later : List (List ℕ)) → Extends names.new later
            → table_of self.new ≡ with_texts later (table_of self.old) priority kind
            (map (λ t. t.now) texts.now)) }
        ensures added { OnOk result
            (names.new ≡ with_names names.old (map (λ t. t.now) texts.now)) }
        ensures kept { Extends names.old names.new }
        ensures few { length names.new ≤ length names.old + length texts.now }
    {
        'texts: for text in texts {
            let name = names.intern(text.as_bytes())?;
            self.put(priority, kind, name)?;
        }
        Ok(())
    }

    /// Operators of clauses and of control.
    fn set_clause_operators(&mut self, names: &mut Names) -> Result<(), AllocError>
        requires room { length names.old ≤ 4294967100 }
        ensures ok { OnOk result ((later : List (List ℕ)) → Extends names.new later
            → table_of self.new ≡ clause_operators later (table_of self.old)) }
        ensures added { OnOk result (names.new ≡ with_names names.old clause_texts) }
        ensures kept { Extends names.old names.new }
        ensures few { length names.new ≤ length names.old + 7 }
    {
        self.put_texts(names, &[":-", "-->"], 1200, OpKind::Xfx)?;
        self.put_texts(names, &[":-", "?-"], 1200, OpKind::Fx)?;
        self.put_texts(names, &[";"], 1100, OpKind::Xfy)?;
        self.put_texts(names, &["->"], 1050, OpKind::Xfy)?;
        self.put_texts(names, &["\\+"], 900, OpKind::Fy)?;
        Ok(())
    }

    /// Operators of comparison.
    fn set_comparison_operators(&mut self, names: &mut Names) -> Result<(), AllocError>
        requires room { length names.old ≤ 4294967100 }
        ensures ok { OnOk result ((later : List (List ℕ)) → Extends names.new later
            → table_of self.new ≡ comparison_operators later (table_of self.old)) }
        ensures added { OnOk result (names.new ≡ with_names names.old comparison_texts) }
        ensures kept { Extends names.old names.new }
        ensures few { length names.new ≤ length names.old + 16 }
    {
        self.put_texts(
            names,
            &["=", "\\=", "==", "\\==", "@<", "@=<", "@>", "@>="],
            700,
            OpKind::Xfx,
        )?;
        self.put_texts(
            names,
            &["=..", "is", "=:=", "=\\=", "<", "=<", ">", ">="],
            700,
            OpKind::Xfx,
        )?;
        Ok(())
    }

    /// Operators of arithmetic.
    fn set_arithmetic_operators(&mut self, names: &mut Names) -> Result<(), AllocError>
        requires room { length names.old ≤ 4294967100 }
        ensures ok { OnOk result ((later : List (List ℕ)) → Extends names.new later
            → table_of self.new ≡ arithmetic_operators later (table_of self.old)) }
        ensures added { OnOk result (names.new ≡ with_names names.old arithmetic_texts) }
        ensures kept { Extends names.old names.new }
        ensures few { length names.new ≤ length names.old + 15 }
    {
        self.put_texts(names, &["+", "-", "/\\", "\\/"], 500, OpKind::Yfx)?;
        self.put_texts(
            names,
            &["*", "/", "//", "rem", "mod", "<<", ">>"],
            400,
            OpKind::Yfx,
        )?;
        self.put_texts(names, &["**"], 200, OpKind::Xfx)?;
        self.put_texts(names, &["^"], 200, OpKind::Xfy)?;
        self.put_texts(names, &["-", "\\"], 200, OpKind::Fy)?;
        Ok(())
    }
}
