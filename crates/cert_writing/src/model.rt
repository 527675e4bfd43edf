//! The facts of modes, size rows with their proofs, and ground rows.

ghost use Rattle.std.specs.Prelude.{◌≡◌, ◌++◌, OnOk};
ghost use Rattle.cert_writing.specs.Written.{model_facts};

use crate::ground_rows::WrittenGrounds;
use crate::modes::WrittenModes;
use crate::shared_facts::FromShared;
use crate::size_rows::{WrittenProofs, WrittenSizes};
use crate::writer::write_each;
use bool_diagrams::Cube;
use cti_terms::{Names, Program};
use linear_rows::{Multipliers, Rows};
use sequences::Sequence;
use std::alloc::{AllocError, Global};

/// What a certificate of either kind says of predicates and clauses before it comes to mappings, or to lists.
#[derive(Clone, Copy, Drop)]
pub struct WrittenModel<'a> {
    /// The modes of each predicate, each a list of argument numbers.
    pub modes: &'a [Sequence<Sequence<u32>>],
    /// The size rows of each predicate.
    pub rows: &'a [Rows],
    /// The proofs of each clause, one for each size row of its head.
    pub row_proofs: &'a [Sequence<Multipliers>],
    /// The ground rows of each predicate.
    pub grounds: &'a [Sequence<Cube>],
}

impl WrittenModel<'_> {
    /// Puts the facts of modes, size rows and their proofs, and ground rows after others.
    pub fn write<F: FromShared>(
        &self,
        alloc: Global,
        p: &Program,
        names: &Names,
        out: &mut Sequence<F>,
    ) -> Result<(), AllocError>
        ensures { OnOk result (out.new ≡ out.old
            ++ model_facts F.mode_fact F.size_fact F.proof_fact F.ground_fact p.now names.now self.now) }
    {
        write_each(alloc, &WrittenModes { p, names }, self.modes, out)?;
        write_each(alloc, &WrittenSizes { p, names }, self.rows, out)?;
        write_each(alloc, &WrittenProofs {}, self.row_proofs, out)?;
        write_each(alloc, &WrittenGrounds { p, names }, self.grounds, out)
    }
}
