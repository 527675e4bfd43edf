//! The facts of modes.

ghost use Rattle.std.specs.Prelude.{◌∷◌, []};
ghost use Rattle.cert_structure.specs.Order.{pred_text};

use crate::shared_facts::FromShared;
use crate::writer::Writer;
use cert_structure::{Named, copied_modes};
use cti_terms::{Names, Program};
use sequences::Sequence;
use std::alloc::{AllocError, Global};

/// The modes of predicates.
#[derive(Drop)]
pub(crate) struct WrittenModes<'a> {
    pub(crate) p: &'a Program,
    pub(crate) names: &'a Names,
}

impl<F: FromShared> Writer<F> for WrittenModes<'_> {
    type Item = Sequence<Sequence<u32>>;

    ghost facts = { λ w a ms. F.mode_fact (pred_text w.p.now w.names.now a) ms ∷ [] };

    fn write(
        &self,
        alloc: Global,
        number: u64,
        item: &Sequence<Sequence<u32>>,
        out: &mut Sequence<F>,
    ) -> Result<(), AllocError> {
        let pred = Named::new(self.p, self.names, number).text(alloc)?;
        let modes = copied_modes(alloc, item.as_slice())?;
        out.push(F::terminates(pred, modes))
    }
}
