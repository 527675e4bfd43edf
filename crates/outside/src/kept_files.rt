//! Files whose texts are kept.

ghost use Rattle.std.specs.Prelude.{◌≡◌, ◌≤◌, ℕ, List, [], true, map, vec_len, IfOk, IfErr, IsErrOf};
ghost use Rattle.outside.specs.Causes.{Rose};
ghost use Rattle.outside.specs.KeptTexts.{KeepsText, text_at};
ghost use Rattle.outside.specs.Told.{TellsAt, TellsMore};
ghost use Rattle.outside.specs.declared.files.LoadFault.TheVariants.{Failed, TooLong};

use crate::files::{Files, LoadFault};
use std::alloc::Global;

/// The texts that were loaded, in this order, as long as there was memory for them.
#[derive(Drop)]
pub struct KeptTexts {
    texts: Vec<Vec<u8>>,
    /// Whether all were kept.
    is_whole: bool,
}

impl KeptTexts {
    /// Keeps the next text, where all before it were kept and there is memory.
    fn keep(&mut self, alloc: Global, text: &[u8])
        ensures { KeepsText self.old.is_whole (map (λ t. t.items) self.old.texts.items) text.now
            self.new.is_whole (map (λ t. t.items) self.new.texts.items) }
    {
        self.is_whole = self.is_whole
            && match Vec::from_slice(alloc, text) {
                Ok(copy) => self.texts.push(copy).is_ok(),
                Err(_) => false,
            };
    }
}

/// A store of files, another one's, that keeps the texts that it loads. Nothing of what a caller learns of the other is
/// changed.
pub struct KeptFiles<F: Files + Drop> {
    pub inner: F,
    pub kept: KeptTexts,
}

impl<F: Files + Drop> Drop for KeptFiles<F> {
    fn drop(self) {
        let KeptFiles { inner: _, kept: _ } = self;
    }
}

impl<F: Files + Drop> KeptFiles<F> {
    /// The files of a store, of which none was loaded yet.
    pub fn new(alloc: Global, inner: F) -> KeptFiles<F>
        ensures inner { result.inner ≡ inner }
        ensures none { (result.kept.is_whole ≡ true) × (result.kept.texts.items ≡ []) }
    {
        KeptFiles {
            inner,
            kept: KeptTexts {
                texts: Vec::new(alloc),
                is_whole: true,
            },
        }
    }

    /// The text that the load of a number gave, from 0, of the loads that gave one. It is empty where there was none,
    /// or it was not kept.
    pub fn text(&self, number: usize) -> &[u8]
        ensures { result.now ≡ text_at (map (λ t. t.items) self.now.kept.texts.items) number }
    {
        match self.kept.texts.get(number) {
            Some(text) => text,
            None => &[],
        }
    }
}

impl<F: Files + Drop> Files for KeptFiles<F> {
    ghost told = { λ s. F.told s.inner };

    ghost faults = { λ s n. F.faults s.inner n };

    fn load(&mut self, alloc: Global, name: &str, most: u64) -> Result<Vec<u8>, LoadFault>
        ensures bytes { IfOk result (λ v. TellsAt (F.told self.old.inner) name.now v.items) }
        ensures bound { IfOk result (λ v. vec_len v ≤ most) }
        ensures long { IsErrOf result TooLong → TellsMore (F.told self.old.inner) name.now most }
        ensures cause { IsErrOf result Failed
            → Rose (F.faults self.old.inner name.now) (F.faults self.new.inner name.now) }
        ensures later { (n : List ℕ)
            → F.faults self.old.inner n ≤ F.faults self.new.inner n }
        ensures calm { (IsErrOf result Failed → ⊥) → (n : List ℕ)
            → F.faults self.new.inner n ≡ F.faults self.old.inner n }
        ensures stays { F.told self.new.inner ≡ F.told self.old.inner }

        // A text that is given is kept after those before it, and nothing is kept of a load that fails.
        ensures kept { IfOk result (λ v. KeepsText self.old.kept.is_whole
            (map (λ t. t.items) self.old.kept.texts.items) v.items self.new.kept.is_whole
            (map (λ t. t.items) self.new.kept.texts.items)) }
        ensures same { IfErr result (λ fault. self.new.kept ≡ self.old.kept) }
    {
        let text = self.inner.load(alloc, name, most)?;
        self.kept.keep(alloc, &text);
        Ok(text)
    }
}
