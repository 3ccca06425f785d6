ghost use Rattle.std.specs.Prelude.{◌≡◌, ℕ};
ghost use Rattle.stores.specs.MaskedLaws.{masked_lawful};
ghost use Rattle.stores.specs.Masks.{closed_by, masked_shape};

use crate::mask::Mask;
use crate::store::Store;
use voxels::{Cell, Reason, Refusal};

// A store under a mask, which closes the mask's runs too and hands on all else.
#[derive(Drop)]
pub struct Masked<S> {
    store: S,
    mask: Mask,
}

impl<S> Masked<S> {
    pub fn new(store: S, mask: Mask) -> Masked<S>
        ensures store { result.store ≡ store }
        ensures mask { result.mask ≡ mask }
    {
        Masked { store, mask }
    }
}

impl<S: Store> Store for Masked<S> {
    ghost shape = { λ m. masked_shape (S.shape m.store) (closed_by m.mask) };

    ghost cell = { λ m. S.cell m.store };

    ghost laws = { masked_lawful (λ m. m.store) (λ m. closed_by m.mask) S.laws };

    const LETTER: char = S::LETTER;

    fn depth(&self) -> u8 {
        self.store.depth()
    }

    fn limit(&self) -> u16 {
        self.store.limit()
    }

    fn read(&self, index: usize) -> Cell {
        self.store.read(index)
    }

    fn open(&self, index: usize) -> bool {
        !self.mask.closes(index) && self.store.open(index)
    }

    fn set(&mut self, index: usize, value: Cell) -> Result<(), Refusal> {
        if self.mask.closes(index) {
            return Err(Reason::NotOpen.into());
        }
        self.store.set(index, value)
    }

    fn clear(&mut self) {
        self.store.clear();
    }
}
