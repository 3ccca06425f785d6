// Sets, reads and clears through masks over a grid, and a mask over a mask.
#[cfg(test)]
mod tests {
    use crate::answers::mask_of;
    use std::process::Abort;
    use stores::{Grid, Masked, Store, apply};
    use voxels::{Cell, Event, Refusal};

    struct Set {
        index: usize,
        value: Cell,
        refused: Option<u8>,
        then: Cell,
    }

    // The first mask closes 2 and 3, the second, over it, 3 and 6.
    const SETS: [Set; 13] = [
        Set {
            index: 0,
            value: Cell::Known(-200),
            refused: None,
            then: Cell::Known(-200),
        },
        Set {
            index: 0,
            value: Cell::Known(350),
            refused: None,
            then: Cell::Known(350),
        },
        Set {
            index: 0,
            value: Cell::Known(351),
            refused: Some(14),
            then: Cell::Known(350),
        },
        Set {
            index: 0,
            value: Cell::Known(-201),
            refused: Some(14),
            then: Cell::Known(350),
        },
        Set {
            index: 0,
            value: Cell::Unknown,
            refused: None,
            then: Cell::Unknown,
        },
        Set {
            index: 1,
            value: Cell::Known(0),
            refused: None,
            then: Cell::Known(0),
        },
        Set {
            index: 2,
            value: Cell::Known(1),
            refused: Some(13),
            then: Cell::Unknown,
        },
        Set {
            index: 3,
            value: Cell::Known(999),
            refused: Some(13),
            then: Cell::Unknown,
        },
        Set {
            index: 5,
            value: Cell::Known(-1),
            refused: None,
            then: Cell::Known(-1),
        },
        Set {
            index: 6,
            value: Cell::Unknown,
            refused: Some(13),
            then: Cell::Unknown,
        },
        Set {
            index: 7,
            value: Cell::Known(9),
            refused: None,
            then: Cell::Known(9),
        },
        Set {
            index: 8,
            value: Cell::Known(9),
            refused: Some(13),
            then: Cell::Unknown,
        },
        Set {
            index: 99999,
            value: Cell::Known(9),
            refused: Some(13),
            then: Cell::Unknown,
        },
    ];

    fn number(answer: Result<(), Refusal>) -> Option<u8> {
        answer.err().map(|refusal| refusal.reason.number())
    }

    fn sets_under_two<S: Store + Drop>(rt: &impl Abort, store: S) {
        let inner = mask_of(rt, &[2, 0, 2, 0]);
        let outer = mask_of(rt, &[3, 0, 1, 0, 6, 0, 1, 0]);
        let mut store = Masked::new(Masked::new(store, inner), outer);
        assert_eq!(rt; store.depth(), 1);
        assert_eq!(rt; store.limit(), 1);
        for set in &SETS {
            assert_eq!(rt; number(store.set(set.index, set.value)), set.refused);
            assert_eq!(rt; store.read(set.index), set.then);
            assert_eq!(rt; store.open(set.index), set.refused != Some(13));
        }
    }

    #[test]
    fn sets_under_stacked_masks(rt: HostRuntime) {
        let mut words = [9; 10];
        sets_under_two(&rt, Grid::new(&mut words, 1));
    }

    // A cell that was known before the mask was laid is cleared under it.
    fn cleared_under<S: Store + Drop>(rt: &impl Abort, store: S) {
        let mut store = store;
        assert_eq!(rt; number(apply(&mut store, 3, Event::Hit)), None);
        let mask = mask_of(rt, &[3, 0, 1, 0]);
        let mut store = Masked::new(store, mask);
        assert_eq!(rt; number(apply(&mut store, 3, Event::Hit)), Some(13));
        assert_eq!(rt; store.read(3), Cell::Known(85));
        store.clear();
        assert_eq!(rt; store.read(3), Cell::Unknown);
    }

    #[test]
    fn clear_reaches_closed_voxels(rt: HostRuntime) {
        let mut words = [0; 8];
        cleared_under(&rt, Grid::new(&mut words, 1));
    }

    fn letter_of<S: Store>(_store: &S) -> char {
        S::LETTER
    }

    fn letter_under<S: Store + Drop>(rt: &impl Abort, store: S, letter: char) {
        let mask = mask_of(rt, &[]);
        assert_eq!(rt; letter_of(&Masked::new(store, mask)), letter);
    }

    #[test]
    fn a_mask_hands_on_the_letter(rt: HostRuntime) {
        let mut words = [0; 8];
        letter_under(&rt, Grid::new(&mut words, 1), 'G');
    }
}
