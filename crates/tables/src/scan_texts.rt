// Scans of a map of depth 1 with what they tell and leave, and texts with their refusals.
#[cfg(test)]
mod tests {
    use crate::answers::{mask_of, told_scan};
    use crate::full::Full;
    use scans::scan;
    use std::process::Abort;
    use std::test::Fail;
    use stores::{Grid, Masked, Store};
    use voxels::State;

    struct Case {
        text: &'static [u8],
        used: usize,
        set: u32,
        states: &'static [u8; 8],
    }

    // The states of the voxels 0 to 7 after a scan of an empty map.
    const SCANS: [Case; 8] = [
        Case {
            text: b"O 10 10 10\nH 100 10 10\nE\n",
            used: 25,
            set: 2,
            states: b".#??????",
        },
        Case {
            text: b"O 32 32 32\nH 96 96 32\nE\n",
            used: 24,
            set: 3,
            states: b"..?#????",
        },
        Case {
            text: b"O 10 10 10\nH 10 10 10\nE\n",
            used: 24,
            set: 1,
            states: b"#???????",
        },
        Case {
            text: b"O 10 10 10\nF 10 10 10\nE\n",
            used: 24,
            set: 0,
            states: b"????????",
        },
        Case {
            text: b"O 10 10 10\nH 100 10 10\nH 20 10 10\nE\n",
            used: 36,
            set: 2,
            states: b"##??????",
        },
        Case {
            text: b"O 10 10 10\nH 20 10 10\nH 100 10 10\nH 20 10 10\nE\nX",
            used: 47,
            set: 2,
            states: b"##??????",
        },
        Case {
            text: b"O 64 0 0\nF 63 0 0\nE\n",
            used: 20,
            set: 1,
            states: b"?.??????",
        },
        Case {
            text: b"O 127 127 127\nE\nO 1",
            used: 16,
            set: 0,
            states: b"????????",
        },
    ];

    struct Refused {
        text: &'static [u8],
        number: u8,
        place: u32,
    }

    const REFUSALS: [Refused; 20] = [
        Refused {
            text: b"",
            number: 3,
            place: 0,
        },
        Refused {
            text: b"O 1 1 1",
            number: 3,
            place: 0,
        },
        Refused {
            text: b"O 1 1 1\n",
            number: 3,
            place: 8,
        },
        Refused {
            text: b"\n",
            number: 4,
            place: 0,
        },
        Refused {
            text: b"X\n",
            number: 4,
            place: 0,
        },
        Refused {
            text: b"O 1 1\n",
            number: 4,
            place: 0,
        },
        Refused {
            text: b"O 1 1 1 1\n",
            number: 4,
            place: 0,
        },
        Refused {
            text: b"O  1 1 1\n",
            number: 4,
            place: 0,
        },
        Refused {
            text: b"O 1 1 1 \n",
            number: 4,
            place: 0,
        },
        Refused {
            text: b"O 01 1 1\n",
            number: 4,
            place: 0,
        },
        Refused {
            text: b"O 00 1 1\n",
            number: 4,
            place: 0,
        },
        Refused {
            text: b"O 12345 1 1\n",
            number: 4,
            place: 0,
        },
        Refused {
            text: b"O 1 1 1\nE \n",
            number: 4,
            place: 8,
        },
        Refused {
            text: b"H 1 1 1\n",
            number: 5,
            place: 0,
        },
        Refused {
            text: b"E\n",
            number: 5,
            place: 0,
        },
        Refused {
            text: b"O 1 1 1\nO 999 1 1\n",
            number: 5,
            place: 8,
        },
        Refused {
            text: b"O 128 1 1\n",
            number: 6,
            place: 0,
        },
        Refused {
            text: b"O 1 1 1\nF 1 1 9999\n",
            number: 6,
            place: 8,
        },
        Refused {
            text: b"H 999 1 1\n",
            number: 5,
            place: 0,
        },
        Refused {
            text: b"O 1 1 1\nH 1 1 1\nH 1 x 1\n",
            number: 4,
            place: 16,
        },
    ];

    fn symbol(state: State) -> u8 {
        match state {
            State::Unknown => b'?',
            State::Free => b'.',
            State::Occupied => b'#',
        }
    }

    #[test]
    fn scans_of_an_empty_map(rt: HostRuntime) {
        for case in &SCANS {
            let mut words = [0; 8];
            let mut page = [7; 9];
            let mut grid = Grid::new(&mut words, 1);
            assert_eq!(rt;
                told_scan(scan(&mut grid, &mut page, case.text)),
                Ok((case.used, case.set, 0))
            );
            for (index, expected) in case.states.iter().enumerate() {
                assert_eq!(rt; symbol(grid.read(index).state()), *expected);
            }
            assert_eq!(rt; page, [0, 0, 0, 0, 0, 0, 0, 0, 7]);
        }
    }

    #[test]
    fn each_text_tells_its_number_and_place(rt: HostRuntime) {
        for case in &REFUSALS {
            let mut words = [0; 8];
            let mut page = [7; 9];
            let mut grid = Grid::new(&mut words, 1);
            assert_eq!(rt;
                told_scan(scan(&mut grid, &mut page, case.text)),
                Err((case.number, case.place))
            );
            assert_eq!(rt; page, [0, 0, 0, 0, 0, 0, 0, 0, 7]);
        }
    }

    fn skips_under<S: Store + Drop>(rt: &impl Abort, store: S) {
        let mut store = Masked::new(store, mask_of(rt, &[1, 0, 1, 0]));
        let mut page = [0; 8];
        let answer = scan(&mut store, &mut page, b"O 10 10 10\nH 100 10 10\nE\n");
        assert_eq!(rt; told_scan(answer), Ok((25, 1, 1)));
        assert_eq!(rt; symbol(store.read(0).state()), b'.');
        assert_eq!(rt; symbol(store.read(1).state()), b'?');
    }

    #[test]
    fn a_closed_voxel_is_skipped(rt: HostRuntime) {
        let mut words = [0; 8];
        skips_under(&rt, Grid::new(&mut words, 1));
    }

    #[test]
    fn no_map_and_a_short_page_leave_the_page(rt: HostRuntime) {
        let mut words = [0; 8];
        let mut page = [7; 7];
        {
            let mut none = Grid::new(&mut words, 6);
            assert_eq!(rt; told_scan(scan(&mut none, &mut page, b"X")), Err((1, 0)));
        }
        let mut grid = Grid::new(&mut words, 1);
        assert_eq!(rt; told_scan(scan(&mut grid, &mut page, b"X")), Err((2, 0)));
        assert_eq!(rt; page, [7; 7]);
    }

    // The line passes the voxels 7 and 14; the first of them is one block too many.
    #[test]
    fn a_scan_past_the_block_limit_is_refused_at_its_first_voxel(rt: HostRuntime) {
        let mut page = [7; 65];
        let text = b"O 96 96 96\nF 224 96 96\nE\n";
        assert_eq!(rt; told_scan(scan(&mut Full, &mut page, text)), Err((15, 7)));
        for (index, word) in page.iter().enumerate() {
            assert_eq!(rt; *word, if index < 64 { 0 } else { 7 });
        }
        assert_eq!(rt;
            told_scan(scan(&mut Full, &mut page, b"O 96 96 96\nE\n")),
            Ok((13, 0, 0))
        );
    }

    // An origin, as many return lines as asked for, and an end.
    fn with_returns(rt: &HostRuntime, returns: usize) -> Result<Vec<u8>, Fail> {
        let mut text = Vec::new(rt.alloc());
        text.extend_from_slice(b"O 1 1 1\n")?;
        for _ in 0..returns {
            text.extend_from_slice(b"F 1 1 1\n")?;
        }
        text.extend_from_slice(b"E\n")?;
        Ok(text)
    }

    #[test]
    fn five_hundred_and_twelve_returns_and_no_more(rt: HostRuntime) -> Result<(), Fail> {
        let mut words = [0; 8];
        let mut page = [0; 8];
        let mut grid = Grid::new(&mut words, 1);
        let most = with_returns(&rt, 512)?;
        assert_eq!(rt;
            told_scan(scan(&mut grid, &mut page, most.as_slice())),
            Ok((4106, 0, 0))
        );
        let more = with_returns(&rt, 513)?;
        assert_eq!(rt;
            told_scan(scan(&mut grid, &mut page, more.as_slice())),
            Err((7, 4104))
        );
        Ok(())
    }
}
