// Mask bytes that a fill takes, or refuses with a number and a place.
#[cfg(test)]
mod tests {
    use crate::answers::told;
    use stores::Mask;

    struct Fill {
        bytes: &'static [u8],
        told: Result<(), (u8, u32)>,
    }

    const FILLS: [Fill; 14] = [
        Fill {
            bytes: &[],
            told: Ok(()),
        },
        Fill {
            bytes: &[0],
            told: Err((19, 0)),
        },
        Fill {
            bytes: &[0, 0, 1, 0, 9],
            told: Err((19, 0)),
        },
        Fill {
            bytes: &[0; 70],
            told: Err((19, 0)),
        },
        Fill {
            bytes: &[0; 68],
            told: Err((20, 0)),
        },
        Fill {
            bytes: &[5, 0, 0, 0],
            told: Err((21, 0)),
        },
        Fill {
            bytes: &[0, 0, 2, 0, 0, 0, 0, 0],
            told: Err((21, 4)),
        },
        Fill {
            bytes: &[0, 0, 2, 0, 2, 0, 1, 0],
            told: Err((22, 4)),
        },
        Fill {
            bytes: &[0, 0, 2, 0, 3, 0, 1, 0],
            told: Ok(()),
        },
        Fill {
            bytes: &[9, 0, 1, 0, 4, 0, 1, 0],
            told: Err((22, 4)),
        },
        Fill {
            bytes: &[0, 64, 0, 64],
            told: Ok(()),
        },
        Fill {
            bytes: &[0, 64, 1, 64],
            told: Err((23, 0)),
        },
        Fill {
            bytes: &[255, 255, 255, 255],
            told: Err((23, 0)),
        },
        Fill {
            bytes: &[0, 0, 1, 0, 2, 0, 1, 0, 0, 0, 0, 128],
            told: Err((22, 8)),
        },
    ];

    #[test]
    fn each_fill_tells_its_number_and_place(rt: HostRuntime) {
        for fill in &FILLS {
            let mut mask = Mask::empty();
            assert_eq!(rt; told(mask.fill(fill.bytes)), fill.told);
        }
    }

    // Runs of one index with a gap of one between them.
    fn spaced(runs: usize) -> [u8; 68] {
        let mut bytes = [0; 68];
        for run in 0..runs.min(17) {
            bytes[4 * run] = (2 * run) as u8;
            bytes[4 * run + 2] = 1;
        }
        bytes
    }

    #[test]
    fn sixteen_runs_and_no_more(rt: HostRuntime) {
        let mut mask = Mask::empty();
        assert_eq!(rt; told(mask.fill(&spaced(16)[0..64])), Ok(()));
        for index in 0..40 {
            assert_eq!(rt; mask.closes(index), index < 32 && index % 2 == 0);
        }
        assert_eq!(rt; told(mask.fill(&spaced(17))), Err((20, 0)));
    }

    #[test]
    fn a_refused_fill_leaves_the_mask(rt: HostRuntime) {
        let mut mask = Mask::empty();
        assert_eq!(rt; told(mask.fill(&[3, 0, 2, 0])), Ok(()));
        for fill in &FILLS {
            if fill.told.is_err() {
                let _ = mask.fill(fill.bytes);
                for index in 0..16 {
                    assert_eq!(rt; mask.closes(index), index == 3 || index == 4);
                }
            }
        }
    }

    #[test]
    fn a_run_may_end_at_the_last_index(rt: HostRuntime) {
        let mut mask = Mask::empty();
        assert_eq!(rt; told(mask.fill(&[255, 127, 1, 0])), Ok(()));
        assert!(rt; !mask.closes(32766));
        assert!(rt; mask.closes(32767));
        assert!(rt; !mask.closes(32768));
    }
}
