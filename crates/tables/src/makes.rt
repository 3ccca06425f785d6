// Grids over memory that is long enough or not, at good and bad depths.
#[cfg(test)]
mod tests {
    use std::test::Fail;
    use stores::{Grid, Store};
    use voxels::{Cell, voxel_count};

    struct Make {
        depth: u8,
        words: usize,
        made: u8,
        limit: u16,
    }

    const MAKES: [Make; 15] = [
        Make {
            depth: 0,
            words: 70,
            made: 0,
            limit: 0,
        },
        Make {
            depth: 1,
            words: 7,
            made: 0,
            limit: 0,
        },
        Make {
            depth: 1,
            words: 8,
            made: 1,
            limit: 1,
        },
        Make {
            depth: 2,
            words: 63,
            made: 0,
            limit: 0,
        },
        Make {
            depth: 2,
            words: 64,
            made: 2,
            limit: 9,
        },
        Make {
            depth: 2,
            words: 70,
            made: 2,
            limit: 9,
        },
        Make {
            depth: 3,
            words: 511,
            made: 0,
            limit: 0,
        },
        Make {
            depth: 3,
            words: 512,
            made: 3,
            limit: 73,
        },
        Make {
            depth: 4,
            words: 4095,
            made: 0,
            limit: 0,
        },
        Make {
            depth: 4,
            words: 4096,
            made: 4,
            limit: 585,
        },
        Make {
            depth: 5,
            words: 32767,
            made: 0,
            limit: 0,
        },
        Make {
            depth: 5,
            words: 32768,
            made: 5,
            limit: 4681,
        },
        Make {
            depth: 5,
            words: 32770,
            made: 5,
            limit: 4681,
        },
        Make {
            depth: 6,
            words: 32770,
            made: 0,
            limit: 0,
        },
        Make {
            depth: 255,
            words: 70,
            made: 0,
            limit: 0,
        },
    ];

    // Words of a grid are cleared as far as it uses them, and the rest stays.
    #[test]
    fn makes_and_the_memory_they_leave(rt: HostRuntime) -> Result<(), Fail> {
        for make in &MAKES {
            let mut words = vec![in rt.alloc(); 7; make.words]?;
            {
                let grid = Grid::new(&mut words, make.depth);
                assert_eq!(rt; grid.depth(), make.made);
                assert_eq!(rt; grid.limit(), make.limit);
                assert_eq!(rt; grid.read(0), Cell::Unknown);
                assert_eq!(rt; grid.open(0), make.made > 0);
                assert_eq!(rt; grid.open(voxel_count(make.made)), false);
            }
            let used = voxel_count(make.made);
            for (index, word) in words.iter().enumerate() {
                assert_eq!(rt; *word, if index < used { 0 } else { 7 });
            }
        }
        Ok(())
    }
}
