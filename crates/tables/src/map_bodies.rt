// Bodies with what a check and a load tell of them, and maps with the bodies that are written of them.
#[cfg(test)]
mod tests {
    use crate::answers::{mask_of, told, told_load};
    use crate::full::Full;
    use bodies::{Loaded, load, write};
    use std::process::Abort;
    use std::test::Fail;
    use stores::{Grid, Masked, Store};
    use voxels::{Cell, Voxel, voxel_count};

    // Voxels of the deepest map.
    const MOST: usize = 32768;

    // The longest body: a pair for each of its 4681 cubes.
    const LONGEST: usize = 9362;

    // At depth 2, the voxels 0 to 6 free.
    const SEVEN: &[u8] = &[0x03, 0x00, 0x55, 0x15];

    struct Body {
        depth: u8,
        bytes: &'static [u8],
        // the voxels set, where a load takes it
        told: Result<u32, (u8, u32)>,
    }

    const BODIES: [Body; 16] = [
        Body {
            depth: 2,
            bytes: SEVEN,
            told: Ok(7),
        },
        Body {
            depth: 2,
            bytes: &[0x55, 0x55],
            told: Ok(64),
        },
        Body {
            depth: 2,
            bytes: &[],
            told: Err((9, 0)),
        },
        Body {
            depth: 2,
            bytes: &[0x03, 0x00, 0x55],
            told: Err((9, 2)),
        },
        Body {
            depth: 2,
            bytes: &[0x03, 0x00, 0x55, 0x55],
            told: Err((11, 2)),
        },
        Body {
            depth: 2,
            bytes: &[0x01, 0x00, 0x00],
            told: Err((12, 2)),
        },
        Body {
            depth: 1,
            bytes: SEVEN,
            told: Err((10, 0)),
        },
        Body {
            depth: 3,
            bytes: b"\x0f\xc0\x31\x00\x55\x15\x03\xc0\x02\x01\xaa\x6a\x00\x0c\x10\x00",
            told: Ok(26),
        },
        Body {
            depth: 3,
            bytes: b"\x0f\xc0\x31\x00\x55\x15\x03\xc0\x02\x01\xaa\x6a\x00\x0c\x10",
            told: Err((9, 14)),
        },
        Body {
            depth: 3,
            bytes: b"\x0f\xc0\x31\x00\x55\x15\x03\xc0\x02\x01\xaa\x6a\x00\x0c\x10\x30",
            told: Err((10, 14)),
        },
        Body {
            depth: 3,
            bytes: b"\x0f\xc0\x31\x00\x55\x15\x03\xc0\x02\x01\xaa\xea\x00\x0c\x10\x00",
            told: Err((10, 10)),
        },
        Body {
            depth: 3,
            bytes: b"\x0f\xc0\x31\x00\x55\x15\x03\xc0\x02\x01\xaa\x6a\x00\x0c\x00\x00",
            told: Err((11, 14)),
        },
        Body {
            depth: 3,
            bytes: b"\x0f\xc0\x31\x00\x55\x15\x03\xc0\x02\x01\xaa\xaa\x00\x0c\x10\x00",
            told: Err((11, 10)),
        },
        Body {
            depth: 3,
            bytes: b"\x0f\xc0\x31\x00\x55\x15\x03\xc0\x02\x01\xaa\x6a\x55\x55",
            told: Err((11, 12)),
        },
        Body {
            depth: 3,
            bytes: b"\x0f\xc0\x31\x00\x55\x15\x03\xc0\x55\x55\xaa\xff\x00\x0c\x10\x00",
            told: Err((11, 8)),
        },
        Body {
            depth: 3,
            bytes: b"\x0f\xc0\x31\x00\x55\x15\x03\xc0\x02\x01\xaa\x6a\x00\x0c\x10\x00\x00",
            told: Err((12, 16)),
        },
    ];

    // The first words are wiped and the rest is as it was.
    fn check_page(rt: &impl Abort, page: &[u16], used: usize) {
        for (index, word) in page.iter().enumerate() {
            assert_eq!(rt; *word, if index < used { 0 } else { 7 });
        }
    }

    // The map's body at the front of the output, and behind it what was there.
    fn check_write<S: Store>(rt: &impl Abort, store: &S, page: &mut [u16], bytes: &[u8]) {
        let mut output = [0xEE; 20];
        assert_eq!(rt; told(write(store, page, &mut output)), Ok(bytes.len()));
        for (index, byte) in output.iter().enumerate() {
            assert_eq!(rt; *byte, bytes.get(index).copied().unwrap_or(0xEE));
        }
    }

    fn check_empty<S: Store>(rt: &impl Abort, store: &S) {
        for index in 0..voxel_count(store.depth()) {
            assert_eq!(rt; store.read(index), Cell::Unknown);
        }
    }

    #[test]
    fn each_body_is_taken_or_tells_its_number_and_place(rt: HostRuntime) {
        for body in &BODIES {
            assert_eq!(rt;
                told(bodies::check(body.depth, body.bytes)),
                body.told.map(|_| ())
            );
            let mut words = [0; 512];
            let mut page = [7; 513];
            let mut grid = Grid::new(&mut words, body.depth);
            assert_eq!(rt;
                told_load(load(&mut grid, &mut page, body.bytes)),
                body.told.map(|set| (set, 0))
            );
            check_page(&rt, &page, voxel_count(body.depth));
            if body.told.is_ok() {
                check_write(&rt, &grid, &mut page, body.bytes);
            } else {
                check_empty(&rt, &grid);
            }
            check_page(&rt, &page, voxel_count(body.depth));
        }
    }

    #[test]
    fn a_check_asks_for_a_depth(rt: HostRuntime) {
        for depth in [0, 6, 255] {
            assert_eq!(rt; told(bodies::check(depth, SEVEN)), Err((1, 0)));
        }
    }

    // Any negative number is free, whichever it is.
    #[test]
    fn a_write_asks_for_room_for_the_body(rt: HostRuntime) {
        let mut words = [0; 64];
        let mut page = [7; 65];
        let mut grid = Grid::new(&mut words, 2);
        for index in 0..7 {
            assert!(rt; grid.set(index, Cell::Known(-1 - index as i16)).is_ok());
        }
        check_write(&rt, &grid, &mut page, SEVEN);
        let mut exact = [0xEE; 4];
        assert_eq!(rt; told(write(&grid, &mut page, &mut exact)), Ok(4));
        assert_eq!(rt; exact, [0x03, 0x00, 0x55, 0x15]);
        let mut short = [0xEE; 3];
        assert_eq!(rt; told(write(&grid, &mut page, &mut short)), Err((18, 0)));
        assert_eq!(rt; short, [0xEE; 3]);
        check_page(&rt, &page, 64);
    }

    #[test]
    fn a_load_makes_free_voxels_the_lowest(rt: HostRuntime) {
        let mut words = [0; 64];
        let mut page = [7; 65];
        let mut grid = Grid::new(&mut words, 2);
        assert_eq!(rt; told_load(load(&mut grid, &mut page, SEVEN)), Ok((7, 0)));
        for index in 0..64 {
            let cell = if index < 7 {
                Cell::Known(-200)
            } else {
                Cell::Unknown
            };
            assert_eq!(rt; grid.read(index), cell);
        }
    }

    #[test]
    fn no_map_and_a_short_page_leave_the_page(rt: HostRuntime) {
        let mut words = [0; 64];
        let mut page = [7; 63];
        let mut output = [0xEE; 4];
        {
            let mut none = Grid::new(&mut words, 6);
            assert_eq!(rt; told_load(load(&mut none, &mut page, SEVEN)), Err((1, 0)));
            assert_eq!(rt; told(write(&none, &mut page, &mut output)), Err((1, 0)));
        }
        let mut grid = Grid::new(&mut words, 2);
        assert_eq!(rt; told_load(load(&mut grid, &mut page, SEVEN)), Err((2, 0)));
        assert_eq!(rt; told(write(&grid, &mut page, &mut output)), Err((2, 0)));
        assert_eq!(rt; output, [0xEE; 4]);
        check_page(&rt, &page, 0);
    }

    // The mask closes 1, 2 and 6, and 8, which the body does not speak of.
    fn skips_under<S: Store + Drop>(rt: &impl Abort, store: S) {
        let mask = mask_of(rt, &[1, 0, 2, 0, 6, 0, 1, 0, 8, 0, 1, 0]);
        let mut store = Masked::new(store, mask);
        let mut page = [7; 65];
        assert_eq!(rt; told_load(load(&mut store, &mut page, SEVEN)), Ok((4, 3)));
        for index in 0..64 {
            let cell = if index < 7 && store.open(index) {
                Cell::Known(-200)
            } else {
                Cell::Unknown
            };
            assert_eq!(rt; store.read(index), cell);
        }
        assert_eq!(rt; store.open(1), false);
    }

    // Of the map before, one cell is left, which the mask closes afterwards.
    fn refused_where_known<S: Store + Drop>(rt: &impl Abort, store: S) {
        let mut store = store;
        let mut page = [7; 65];
        assert!(rt; store.set(63, Cell::Known(0)).is_ok());
        assert_eq!(rt; told_load(load(&mut store, &mut page, SEVEN)), Err((8, 0)));
        let mask = mask_of(rt, &[63, 0, 1, 0]);
        let mut store = Masked::new(store, mask);
        assert_eq!(rt; told_load(load(&mut store, &mut page, &[])), Err((8, 0)));
        assert_eq!(rt; store.read(0), Cell::Unknown);
        assert_eq!(rt; store.read(63), Cell::Known(0));
        check_page(rt, &page, 64);
    }

    #[test]
    fn loads_under_a_mask(rt: HostRuntime) {
        let mut words = [0; 64];
        skips_under(&rt, Grid::new(&mut words, 2));
        refused_where_known(&rt, Grid::new(&mut words, 2));
    }

    // One free voxel makes its cube mixed, also where the whole cube is to become free.
    #[test]
    fn a_load_past_the_block_limit_is_refused_at_its_first_voxel(rt: HostRuntime) {
        let mut page = [7; 65];
        let mut full = Full;
        assert_eq!(rt; told_load(load(&mut full, &mut page, SEVEN)), Err((15, 0)));
        assert_eq!(rt;
            told_load(load(&mut full, &mut page, &[0x01, 0x00])),
            Err((15, 0))
        );
        assert_eq!(rt;
            told_load(load(&mut full, &mut page, &[0x00, 0x02])),
            Err((15, 32))
        );
        assert_eq!(rt;
            told_load(load(&mut full, &mut page, &[0x00, 0x00])),
            Ok((0, 0))
        );
        check_empty(&rt, &full);
        check_page(&rt, &page, 64);
    }

    // Writes a map, checks the body, empties the map, loads the body and writes the same bytes again. Gives the body's length and the voxels set.
    fn there_and_back<S: Store>(
        rt: &impl Abort,
        store: &mut S,
        page: &mut [u16],
        output: &mut [u8],
        again: &mut [u8],
    ) -> Result<(usize, u32), Fail> {
        let length = write(store, page, output).map_err(|_| "a refused write")?;
        let body = output.get(..length).ok_or("longer than the output")?;
        assert_eq!(rt; told(bodies::check(store.depth(), body)), Ok(()));
        store.clear();
        let Loaded { set, skipped } = load(store, page, body).map_err(|_| "a refused load")?;
        assert_eq!(rt; skipped, 0);
        assert_eq!(rt; told(write(store, page, again)), Ok(length));
        assert!(rt; again.get(..length).ok_or("longer than the output")? == body);
        Ok((length, set))
    }

    // Occupied where x + y + z is even, else free.
    fn turned<S: Store>(rt: &impl Abort, store: &mut S) -> Result<(), Fail> {
        for index in 0..voxel_count(store.depth()) {
            let voxel = Voxel::at(index, store.depth()).ok_or("outside the map")?;
            let odd = (voxel.x ^ voxel.y ^ voxel.z) & 1 == 1;
            assert!(rt;
                store
                    .set(index, Cell::Known(if odd { -40 } else { 85 }))
                    .is_ok()
            );
        }
        Ok(())
    }

    fn longest_over(
        rt: &impl Abort,
        words: &mut [u16],
        page: &mut [u16],
        output: &mut [u8],
        again: &mut [u8],
    ) -> Result<(), Fail> {
        let mut grid = Grid::new(words, 5);
        turned(rt, &mut grid)?;
        assert_eq!(rt;
            there_and_back(rt, &mut grid, page, output, again)?,
            (LONGEST, 32768)
        );
        for byte in output.iter().take(8) {
            assert_eq!(rt; *byte, 0xFF);
        }
        check_page(rt, page, MOST);
        Ok(())
    }

    #[test]
    fn the_longest_body(rt: HostRuntime) -> Result<(), Fail> {
        let mut words = vec![in rt.alloc(); 0; MOST]?;
        let mut page = vec![in rt.alloc(); 7; MOST + 1]?;
        let mut output = vec![in rt.alloc(); 0xEE; LONGEST]?;
        let mut again = vec![in rt.alloc(); 0xEE; LONGEST]?;
        longest_over(&rt, &mut words, &mut page, &mut output, &mut again)
    }

    // The next number of a linear congruential sequence.
    fn next(seed: u32) -> u32 {
        seed.wrapping_mul(1664525).wrapping_add(1013904223)
    }

    fn cell_by(seed: u32) -> Cell {
        match seed >> 30 {
            0 => Cell::Unknown,
            1 => Cell::Known(-40),
            _ => Cell::Known(85),
        }
    }

    // Cells by chance, most cubes of eight alike.
    fn fill_by<S: Store>(rt: &impl Abort, store: &mut S, from: u32) -> u32 {
        let mut seed = from;
        let mut cell = Cell::Unknown;
        for index in 0..voxel_count(store.depth()) {
            seed = next(seed);
            if (index % 8 == 0 && seed >> 28 & 3 > 0) || seed >> 24 & 15 == 0 {
                cell = cell_by(seed);
            }
            assert!(rt; store.set(index, cell).is_ok());
        }
        seed
    }

    fn round_trip(rt: &impl Abort, depth: u8, from: u32) -> Result<u32, Fail> {
        let mut words = [0; 512];
        let mut grid = Grid::new(&mut words, depth);
        let seed = fill_by(rt, &mut grid, from);
        there_and_back(rt, &mut grid, &mut [7; 512], &mut [0; 146], &mut [0; 146])?;
        Ok(seed)
    }

    #[test]
    fn bodies_of_maps_by_chance(rt: HostRuntime) -> Result<(), Fail> {
        let mut seed = 1;
        for depth in 1..4 {
            for _ in 0..100 {
                seed = round_trip(&rt, depth, seed)?;
            }
        }
        Ok(())
    }
}
