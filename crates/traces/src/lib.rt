// Lines with the voxels that they pass. The expected values come from the crossings and their order, worked out apart from the walk.
#![tactic(auto)]

#[cfg(test)]
mod tests {
    use std::process::Abort;
    use std::test::Fail;
    use tracing::{Ray, trace};
    use voxels::{Position, Voxel};

    const MISS: u16 = 1;

    const HIT: u16 = 2;

    // Voxels of the deepest map.
    const MOST: usize = 32768;

    #[derive(Clone, Copy)]
    struct Line<'a> {
        depth: u8,
        origin: (u16, u16, u16),
        end: (u16, u16, u16),
        passed: &'a [(u16, u16, u16)],
    }

    fn position(at: (u16, u16, u16)) -> Position {
        Position {
            x: at.0,
            y: at.1,
            z: at.2,
        }
    }

    fn ray(origin: (u16, u16, u16), end: (u16, u16, u16)) -> Ray {
        Ray {
            origin: position(origin),
            end: position(end),
        }
    }

    // How many words say that a voxel was passed, and the sum of their indices.
    fn missed(page: &[u16]) -> (usize, usize) {
        let mut count = 0;
        let mut sum: usize = 0;
        for (i, word) in page.iter().enumerate() {
            if *word == MISS {
                count += 1;
                sum = sum.wrapping_add(i);
            }
        }
        (count, sum)
    }

    // Just the voxels that the line passes are marked.
    fn check_line(rt: &impl Abort, line: Line) -> Result<(), Fail> {
        let mut page = [0; 512];
        let steps = trace(&mut page, line.depth, ray(line.origin, line.end));
        assert_eq!(rt; steps, line.passed.len());
        assert_eq!(rt; missed(&page).0, line.passed.len());
        for at in line.passed {
            let voxel = Voxel {
                x: at.0,
                y: at.1,
                z: at.2,
            };
            let index = voxel.index(line.depth).ok_or("outside the map")?;
            assert_eq!(rt; page.get(index).copied(), Some(MISS));
        }
        Ok(())
    }

    #[test]
    fn passed_voxels(rt: HostRuntime) -> Result<(), Fail> {
        let lines = [
            // along x, up
            Line {
                depth: 2,
                origin: (32, 32, 32),
                end: (224, 32, 32),
                passed: &[(0, 0, 0), (1, 0, 0), (2, 0, 0)],
            },
            // along x, down
            Line {
                depth: 2,
                origin: (224, 32, 32),
                end: (32, 32, 32),
                passed: &[(1, 0, 0), (2, 0, 0), (3, 0, 0)],
            },
            // along y, up
            Line {
                depth: 2,
                origin: (96, 10, 160),
                end: (96, 200, 160),
                passed: &[(1, 0, 2), (1, 1, 2), (1, 2, 2)],
            },
            // along y, down
            Line {
                depth: 2,
                origin: (96, 200, 160),
                end: (96, 10, 160),
                passed: &[(1, 1, 2), (1, 2, 2), (1, 3, 2)],
            },
            // along z, up
            Line {
                depth: 2,
                origin: (0, 255, 0),
                end: (0, 255, 255),
                passed: &[(0, 3, 0), (0, 3, 1), (0, 3, 2)],
            },
            // along z, down
            Line {
                depth: 2,
                origin: (0, 255, 255),
                end: (0, 255, 0),
                passed: &[(0, 3, 1), (0, 3, 2), (0, 3, 3)],
            },
            // through an edge
            Line {
                depth: 1,
                origin: (32, 32, 32),
                end: (96, 96, 32),
                passed: &[(0, 0, 0), (1, 0, 0)],
            },
            // through an edge, down
            Line {
                depth: 1,
                origin: (96, 96, 32),
                end: (32, 32, 32),
                passed: &[(0, 1, 0), (1, 1, 0)],
            },
            // through an edge, y down
            Line {
                depth: 1,
                origin: (32, 96, 32),
                end: (96, 32, 32),
                passed: &[(0, 1, 0), (1, 1, 0)],
            },
            // through an edge of y and z
            Line {
                depth: 1,
                origin: (32, 32, 32),
                end: (32, 96, 96),
                passed: &[(0, 0, 0), (0, 1, 0)],
            },
            // through an edge of x and z
            Line {
                depth: 1,
                origin: (32, 32, 32),
                end: (96, 32, 96),
                passed: &[(0, 0, 0), (1, 0, 0)],
            },
            // through a corner
            Line {
                depth: 1,
                origin: (32, 32, 32),
                end: (96, 96, 96),
                passed: &[(0, 0, 0), (1, 0, 0), (1, 1, 0)],
            },
            // through a corner, down
            Line {
                depth: 1,
                origin: (96, 96, 96),
                end: (32, 32, 32),
                passed: &[(0, 0, 1), (0, 1, 1), (1, 1, 1)],
            },
            // through two corners
            Line {
                depth: 2,
                origin: (32, 32, 32),
                end: (160, 160, 160),
                passed: &[
                    (0, 0, 0),
                    (1, 0, 0),
                    (1, 1, 0),
                    (1, 1, 1),
                    (2, 1, 1),
                    (2, 2, 1),
                ],
            },
            // through a corner, z down
            Line {
                depth: 2,
                origin: (32, 32, 224),
                end: (224, 224, 32),
                passed: &[
                    (0, 0, 3),
                    (1, 0, 3),
                    (1, 1, 2),
                    (1, 1, 3),
                    (2, 1, 2),
                    (2, 2, 1),
                    (2, 2, 2),
                    (3, 2, 1),
                    (3, 3, 1),
                ],
            },
            // from a plane, down
            Line {
                depth: 2,
                origin: (64, 100, 100),
                end: (0, 100, 100),
                passed: &[(1, 1, 1)],
            },
            // from a plane, up
            Line {
                depth: 2,
                origin: (64, 100, 100),
                end: (255, 100, 100),
                passed: &[(1, 1, 1), (2, 1, 1)],
            },
            // to a plane, up
            Line {
                depth: 2,
                origin: (0, 100, 100),
                end: (64, 100, 100),
                passed: &[(0, 1, 1)],
            },
            // to a plane, down
            Line {
                depth: 2,
                origin: (130, 100, 100),
                end: (64, 100, 100),
                passed: &[(2, 1, 1)],
            },
            // from a corner, down
            Line {
                depth: 2,
                origin: (128, 128, 128),
                end: (10, 20, 30),
                passed: &[
                    (0, 0, 1),
                    (0, 1, 1),
                    (1, 1, 1),
                    (1, 1, 2),
                    (1, 2, 2),
                    (2, 2, 2),
                ],
            },
            // along a plane
            Line {
                depth: 2,
                origin: (64, 0, 64),
                end: (64, 255, 64),
                passed: &[(1, 0, 1), (1, 1, 1), (1, 2, 1)],
            },
            // within a voxel
            Line {
                depth: 2,
                origin: (70, 70, 70),
                end: (120, 65, 127),
                passed: &[],
            },
            // a point
            Line {
                depth: 2,
                origin: (70, 70, 70),
                end: (70, 70, 70),
                passed: &[],
            },
            // aslant
            Line {
                depth: 2,
                origin: (5, 17, 250),
                end: (251, 201, 3),
                passed: &[
                    (0, 0, 2),
                    (0, 0, 3),
                    (1, 0, 2),
                    (1, 1, 1),
                    (1, 1, 2),
                    (2, 1, 1),
                    (2, 2, 0),
                    (2, 2, 1),
                    (3, 2, 0),
                ],
            },
            // aslant, back
            Line {
                depth: 2,
                origin: (251, 201, 3),
                end: (5, 17, 250),
                passed: &[
                    (0, 0, 2),
                    (1, 0, 2),
                    (1, 1, 1),
                    (1, 1, 2),
                    (2, 1, 1),
                    (2, 2, 0),
                    (2, 2, 1),
                    (3, 2, 0),
                    (3, 3, 0),
                ],
            },
            // nearly along x
            Line {
                depth: 3,
                origin: (3, 60, 70),
                end: (509, 70, 60),
                passed: &[
                    (0, 0, 1),
                    (1, 0, 1),
                    (2, 0, 1),
                    (3, 0, 1),
                    (3, 1, 1),
                    (4, 1, 0),
                    (4, 1, 1),
                    (5, 1, 0),
                    (6, 1, 0),
                ],
            },
        ];
        for line in lines {
            check_line(&rt, line)?;
        }
        Ok(())
    }

    // Each with its steps and the sum of the indices of the voxels that it passes.
    #[test]
    fn long_lines(rt: HostRuntime) {
        let lines = [
            // from corner to corner
            ((0, 0, 0), (2047, 2047, 2047), 93, 1493239),
            ((2047, 2047, 2047), (0, 0, 0), 93, 1554092),
            ((0, 2047, 0), (2047, 0, 2047), 93, 1488558),
            // aslant
            ((3, 1999, 77), (2040, 12, 1033), 77, 631363),
            ((1024, 1024, 1024), (0, 2047, 1), 47, 517243),
        ];
        for (origin, end, steps, sum) in lines {
            let mut page = [0; MOST];
            assert_eq!(rt; trace(&mut page, 5, ray(origin, end)), steps);
            let (count, found) = missed(&page);
            assert_eq!(rt; count, steps);
            assert_eq!(rt; found, sum);
        }
    }

    #[test]
    fn hits_stay(rt: HostRuntime) {
        let mut page = [HIT, 0, 0, HIT, 0, 0, 0, 0];
        assert_eq!(rt; trace(&mut page, 1, ray((32, 32, 32), (96, 96, 32))), 2);
        assert!(rt; page == [HIT, MISS, 0, HIT, 0, 0, 0, 0]);
    }

    // No map has the depth, an end lies outside of it, or the page has a word too few: the page is left.
    #[test]
    fn refused_lines(rt: HostRuntime) {
        let lines = [
            (0, (32, 32, 32), (96, 32, 32), 8),
            (6, (32, 32, 32), (96, 32, 32), 8),
            (1, (32, 32, 128), (32, 32, 32), 8),
            (1, (32, 32, 32), (32, 128, 32), 8),
            (1, (32, 32, 32), (96, 32, 32), 7),
        ];
        for (depth, origin, end, words) in lines {
            let mut page = [0; 8];
            assert_eq!(rt; trace(&mut page[..words], depth, ray(origin, end)), 0);
            assert!(rt; page == [0; 8]);
        }
    }
}
