// Runs of events on one cell.
#[cfg(test)]
mod tests {
    use voxels::{Cell, Event};

    // A cell after as many of an event.
    fn after(cell: Cell, event: Event, times: u8) -> Cell {
        let mut cell = cell;
        for _ in 0..times {
            cell = cell.updated(event);
        }
        cell
    }

    #[test]
    fn runs_of_events(rt: HostRuntime) {
        let table = [
            (Cell::Unknown, Event::Hit, 1, 85),
            (Cell::Unknown, Event::Hit, 4, 340),
            (Cell::Unknown, Event::Hit, 5, 350),
            (Cell::Known(350), Event::Miss, 8, 30),
            (Cell::Known(30), Event::Miss, 1, -10),
            (Cell::Unknown, Event::Miss, 1, -40),
            (Cell::Unknown, Event::Miss, 5, -200),
            (Cell::Known(-200), Event::Miss, 1, -200),
            (Cell::Known(-200), Event::Hit, 1, -115),
            (Cell::Known(32767), Event::Hit, 1, 350),
            (Cell::Known(-32768), Event::Miss, 1, -200),
        ];
        for (cell, event, times, value) in table {
            assert_eq!(rt; after(cell, event, times), Cell::Known(value));
        }
    }
}
