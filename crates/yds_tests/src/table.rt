//! Tests of `yds_table`.
use std::test::Fail;
use yds_fraction::Speed;
use yds_table::{Point, Table, TableFault};

#[test]
fn a_table_with_a_point_above_its_hull(rt: HostRuntime) -> Result<(), Fail> {
    let [idle, above, middle, top] = [
        Point::new(0, 0),
        Point::new(1, 3),
        Point::new(2, 4),
        Point::new(4, 10),
    ];
    let mut table = Table::new(rt.alloc(), idle)?;
    table.push(above)?;
    table.push(middle)?;
    table.push(top)?;
    assert_eq!(rt; table.push(middle), Err(TableFault::NotRising));
    assert_eq!(rt; table.points().len(), 4);
    assert_eq!(rt; table.hull(), [idle, middle, top].as_slice());
    assert_eq!(rt; (table.top(), table.gaps()), (4, 2));
    let speeds = table
        .around(Speed::new(3, 1))
        .map(|(low, high)| (low.speed, high.speed));
    assert_eq!(rt; speeds, Some((2, 4)));
    let speeds = table
        .around(Speed::new(4, 2))
        .map(|(low, high)| (low.speed, high.speed));
    assert_eq!(rt; speeds, Some((2, 2)));
    assert!(rt; table.around(Speed::new(9, 2)).is_none());
    Ok(())
}
