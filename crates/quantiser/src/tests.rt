use super::Entry;
use fault::Layer;
use file::layout::Table;

// A count, in units: a power of two, so that the products with it are exact in these tests.
const COUNT: f64 = 0.000244140625;

// The counts, or the refusal's layer, number and place: by number, so that the list of rules is no witness of its own.
type Quantised = Result<i32, (Layer, u8, usize)>;

fn refused(number: u8) -> Quantised {
    Err((Layer::Quantiser, number, 0))
}

fn quantised(entry: Entry, table: Table) -> Quantised {
    entry
        .quantise(table)
        .map_err(|f| (f.layer(), f.number(), f.place))
}

fn real(units: f64, table: Table) -> Quantised {
    quantised(Entry::Real(units), table)
}

fn counts(n: i64, table: Table) -> Quantised {
    quantised(Entry::Counts(n), table)
}

#[test]
fn the_middle_between_two_counts_goes_up(rt: HostRuntime) {
    // a number of counts, and what the float below it, it and the float above it become
    let rows = [
        (0.5, 0, 1, 1),
        (-0.5, -1, 0, 0),
        (1.5, 1, 2, 2),
        (-1.5, -2, -1, -1),
        (2.5, 2, 3, 3),
        (-2.5, -3, -2, -2),
        (0.0, 0, 0, 0),
        (-0.0, 0, 0, 0),
        (1.0, 1, 1, 1),
        (-1.0, -1, -1, -1),
        (4095.5, 4095, 4096, 4096),
        (1048575.5, 1048575, 1048576, 1048576),
    ];
    for (middle, below, at, above) in rows {
        let units = middle * COUNT;
        assert_eq!(rt; real(units.next_down(), Table::Generator), Ok(below));
        assert_eq!(rt; real(units, Table::Generator), Ok(at));
        assert_eq!(rt; real(units.next_up(), Table::Generator), Ok(above));
    }
}

#[test]
fn the_largest_float_under_half_a_count_is_no_count(rt: HostRuntime) {
    assert_eq!(rt; real(0.49999999999999994 * COUNT, Table::Target), Ok(0));
    assert_eq!(rt; real(-0.49999999999999994 * COUNT, Table::Target), Ok(0));
    assert_eq!(rt; real(-0.5000000000000001 * COUNT, Table::Target), Ok(-1));
}

#[test]
fn a_unit_is_4096_counts(rt: HostRuntime) {
    assert_eq!(rt; real(1.0, Table::Gamma), Ok(4096));
    assert_eq!(rt; real(2.0, Table::Gamma), Ok(8192));
    assert_eq!(rt; real(-2.0, Table::Gamma), Ok(-8192));
    assert_eq!(rt; real(16.0, Table::Weight), Ok(65_536));
    assert_eq!(rt; real(-0.0, Table::Weight), Ok(0));
}

#[test]
fn every_table_has_its_own_limits(rt: HostRuntime) {
    for table in Table::ALL {
        let least = i64::from(table.least());
        let greatest = i64::from(table.greatest());
        assert_eq!(rt; counts(least, table), Ok(table.least()));
        assert_eq!(rt; counts(least - 1, table), refused(32));
        assert_eq!(rt; counts(greatest, table), Ok(table.greatest()));
        assert_eq!(rt; counts(greatest + 1, table), refused(32));
    }
}

#[test]
fn reals_are_held_to_the_limits_once_rounded(rt: HostRuntime) {
    for table in Table::ALL {
        let top = (f64::from(table.greatest()) + 0.5) * COUNT;
        assert_eq!(rt; real(top.next_down(), table), Ok(table.greatest()));
        assert_eq!(rt; real(top, table), refused(32));
        let bottom = (f64::from(table.least()) - 0.5) * COUNT;
        assert_eq!(rt; real(bottom, table), Ok(table.least()));
        assert_eq!(rt; real(bottom.next_down(), table), refused(32));
    }
}

#[test]
fn the_ends_of_the_format(rt: HostRuntime) {
    for table in Table::ALL {
        assert_eq!(rt; real(f64::NAN, table), refused(31));
        assert_eq!(rt; real(f64::INFINITY, table), refused(31));
        assert_eq!(rt; real(f64::NEG_INFINITY, table), refused(31));
        assert_eq!(rt; real(f64::MAX, table), refused(32));
        assert_eq!(rt; real(-f64::MAX, table), refused(32));
        assert_eq!(rt; real(5e-324, table), Ok(0));
        assert_eq!(rt; real(-5e-324, table), Ok(0));
        assert_eq!(rt; real(f64::MIN_POSITIVE, table), Ok(0));
        assert_eq!(rt; counts(i64::MAX, table), refused(32));
        assert_eq!(rt; counts(i64::MIN, table), refused(32));
    }
}

#[test]
fn around_the_largest_size_that_is_scaled(rt: HostRuntime) {
    assert_eq!(rt; real(512.0, Table::Generator), refused(32));
    assert_eq!(rt; real(512.0f64.next_up(), Table::Generator), refused(32));
    assert_eq!(rt; real(-512.0, Table::Unconstrained), refused(32));
    assert_eq!(rt; real(256.0, Table::Unconstrained), Ok(1_048_576));
}
