ghost use Rattle.std.specs.Prelude.{◌^◌, ◌<◌, ◌≤◌};

use fault::Layer;
use file::tables::{Tables, read};
use legs::phases::Legs;
use legs::stepped::Stepped;
use period::Period;
use period::sums::rounded;
use std::test::Fail;

// The positions of NPC legs, all at level 0.
const AT_ZERO: [u8; 3] = [1, 1, 1];

fn npc() -> Legs<Stepped, Stepped, Stepped> {
    Legs {
        a: Stepped::npc(),
        b: Stepped::npc(),
        c: Stepped::npc(),
    }
}

// The file of a plant that looks so many stages ahead, from each entry's number.
fn file_of<const LEN: usize, F: Fn(usize) -> i32>(stages: u8, entry: F) -> [u8; LEN]
    requires headed { 6 ≤ LEN }
    requires small { LEN < 2 ^ 20 }
    requires callable { F.IsAlwaysCallable entry }
{
    let mut file = [0; LEN];
    let (header, entries) = file.split_at_mut(6);
    header.copy_from_slice(&[b'S', b'D', b'T', 1, 0, stages]);
    for (k, bytes) in entries.chunks_exact_mut(4).enumerate() {
        bytes.copy_from_slice(&entry(k).to_le_bytes());
    }
    file
}

// The file of a plant that looks one stage ahead: all tables on their diagonals only, with a given first entry of Γ.
fn one_stage(gamma: i32) -> [u8; 146] {
    file_of(1, |k| match k {
        0 => 4096,
        1 => gamma,
        4 | 5 | 9 => 4096,
        11 | 15 | 19 => -4096,
        20 | 24 | 28 => -4096,
        29 | 31 | 34 => 4096,
        _ => 0,
    })
}

// The file of five stages whose every entry is the greatest that its table allows.
fn five_stages() -> [u8; 2970] {
    file_of(5, |k| match k {
        0 => 65_536,
        1..=20 => 8192,
        21..=170 => 4096,
        171..=395 => 1_048_576,
        396..=620 => 65_536,
        _ => 1_048_576,
    })
}

// A refusal's layer, number and place: by number, so that the list of rules is no witness of its own.
type Refusal = (Layer, u8, usize);

fn refused(number: u8, place: usize) -> Refusal {
    (Layer::Controller, number, place)
}

fn first_rows(rows: &[i32; 15]) -> (i32, i32, i32) {
    (rows[0], rows[1], rows[2])
}

// The refusal of a period, if it is refused.
fn refusal(tables: &Tables, currents: &[i32; 2], references: &[i32]) -> Option<Refusal> {
    Period::of(tables, &npc(), &AT_ZERO, currents, references)
        .err()
        .map(|f| (f.layer(), f.number(), f.place))
}

#[test]
fn sums_round_to_the_nearest_count(rt: HostRuntime) {
    let rows = [
        (2047, 0),
        (2048, 1),
        (-2048, 0),
        (-2049, -1),
        (6143, 1),
        (6144, 2),
        (-6144, -1),
        (-6145, -2),
        (i64::MAX, 2_251_799_813_685_248),
        (i64::MIN, -2_251_799_813_685_248),
    ];
    for (sum, counts) in rows {
        assert_eq!(rt; rounded(sum), counts);
    }
}

#[test]
fn half_a_unit_asked_for(rt: HostRuntime) -> Result<(), Fail> {
    let tables = read(&one_stage(4096))?;
    let period = Period::of(&tables, &npc(), &AT_ZERO, &[0, 0], &[2048, 0])?;
    assert_eq!(rt; first_rows(&period.unconstrained), (2048, 0, 0));
    assert_eq!(rt; first_rows(&period.target), (2048, 0, 0));
    Ok(())
}

#[test]
fn the_weight_draws_towards_the_applied_level(rt: HostRuntime) -> Result<(), Fail> {
    let tables = read(&one_stage(4096))?;
    let rows = [(2, 1, 6144, 0), (0, 1, -2048, 0), (1, 2, 2048, 4096)];
    for (a, c, first, third) in rows {
        let period = Period::of(&tables, &npc(), &[a, 1, c], &[0, 0], &[2048, 0])?;
        assert_eq!(rt; first_rows(&period.unconstrained), (first, 0, third));
    }
    Ok(())
}

#[test]
fn errors_are_rounded_before_they_are_used(rt: HostRuntime) -> Result<(), Fail> {
    let tables = read(&one_stage(1))?;
    let rows = [(2047, 0), (2048, -1), (-2048, 0), (-2049, 1)];
    for (current, target) in rows {
        let period = Period::of(&tables, &npc(), &AT_ZERO, &[current, 0], &[0, 0])?;
        assert_eq!(rt; period.target[0], target);
    }
    Ok(())
}

#[test]
fn everything_at_its_greatest(rt: HostRuntime) -> Result<(), Fail> {
    let tables = read(&five_stages())?;
    let wide = Stepped::new(2, 4)?;
    let legs = Legs {
        a: wide,
        b: wide,
        c: wide,
    };
    let period = Period::of(&tables, &legs, &[0, 0, 0], &[8192, 8192], &[-8192; 10])?;
    assert_eq!(rt;
        (period.unconstrained[0], period.unconstrained[14]),
        (1_673_527_296, 1_673_527_296)
    );
    assert_eq!(rt;
        (period.target[0], period.target[14]),
        (104_595_456, 104_595_456)
    );
    Ok(())
}

#[test]
fn the_first_value_outside_is_named(rt: HostRuntime) -> Result<(), Fail> {
    let tables = read(&one_stage(4096))?;
    let rows = [
        (8192, -8192, 8192, -8192, None),
        (8193, 0, 0, 0, Some(0)),
        (0, -8193, 0, 0, Some(1)),
        (0, 0, -8193, 8193, Some(2)),
        (0, 0, 0, 8193, Some(3)),
        (0, i32::MIN, i32::MAX, 0, Some(1)),
    ];
    for (a, b, c, d, place) in rows {
        assert_eq!(rt;
            refusal(&tables, &[a, b], &[c, d]),
            place.map(|p| refused(25, p))
        );
    }
    Ok(())
}

#[test]
fn every_stage_has_two_references(rt: HostRuntime) -> Result<(), Fail> {
    let tables = read(&one_stage(4096))?;
    let references = [9000; 4];
    for count in [0, 1, 3, 4] {
        assert_eq!(rt;
            refusal(&tables, &[9000, 0], &references[..count]),
            Some(refused(26, count))
        );
    }
    Ok(())
}
