ghost use Rattle.std.specs.Prelude.{◌≡◌, ◌<◌, ◌≤◌};

use crate::random::{Random, edit};
use param_cursor::Cursor;
use param_events::{ParamErr, Timeline};
use std::alloc::Global;
use std::marker::Brand;
use std::sync::ledger::{Blank, Ledger};
use std::test::Fail;
use wa_base::{Fix, NoMemory, Steps};

// A digest with one item more.
fn mixed(digest: u64, item: u64) -> u64 {
    (digest ^ item).wrapping_mul(1_099_511_628_211)
}

fn with_value(digest: u64, value: Fix) -> u64 {
    mixed(digest, (value as i64 + 2_147_483_648) as u64)
}

// A number for each answer; those with a place have one for each place.
fn answer_number(answer: Result<(), ParamErr>) -> u64 {
    match answer {
        Ok(()) => 0,
        Err(ParamErr::NegativeTime) => 1,
        Err(ParamErr::BadDuration) => 2,
        Err(ParamErr::ShortCurve) => 3,
        Err(ParamErr::InCurve(place)) => (place as u64).wrapping_mul(2).wrapping_add(4),
        Err(ParamErr::CurveOver(place)) => (place as u64).wrapping_mul(2).wrapping_add(5),
        Err(ParamErr::NoMemory) => u64::MAX,
    }
}

// The answers of some random edits of a timeline, then its base, its slot and its values at 200 frames.
fn one_timeline<L: Ledger>(
    alloc: Global,
    random: &mut Random,
    digest: u64,
    steps: &mut Steps<L>,
) -> u64 {
    let mut line = Timeline::new(alloc, random.value());
    let mut digest = digest;
    let pace = random.below(12);
    for i in 0..random.below(14) {
        let answer = edit(&mut line, random, i * pace);
        digest = mixed(digest, answer_number(answer));
        if random.below(3) == 0 {
            line.mark(random.value());
        }
    }
    digest = with_value(with_value(digest, line.base()), line.current());
    let first = random.below(200);
    let mut values = [0; 200];
    let mut cursor = Cursor::new();
    cursor.reseek(first, &line, steps);
    cursor.fill(&mut values, first, &line, steps);
    values
        .iter()
        .fold(digest, |digest, value| with_value(digest, *value))
}

fn counted_digest<L: Ledger>(alloc: Global, blank: Blank) -> u64
    requires name { blank.name ≡ L.name }
    requires parts { blank.parts ≡ L.parts }
    requires some { 0 < L.parts }
{
    let mut steps: Steps<L> = Steps::new(blank);
    let mut random = Random::new(2_024);
    let mut digest = 14_695_981_039_346_656_037;
    for _ in 0..20_000 {
        digest = one_timeline(alloc, &mut random, digest, &mut steps);
    }
    digest
}

fn digest(alloc: Global) -> u64 {
    counted_digest::<Brand>(alloc, Blank::new(1))
}

// The number is what tools/timelines works out by itself.
#[test]
fn edits_and_values_are_as_a_second_calculation_has_them(rt: HostRuntime) -> Result<(), Fail> {
    assert!(rt; digest(rt.alloc()) == 12_963_076_549_504_445_183);
    Ok(())
}
