use lane_kern::{add_into, gain_into, sat_into, scaled_add};
use wa_base::ONE;

const HALF: i32 = 8_388_608;

#[test]
fn samples_are_added_exactly(rt: HostRuntime) {
    let mut acc = [0, 1, -1, 4_294_967_296, -4_294_967_296];
    add_into(&mut acc, &[7, i32::MAX, i32::MIN, -5, i32::MIN]);
    assert!(rt;
        acc == [
            7,
            2_147_483_648,
            -2_147_483_649,
            4_294_967_291,
            -6_442_450_944
        ]
    );
}

#[test]
fn samples_are_multiplied_by_their_gains(rt: HostRuntime) {
    let mut out = [0; 6];
    let gains = [ONE, HALF, HALF, -HALF, i32::MAX, i32::MAX];
    gain_into(&mut out, &[9, 3, -3, 3, ONE, 2 * ONE], &gains);
    // A half goes up, and what is too high is the highest.
    assert!(rt; out == [9, 2, -1, -1, i32::MAX, i32::MAX]);
}

#[test]
fn sums_are_saturated(rt: HostRuntime) {
    let mut out = [1; 5];
    sat_into(
        &mut out,
        &[
            2_147_483_647,
            2_147_483_648,
            -2_147_483_648,
            -2_147_483_649,
            5,
        ],
    );
    assert!(rt; out == [i32::MAX, i32::MAX, i32::MIN, i32::MIN, 5]);
}

#[test]
fn products_are_added_exactly(rt: HostRuntime) {
    let mut acc = [0, 5, -7];
    scaled_add(&mut acc, &[3, i32::MIN, -1], 33_554_432);
    assert!(rt; acc == [100_663_296, -72_057_594_037_927_931, -33_554_439]);
    scaled_add(&mut acc, &[1, 0, 1], -1);
    assert!(rt; acc == [100_663_295, -72_057_594_037_927_931, -33_554_440]);
}

#[test]
fn no_sample_is_no_sum(rt: HostRuntime) {
    let mut acc: [i64; 0] = [];
    add_into(&mut acc, &[]);
    assert!(rt; acc.is_empty());
}
