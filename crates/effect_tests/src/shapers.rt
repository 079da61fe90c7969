ghost use Rattle.std.specs.Prelude.{◌≡◌, ◌≤◌, length};

use node_table::{Causal, curve_refusal};
use shaper_iir::Shaper;
use std::alloc::Global;
use std::test::Fail;
use wa_base::{Exc, Fix, NoMemory};

const ONE: Fix = 16_777_216;

// What a shaper of one channel makes of some samples.
fn shaped(shaper: &mut Shaper, x: &[Fix; 7]) -> Result<[Fix; 7], NoMemory>
    requires { shaper.old.channels ≤ 1 }
    ensures { shaper.new.channels ≤ 1 }
{
    shaper.grow(1)?;
    let mut y = [0; 7];
    shaper.block(x, &mut y, 7);
    Ok(y)
}

#[test]
fn a_constant_is_shaped_by_three_points(rt: HostRuntime) -> Result<(), Fail> {
    let mut shaper = Shaper::new(rt.alloc(), None)?;
    let x = [8_388_608; 7];
    assert_eq!(rt; shaped(&mut shaper, &x)?, x);
    shaper.set_curve(Some(&[-8_388_608, 0, 8_388_608]))?;
    assert_eq!(rt; shaped(&mut shaper, &x)?, [4_194_304; 7]);
    shaper.set_curve(None)?;
    assert_eq!(rt; shaped(&mut shaper, &x)?, x);
    Ok(())
}

#[test]
fn two_points_at_the_ends_and_beyond(rt: HostRuntime) -> Result<(), Fail> {
    let curve: &[Fix] = &[2_147_483_647, -2_147_483_648];
    let mut shaper = Shaper::new(rt.alloc(), Some(curve))?;
    let x = [
        -2_147_483_648,
        -ONE,
        1 - ONE,
        0,
        ONE - 1,
        ONE,
        2_147_483_647,
    ];
    let y = shaped(&mut shaper, &x)?;
    assert_eq!(rt;
        y,
        [
            2_147_483_647,
            2_147_483_647,
            2_147_483_519,
            0,
            -2_147_483_520,
            -2_147_483_648,
            -2_147_483_648
        ]
    );
    Ok(())
}

// A curve of 65,536 points, each the number of its place.
fn places(alloc: Global) -> Result<Vec<Fix>, NoMemory> {
    let mut points = Vec::new(alloc);
    for k in 0..65_536 {
        points.push(k)?;
    }
    Ok(points)
}

#[test]
fn a_curve_of_65536_points(rt: HostRuntime) -> Result<(), Fail> {
    let points = places(rt.alloc())?;
    assert!(rt; curve_refusal(Some(points.as_slice()), false).is_none());
    let mut shaper = Shaper::new(rt.alloc(), Some(points.as_slice()))?;
    let x = [-ONE, 256 - ONE, 257 - ONE, 0, 512, ONE - 256, ONE];
    let y = shaped(&mut shaper, &x)?;
    assert_eq!(rt; y, [0, 0, 1, 32_768, 32_768, 65_535, 65_535]);
    Ok(())
}

#[test]
fn curves_that_no_shaper_has(rt: HostRuntime) -> Result<(), Fail> {
    let none: &[Fix] = &[];
    let one: &[Fix] = &[1];
    let two: &[Fix] = &[1, 2];
    assert!(rt; curve_refusal(Some(none), false) == Some(Exc::InvalidState));
    assert!(rt; curve_refusal(Some(one), false) == Some(Exc::InvalidState));
    assert!(rt; curve_refusal(Some(two), false).is_none());
    assert!(rt; curve_refusal(Some(two), true) == Some(Exc::InvalidState));
    assert!(rt; curve_refusal(None, true).is_none());
    Ok(())
}
