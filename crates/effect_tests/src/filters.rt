ghost use Rattle.std.specs.Prelude.{◌≡◌, ◌≤◌, None, length};
ghost use Rattle.node_table.specs.Filters.{filter_refusal as refusal};

use node_table::{Causal, block_law, filter_refusal, silence_law};
use shaper_iir::Iir;
use std::alloc::Global;
use std::test::Fail;
use wa_base::{Exc, Fix, NoMemory};

const LEAST: Fix = -2_147_483_648;

const GREATEST: Fix = 2_147_483_647;

const ONE: Fix = 16_777_216;

// The outputs of a filter of one channel, whose first input is a value and all others 0.
fn response(
    alloc: Global,
    forward: &[Fix],
    back: &[Fix],
    first: Fix,
) -> Result<[Fix; 128], NoMemory>
    requires { refusal forward.now back.now ≡ None }
{
    let mut filter = Iir::new(alloc, forward, back)?;
    filter.grow(1)?;
    let mut x = [0; 128];
    x[0] = first;
    let mut y = [0; 128];
    filter.block(&x, &mut y, 128);
    Ok(y)
}

// Whether the outputs begin with these, and the last of them stays.
fn begins(outputs: &[Fix; 128], wanted: &[Fix]) -> bool
    requires { length wanted.now ≤ 128 }
{
    let last = wanted.last().copied().unwrap_or(0);
    outputs
        .iter()
        .enumerate()
        .all(|(k, y)| *y == wanted.get(k).copied().unwrap_or(last))
}

#[test]
fn a_negated_one_pole_filter_halves_an_impulse(rt: HostRuntime) -> Result<(), Fail> {
    let y = response(rt.alloc(), &[-ONE], &[-ONE, 8_388_608], ONE)?;
    for n in 0..24 {
        assert_eq!(rt; y[n], ONE >> n as u32);
    }
    assert!(rt; y[24..].iter().all(|sample| *sample == 1));
    Ok(())
}

#[test]
fn what_is_saturated_is_fed_back(rt: HostRuntime) -> Result<(), Fail> {
    let y = response(rt.alloc(), &[GREATEST], &[1, 3], ONE)?;
    assert!(rt; y.starts_with(&[GREATEST, LEAST, GREATEST, LEAST]));
    Ok(())
}

#[test]
fn coefficients_at_the_ends_of_their_range(rt: HostRuntime) -> Result<(), Fail> {
    let alloc = rt.alloc();
    assert!(rt; begins(&response(alloc, &[LEAST], &[-1], 1)?, &[GREATEST, 0]));
    assert!(rt; begins(&response(alloc, &[LEAST], &[-1], -1)?, &[LEAST, 0]));
    assert!(rt; begins(&response(alloc, &[LEAST], &[LEAST], 77)?, &[77, 0]));
    let y = response(alloc, &[LEAST], &[LEAST, LEAST], LEAST)?;
    assert!(rt; y.starts_with(&[LEAST, GREATEST, -GREATEST, GREATEST]));
    assert!(rt; begins(&response(alloc, &[GREATEST], &[GREATEST], 77)?, &[77, 0]));
    Ok(())
}

// The outputs of the second channel, where it hears an impulse and then, while it is absent, 0.
fn second_channel(alloc: Global) -> Result<[Fix; 4], NoMemory> {
    let mut filter = Iir::new(alloc, &[ONE], &[ONE, -8_388_608])?;
    filter.grow(2)?;
    let mut outputs = [0; 4];
    let mut y = [0; 2];
    filter.step(&[0, ONE], &mut y);
    outputs[0] = y[1];
    filter.step(&[ONE, 0], &mut y);
    outputs[1] = y[1];
    filter.grow(1)?;
    filter.step(&[5, 0], &mut y);
    outputs[2] = y[1];
    filter.step(&[5, 0], &mut y);
    outputs[3] = y[1];
    Ok(outputs)
}

#[test]
fn the_history_of_an_absent_channel_goes_on(rt: HostRuntime) -> Result<(), Fail> {
    let y = second_channel(rt.alloc())?;
    assert_eq!(rt; y, [ONE, ONE / 2, ONE / 4, ONE / 8]);
    Ok(())
}

#[test]
fn coefficients_that_no_filter_has(rt: HostRuntime) -> Result<(), Fail> {
    let many = [1; 21];
    let none: &[Fix] = &[];
    assert!(rt; filter_refusal(none, &[1]) == Some(Exc::NotSupported(None)));
    assert!(rt; filter_refusal(&[1], none) == Some(Exc::NotSupported(None)));
    assert!(rt; filter_refusal(&many, &[1]) == Some(Exc::NotSupported(None)));
    assert!(rt; filter_refusal(&[0], &many) == Some(Exc::NotSupported(None)));
    assert!(rt; filter_refusal(&[0, 0], &[0]) == Some(Exc::InvalidState));
    assert!(rt; filter_refusal(&[0, 1], &[0, 1]) == Some(Exc::InvalidState));
    assert!(rt; filter_refusal(&many[..20], &many[..20]).is_none());
    block_law();
    silence_law();
    Ok(())
}
