use std::alloc::Global;
use std::test::Fail;
use wa_base::{NoMemory, ONE, Samples, rnd_div, sat, scale};

fn rounds_halves_up() -> bool {
    for (num, den, want) in [
        (1, 2, 1),
        (-1, 2, 0),
        (3, 2, 2),
        (-3, 2, -1),
        (7, 3, 2),
        (-7, 3, -2),
    ] {
        if rnd_div(num, den) != want {
            return false;
        }
    }
    true
}

#[test]
fn halves_go_up(rt: HostRuntime) {
    assert!(rt; rounds_halves_up());
}

fn rounds_and_saturates() -> bool {
    for (x, g, want) in [
        (ONE, ONE, ONE),
        (1, ONE / 2, 1),
        (-1, ONE / 2, 0),
        (3, ONE / 4, 1),
        (1_677_721_600, 2 * ONE, 2_147_483_647),
    ] {
        if scale(x, g) != want {
            return false;
        }
    }
    sat(2_147_483_648) == 2_147_483_647 && sat(-2_147_483_649) == -2_147_483_648
}

#[test]
fn products_are_rounded_and_saturated(rt: HostRuntime) {
    assert!(rt; rounds_and_saturates());
}

fn ramp(alloc: Global) -> Result<Samples, NoMemory> {
    let mut samples = Samples::new(alloc);
    for v in [3, -5, 8] {
        samples.push(v)?;
    }
    Ok(samples)
}

fn copies_apart(alloc: Global) -> Result<bool, NoMemory> {
    let first = ramp(alloc)?;
    let mut second = first.copy()?;
    for v in second.as_mut_slice() {
        *v = 1;
    }
    Ok(
        first.as_slice() == [3, -5, 8].as_slice()
            && second.as_slice() == [1, 1, 1].as_slice()
            && second.len() == 3
            && !second.is_empty(),
    )
}

#[test]
fn a_copy_has_memory_of_its_own(rt: HostRuntime) -> Result<(), Fail> {
    assert!(rt; copies_apart(rt.alloc())?);
    Ok(())
}
