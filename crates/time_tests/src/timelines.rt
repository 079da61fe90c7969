use param_events::{Event, Timeline, base_is_held};
use std::alloc::Global;
use std::test::Fail;
use wa_base::{NoMemory, ONE, Samples};

fn points(alloc: Global) -> Result<Samples, NoMemory> {
    let mut points = Samples::new(alloc);
    for v in [0, ONE, -3] {
        points.push(v)?;
    }
    Ok(points)
}

fn is_at(line: &Timeline, base: i32, slot: i32) -> bool {
    line.base() == base && line.current() == slot && line.len() == 0
}

fn marks_the_slot_alone(alloc: Global) -> Result<bool, NoMemory> {
    base_is_held();
    let mut line = Timeline::new(alloc, ONE);
    let was_new = is_at(&line, ONE, ONE);
    line.mark(-8_388_608);
    let mut copy = line.copy()?;
    let was_equal = is_at(&copy, ONE, -8_388_608);
    copy.mark(7);
    Ok(was_new && was_equal && is_at(&copy, ONE, 7) && is_at(&line, ONE, -8_388_608))
}

#[test]
fn the_slot_is_marked_and_the_base_stays(rt: HostRuntime) -> Result<(), Fail> {
    assert!(rt; marks_the_slot_alone(rt.alloc())?);
    Ok(())
}

// Whether a copy of the event shows the same.
fn copies(alloc: Global, event: &Event) -> Result<bool, NoMemory> {
    let copy = event.copy()?;
    Ok(format!(in alloc; "{event:?}")? == format!(in alloc; "{copy:?}")?)
}

fn copies_each_kind(alloc: Global) -> Result<bool, NoMemory> {
    let curve = Event::Curve {
        time: 7,
        duration: 9,
        end: 8,
        points: points(alloc)?,
    };
    Ok(
        copies(alloc, &Event::Set { time: 3, value: 5 })?
            && copies(alloc, &Event::Ramp { time: 4, value: -6 })?
            && copies(alloc, &curve)?,
    )
}

#[test]
fn events_of_each_kind_are_copied(rt: HostRuntime) -> Result<(), Fail> {
    assert!(rt; copies_each_kind(rt.alloc())?);
    Ok(())
}
