use param_events::{Event, Timeline};
use std::sync::ledger::Ledger;
use wa_base::{Fix, Steps};

// The number nearest to a quotient; a half goes up.
fn rounded(num: i128, den: i128) -> i128 {
    let twice = num.wrapping_mul(2).wrapping_add(den);
    twice.checked_div_euclid(den.wrapping_mul(2)).unwrap_or(0)
}

fn on_line(from: i128, to: i128, n: i128, parts: i128) -> i128 {
    from.wrapping_add(rounded(to.wrapping_sub(from).wrapping_mul(n), parts))
}

fn point(points: &[Fix], k: i128) -> i128 {
    for (i, value) in points.iter().enumerate() {
        if i as i128 == k {
            return *value as i128;
        }
    }
    0
}

fn on_curve(points: &[Fix], duration: u64, n: i128) -> i128 {
    let last = (points.len() as i128).wrapping_sub(1);
    let way = last.wrapping_mul(n);
    let k = way.checked_div_euclid(duration as i128).unwrap_or(0);
    if k < last {
        let part = way.wrapping_sub(k.wrapping_mul(duration as i128));
        on_line(
            point(points, k),
            point(points, k.wrapping_add(1)),
            part,
            duration as i128,
        )
    } else {
        point(points, last)
    }
}

fn towards(held: i128, from: u64, next: Option<&Event>, frame: u64) -> i128 {
    match next {
        Some(Event::Ramp { time, value }) => on_line(
            held,
            *value as i128,
            (frame as i128).wrapping_sub(from as i128),
            (*time as i128).wrapping_sub(from as i128),
        ),
        _ => held,
    }
}

// The value at a frame that the event in force there leads to, where this one is next.
fn value_after(event: &Event, next: Option<&Event>, frame: u64) -> i128 {
    match event {
        Event::Set { time, value } => towards(*value as i128, *time, next, frame),
        Event::Ramp { time, value } => towards(*value as i128, *time, next, frame),
        Event::Curve {
            time,
            duration,
            end,
            points,
        } => {
            let begun = *time as i128;
            if frame < *end {
                return on_curve(
                    points.as_slice(),
                    *duration,
                    (frame as i128).wrapping_sub(begun),
                );
            }
            let held = on_curve(
                points.as_slice(),
                *duration,
                (*end as i128).wrapping_sub(begun),
            );
            towards(held, *end, next, frame)
        }
    }
}

// The intrinsic value at a frame as the rules say it: by the last event that is not after the frame and
// the first one after it, found among all events, and by numbers that no step before left.
pub fn value_by_search<L: Ledger>(line: &Timeline, frame: u64, steps: &mut Steps<L>) -> i128 {
    let count = line.len();
    let mut place = 0;
    for i in 0..count {
        if line.look(i, steps).time() <= frame {
            place = i + 1;
        }
    }
    if place == 0 || place > count {
        return line.base() as i128;
    }
    let next = if place < count {
        Some(line.look(place, steps))
    } else {
        None
    };
    value_after(line.look(place - 1, steps), next, frame)
}
