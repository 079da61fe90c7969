ghost use Rattle.std.specs.Prelude.{◌≡◌, ◌≤◌, ◌^◌, map, None, IsOk, IsErr, IfErr, OnOk, OnErr};
ghost use Rattle.param_events.specs.Edits.{IsCause};
ghost use Rattle.meaning.specs.Automation as spec;
ghost use Rattle.meaning.specs.Validity.{IsValid};
ghost use Rattle.meaning.specs.World.{plain, slot_of};

use crate::params::Param;
use crate::world::World;
use param_events::{ParamErr, Timeline};
use wa_base::{Exc, Fix, NoMemory, ParamId, Rate, Samples};

/// What a control call edits in a parameter (AudioParam). Times and durations are frames, values are
/// in units of 2^-24.
#[derive(Drop)]
pub enum ParamEdit {
    /// Its value is set now (AudioParam.value).
    SetNow {
        value: Fix,
    },
    /// The value jumps at a time (AudioParam.setValueAtTime).
    Set {
        value: Fix,
        time: i64,
    },
    /// The value goes in a line that ends at a time (AudioParam.linearRampToValueAtTime).
    Ramp {
        value: Fix,
        time: i64,
    },
    /// The value goes along points (AudioParam.setValueCurveAtTime).
    Curve {
        points: Samples,
        time: i64,
        duration: i64,
    },
    /// What is scheduled from a time on is taken away (AudioParam.cancelScheduledValues).
    Cancel {
        time: i64,
    },
    /// What is scheduled from a time on is taken away, and the value that is reached is held
    /// (AudioParam.cancelAndHoldAtTime).
    Hold {
        time: i64,
    },
    /// How often the value is taken (AudioParam.automationRate).
    Rate(Rate),
}

impl World {
    /// The current value slot of a parameter, which a script reads as its `value` (AudioParam.value), in
    /// units of 2^-24.
    pub fn current(&self, id: ParamId) -> Fix
        requires { IsValid self.now }
        ensures { result ≡ slot_of self.now id }
    {
        match self.params.find(id) {
            Some(place) => self.params.at(place).line.current(),
            None => 0,
        }
    }

    /// Sets the current value slot of each parameter to its intrinsic value at a frame, as a render
    /// quantum does at its first frame. Nothing else is changed.
    pub fn set_slots(&mut self, first: u64)
        ensures set { plain self.new ≡ spec.with_params (plain self.old) (map (spec.slot_set first) self.old.params.items) }
        ensures valid { IsValid self.old → IsValid self.new }
        ensures graph { self.new.graph ≡ self.old.graph }
    {
        self.params.set_slots(first);
    }

    // Why an edit of a parameter is refused.
    pub(crate) fn automation_refusal(&self, now: u64, id: ParamId, edit: &ParamEdit) -> Option<Exc>
        requires time { now ≤ 2 ^ 62 }
        requires valid { IsValid self.now }
        ensures { result ≡ spec.automation_refusal (plain self.now) now id edit.now }
    {
        let place = self.params.find(id)?;
        self.params.at(place).refusal(now, edit)
    }

    // Makes an edit of a parameter that is accepted.
    pub(crate) fn edit_param(
        &mut self,
        now: u64,
        id: ParamId,
        edit: &ParamEdit,
    ) -> Result<(), NoMemory>
        requires time { now ≤ 2 ^ 62 }
        requires valid { IsValid self.old }
        requires accepted { spec.automation_refusal (plain self.old) now id edit.now ≡ None }
        ensures ok { OnOk result (plain self.new ≡ spec.automated (plain self.old) now id edit.now) }
        ensures err { OnErr result (plain self.new ≡ plain self.old) }
        ensures graph { self.new.graph ≡ self.old.graph }
    {
        let Some(place) = self.params.find(id) else {
            return Ok(());
        };
        self.params.at_mut(place).edit(now, edit)
    }
}

impl Param {
    // Why an edit is refused.
    fn refusal(&self, now: u64, edit: &ParamEdit) -> Option<Exc>
        requires { now ≤ 2 ^ 62 }
        ensures { result ≡ spec.param_refusal now edit.now self.now }
    {
        let refusal = line_refusal(&self.line, now, edit)?;
        Some(exception_of(refusal))
    }

    // Makes an edit that is accepted.
    fn edit(&mut self, now: u64, edit: &ParamEdit) -> Result<(), NoMemory>
        requires time { now ≤ 2 ^ 62 }
        requires accepted { spec.line_refusal now edit.now self.old.line.events ≡ None }
        ensures ok { OnOk result (self.new ≡ spec.param_edited now edit.now self.old) }
        ensures err { OnErr result (self.new ≡ self.old) }
    {
        match edit {
            ParamEdit::SetNow { value } => made(self.line.set_now(now, *value)),
            ParamEdit::Set { value, time } => made(self.line.set_value(now, *value, *time)),
            ParamEdit::Ramp { value, time } => made(self.line.ramp(now, *value, *time)),
            ParamEdit::Curve {
                points,
                time,
                duration,
            } => made(self.line.curve(now, points.as_slice(), *time, *duration)),
            ParamEdit::Cancel { time } => made(self.line.cancel(now, *time)),
            ParamEdit::Hold { time } => made(self.line.hold(now, *time)),
            ParamEdit::Rate(rate) => {
                self.rate = *rate;
                Ok(())
            }
        }
    }
}

// Why a timeline refuses an edit.
fn line_refusal(line: &Timeline, now: u64, edit: &ParamEdit) -> Option<ParamErr>
    requires { now ≤ 2 ^ 62 }
    ensures { result ≡ spec.line_refusal now edit.now line.now.events }
{
    match edit {
        ParamEdit::SetNow { .. } => line.now_refusal(now),
        ParamEdit::Set { time, .. } => line.event_refusal(now, *time),
        ParamEdit::Ramp { time, .. } => line.event_refusal(now, *time),
        ParamEdit::Curve {
            points,
            time,
            duration,
        } => line.curve_refusal(now, points.as_slice(), *time, *duration),
        ParamEdit::Cancel { time } | ParamEdit::Hold { time } => Timeline::time_refusal(*time),
        ParamEdit::Rate(_) => None,
    }
}

// The exception that stands for a refusal. That memory ran out is none.
fn exception_of(refusal: ParamErr) -> Exc
    ensures { result ≡ spec.exception_of refusal }
{
    match refusal {
        ParamErr::NegativeTime | ParamErr::BadDuration => Exc::Range,
        ParamErr::ShortCurve => Exc::InvalidState,
        ParamErr::InCurve(_) | ParamErr::CurveOver(_) => Exc::NotSupported(None),
        ParamErr::NoMemory => Exc::NotSupported(None),
    }
}

// An edit that the timeline accepts fails only for want of memory.
fn made(edit: Result<(), ParamErr>) -> Result<(), NoMemory>
    requires accepted { IfErr edit (λ error. IsCause error None) }
    ensures ok { OnOk result (IsOk edit) }
    ensures err { OnErr result (IsErr edit) }
{
    match edit {
        Ok(()) => Ok(()),
        Err(ParamErr::NoMemory) => Err(NoMemory),
        Err(_) => unreachable!(),
    }
}
