ghost use Rattle.std.specs.Prelude.{◌≡◌, IfOk, option_copied};
ghost use Rattle.node_table.specs.Kinds as spec;
ghost use Rattle.node_table.specs.Rows as rows;

use crate::equation::Equation;
use crate::refusals::curve_refusal;
use crate::rows::{Channels, Fixed, Keeps, ParamRow, Plays, Range, Row};
use wa_base::{Exc, Feature, Fix, Interp, Mode, NoMemory, ParamName, Samples};

/// What a node is, with what it was created with.
#[derive(Drop)]
pub enum Kind {
    /// The node whose input the context renders (AudioDestinationNode).
    Destination,
    /// A source of one value (ConstantSourceNode).
    Constant {
        /// The value that the parameter `offset` was created with.
        offset: Fix,
    },
    /// A source that plays a buffer (AudioBufferSourceNode).
    Buffer {
        /// How many frames of its buffer it moves on by in each frame: its playbackRate, which is
        /// whole.
        rate: u32,
    },
    /// A node that multiplies its input by a gain (GainNode).
    Gain {
        /// The value that the parameter `gain` was created with.
        gain: Fix,
    },
    /// A node that gives its input later (DelayNode).
    Delay {
        /// The longest delay (maxDelayTime), in seconds and units of 2^-24.
        longest: Fix,
        /// The value that the parameter `delayTime` was created with, in the same units.
        time: Fix,
        /// The longest delay in frames, or the length of a quantum where that is more. So much of what
        /// comes in is kept.
        capacity: u64,
    },
    /// A node whose outputs are the channels of its input, one each (ChannelSplitterNode).
    Splitter {
        /// The number of outputs (numberOfOutputs), from 1 to 32 once the node is there.
        outputs: u32,
    },
    /// A node whose output's channels are its inputs, one each (ChannelMergerNode).
    Merger {
        /// The number of inputs (numberOfInputs), from 1 to 32 once the node is there.
        inputs: u32,
    },
    /// A node that shapes its input by a curve (WaveShaperNode).
    Shaper {
        /// The curve in force (the attribute `curve`), in units of 2^-24. It has at least two points
        /// once the node is there. Without one the input passes through.
        curve: Option<Samples>,
        /// Whether a curve was set before. It stays so where the curve is taken away.
        was_set: bool,
    },
    /// A node whose output rests on all that its input took in since its creation (IIRFilterNode,
    /// ConvolverNode).
    Causal {
        /// What it puts out of it.
        equation: Equation,
    },
}

const MAX_PORTS: u32 = 32;

const MAX_DELAY_TIME: Fix = 16 << 24;

// What of a node that is told how many ports it has cannot be set.
const FIXED_MIXING: Fixed = Fixed {
    count: true,
    mode: true,
    interp: false,
};

const ALL_FIXED: Fixed = Fixed {
    count: true,
    mode: true,
    interp: true,
};

fn delay_row(longest: Fix, time: Fix, capacity: u64) -> Row
    ensures { result ≡ spec.row (Kind.Delay longest time capacity) }
{
    Row {
        param: Some(ParamRow {
            name: ParamName::DelayTime,
            value: time,
            range: Range::UpTo(longest),
        }),
        keeps: Keeps::Written(capacity),
        ..Row::EFFECT
    }
}

fn splitter_row(outputs: u32) -> Row
    ensures { result ≡ spec.row (Kind.Splitter outputs) }
{
    Row {
        outputs,
        channels: Channels::Always(1),
        count: outputs,
        mode: Mode::Explicit,
        interp: Interp::Discrete,
        fixed: ALL_FIXED,
        ..Row::EFFECT
    }
}

fn merger_row(inputs: u32) -> Row
    ensures { result ≡ spec.row (Kind.Merger inputs) }
{
    Row {
        inputs,
        channels: Channels::Always(inputs),
        count: 1,
        mode: Mode::Explicit,
        fixed: FIXED_MIXING,
        ..Row::EFFECT
    }
}

fn causal_row(equation: &Equation) -> Row
    ensures { result ≡ spec.row (Kind.Causal equation.now) }
{
    let at_most_stereo = equation.is_at_most_stereo();
    Row {
        mode: if at_most_stereo {
            Mode::ClampedMax
        } else {
            Mode::Max
        },
        at_most_stereo,
        keeps: Keeps::Heard,
        ..Row::EFFECT
    }
}

impl Kind {
    /// What the kind has: its row in the table of nodes.
    pub fn row(&self) -> Row
        ensures { result ≡ spec.row self.now }
    {
        match self {
            Kind::Destination => Row {
                mode: Mode::Explicit,
                fixed: FIXED_MIXING,
                ..Row::EFFECT
            },
            Kind::Constant { offset } => Row {
                inputs: 0,
                channels: Channels::Always(1),
                param: any_value(ParamName::Offset, *offset),
                plays: Some(Plays::Value),
                ..Row::EFFECT
            },
            Kind::Buffer { rate } => Row {
                inputs: 0,
                channels: Channels::OfBuffer,
                plays: Some(Plays::Content(*rate)),
                ..Row::EFFECT
            },
            Kind::Gain { gain } => Row {
                param: any_value(ParamName::Gain, *gain),
                ..Row::EFFECT
            },
            Kind::Delay {
                longest,
                time,
                capacity,
            } => delay_row(*longest, *time, *capacity),
            Kind::Splitter { outputs } => splitter_row(*outputs),
            Kind::Merger { inputs } => merger_row(*inputs),
            Kind::Shaper { .. } => Row::EFFECT,
            Kind::Causal { equation } => causal_row(equation),
        }
    }

    /// The exception with which a node of the kind is refused because of what it would be created
    /// with: the number of its ports, its rate, its longest delay, its curve, its coefficients, or its
    /// response.
    pub fn range_refusal(&self) -> Option<Exc>
        ensures { result ≡ spec.range_refusal self.now }
    {
        match self {
            Kind::Destination | Kind::Constant { .. } | Kind::Gain { .. } => None,
            Kind::Buffer { rate } => rate_refusal(*rate),
            Kind::Delay { longest, .. } => delay_refusal(*longest),
            Kind::Splitter { outputs: ports } | Kind::Merger { inputs: ports } => {
                port_refusal(*ports)
            }
            Kind::Shaper { curve, .. } => curve_refusal(points_of(curve), false),
            Kind::Causal { equation } => equation.refusal(),
        }
    }

    /// An equal kind with memory of its own.
    pub fn copy(&self) -> Result<Kind, NoMemory>
        ensures { IfOk result (λ copy. copy ≡ self.now) }
    {
        Ok(match self {
            Kind::Destination => Kind::Destination,
            Kind::Constant { offset } => Kind::Constant { offset: *offset },
            Kind::Buffer { rate } => Kind::Buffer { rate: *rate },
            Kind::Gain { gain } => Kind::Gain { gain: *gain },
            Kind::Delay {
                longest,
                time,
                capacity,
            } => Kind::Delay {
                longest: *longest,
                time: *time,
                capacity: *capacity,
            },
            Kind::Splitter { outputs } => Kind::Splitter { outputs: *outputs },
            Kind::Merger { inputs } => Kind::Merger { inputs: *inputs },
            Kind::Shaper { curve, was_set } => Kind::Shaper {
                curve: copy_of(curve)?,
                was_set: *was_set,
            },
            Kind::Causal { equation } => Kind::Causal {
                equation: equation.copy()?,
            },
        })
    }

    // Of a shaper, puts another curve into force, or none.
    pub(crate) fn set_curve(&mut self, curve: Option<Samples>)
        ensures { self.new ≡ spec.with_curve curve self.old }
    {
        if let Kind::Shaper {
            curve: in_force,
            was_set,
        } = self
        {
            *was_set = *was_set || curve.is_some();
            *in_force = curve;
        }
    }

    // Why a curve, or none, is refused.
    pub(crate) fn set_curve_refusal(&self, curve: &Option<Samples>) -> Option<Exc>
        ensures { result ≡ spec.set_curve_refusal curve.now self.now }
    {
        match self {
            Kind::Shaper { was_set, .. } => curve_refusal(points_of(curve), *was_set),
            _ => Some(Exc::WrongType),
        }
    }
}

// A parameter whose value may be any, as it is created.
fn any_value(name: ParamName, value: Fix) -> Option<ParamRow>
    ensures { result ≡ rows.any_value name value }
{
    Some(ParamRow {
        name,
        value,
        range: Range::Any,
    })
}

// The points of a curve, if there is one.
fn points_of(curve: &Option<Samples>) -> Option<&[Fix]>
    ensures { option_copied result ≡ curve.now }
{
    match curve {
        Some(points) => Some(points.as_slice()),
        None => None,
    }
}

// A curve with memory of its own, if there is one.
fn copy_of(curve: &Option<Samples>) -> Result<Option<Samples>, NoMemory>
    ensures { IfOk result (λ copy. copy ≡ curve.now) }
{
    match curve {
        Some(points) => Ok(Some(points.copy()?)),
        None => Ok(None),
    }
}

// Why a source cannot move on by so many frames of its buffer in each frame.
fn rate_refusal(rate: u32) -> Option<Exc>
    ensures { result ≡ spec.rate_refusal rate }
{
    if rate == 0 {
        Some(Exc::NotSupported(Some(Feature::PlaybackRate)))
    } else {
        None
    }
}

// Why a delay cannot be so long.
fn delay_refusal(longest: Fix) -> Option<Exc>
    ensures { result ≡ spec.delay_refusal longest }
{
    if longest <= 0 {
        Some(Exc::NotSupported(None))
    } else if longest > MAX_DELAY_TIME {
        Some(Exc::NotSupported(Some(Feature::LongDelay)))
    } else {
        None
    }
}

// Why a node cannot have so many ports.
fn port_refusal(ports: u32) -> Option<Exc>
    ensures { result ≡ spec.port_refusal ports }
{
    if ports == 0 || ports > MAX_PORTS {
        Some(Exc::IndexSize)
    } else {
        None
    }
}
