use wa_base::{End, Fix, NodeId, ParamName};

/// What a fact is about, in a quantum or at a frame.
#[derive(Clone, Copy, Debug, PartialEq, Eq)]
pub enum Key {
    /// How many channels an output of an end has.
    Count {
        quantum: u64,
        end: End,
        output: u32,
    },
    /// What an input takes in.
    Inlet {
        frame: u64,
        end: End,
        input: u32,
        channel: u32,
    },
    /// The computed value of a parameter.
    Par {
        frame: u64,
        node: NodeId,
        name: ParamName,
    },
    /// What a shaper, a filter, a convolver or a processor makes of all that it took in.
    Hist {
        frame: u64,
        node: NodeId,
        channel: u32,
    },
    /// What an output carries.
    Out {
        frame: u64,
        end: End,
        output: u32,
        channel: u32,
    },
}

/// A key with its value: a number of channels, or a sample in units of 2^-24.
#[derive(Clone, Copy, Debug, PartialEq, Eq)]
pub struct Fact {
    pub key: Key,
    pub value: i64,
    /// The cells that a processor leaves. No other fact has them.
    pub cells: Option<[Fix; 16]>,
}
