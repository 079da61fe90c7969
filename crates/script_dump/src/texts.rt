use crate::op_texts::op_text;
use script_ast::{Call, Script};
use script_json::read;
use std::alloc::{AllocError, Global};

fn calls_text(alloc: Global, calls: &[Call]) -> Result<String, AllocError> {
    let mut all = String::new(alloc);
    for call in calls {
        let op = op_text(alloc, &call.op)?;
        let line = format!(in alloc; "{} {} {op}", call.ordinal, call.holder)?;
        if !all.is_empty() {
            all.push_str(", ")?;
        }
        all.push_str(line.as_str())?;
    }
    Ok(all)
}

fn script_text(alloc: Global, script: &Script) -> Result<String, AllocError> {
    let calls = script.calls.as_slice();
    if calls.is_empty() {
        let context = script.context;
        return format!(in alloc;
            "context {} {} {} {}",
            context.channels, context.length, context.rate, context.quantum
        );
    }
    calls_text(alloc, calls)
}

/// What reading the bytes gives: the context where there is no call, else the calls, or the fault.
pub fn reading(alloc: Global, bytes: &[u8]) -> Result<String, AllocError> {
    match read(alloc, bytes) {
        Ok(script) => script_text(alloc, &script),
        Err(fault) => format!(in alloc; "{fault}"),
    }
}
