// What the program is asked for by its arguments.
use journal::cursor::next_number;
use std::env::{Env, FillError};

// Which calls of a ledger are made in each turn. The flags are the task's data: one or both are asked for.
#[derive(Clone, Copy)]
pub(crate) struct Kinds {
    pub fixings: bool,
    pub settlements: bool,
}

// Which calls are made: those of a ledger, or a sheet's.
#[derive(Clone, Copy)]
pub(crate) enum Calls {
    OfLedger(Kinds),
    OfSheet,
}

// On which load, which calls, and how often.
#[derive(Clone, Copy)]
pub(crate) struct Task {
    // The even load or the mixed one: the argument tells.
    pub mixed: bool,
    pub calls: Calls,
    pub count: u64,
}

// Whether a word asks for the mixed load.
fn is_mixed(load: &[u8]) -> Option<bool> {
    match load {
        b"mixed" => Some(true),
        b"even" => Some(false),
        _ => None,
    }
}

// The calls that a word asks for.
fn calls_of(call: &[u8]) -> Option<Calls> {
    let (fixings, settlements) = match call {
        b"fix" => (true, false),
        b"settle" => (false, true),
        b"both" => (true, true),
        b"sheet" => return Some(Calls::OfSheet),
        _ => return None,
    };
    Some(Calls::OfLedger(Kinds {
        fixings,
        settlements,
    }))
}

// The number of a word.
fn count_of(count: &[u8]) -> Option<u64> {
    Some(next_number(count, Ok(0), false, u64::MAX).ok()?.value)
}

// Whether there is an argument at this place, however long.
fn is_argument(env: &impl Env, i: usize) -> bool {
    !matches!(env.arg(i, &mut [0u8; 1]), Err(FillError::NotPresent))
}

// What the three arguments after the program's name ask for, unless there are more or fewer, one is longer than any
// that is known, or one is unknown.
pub(crate) fn read_arguments(env: &impl Env) -> Option<Task> {
    if is_argument(env, 4) {
        return None;
    }
    let mut load = [0u8; 8];
    let mut call = [0u8; 8];
    let mut count = [0u8; 20];
    let load_size = env.arg(1, &mut load).ok()?;
    let call_size = env.arg(2, &mut call).ok()?;
    let count_size = env.arg(3, &mut count).ok()?;
    Some(Task {
        mixed: is_mixed(&load[..load_size])?,
        calls: calls_of(&call[..call_size])?,
        count: count_of(&count[..count_size])?,
    })
}
