//! The trial of a call: each of its allocations refused in turn.

use crate::memory::{can_refuse, refuse, was_refused};
use std::alloc::Global;
use std::process::Abort;
use std::test::Fail;

// More allocations than any tested call makes.
const MOST_REQUESTS: u32 = 100_000;

/// The number of the fault out of memory.
pub const MEMORY: u32 = 4;

/// `refused!(rt, NAME, NEW_VALUE, CALL)` is `each_refused` for a call that can do without nothing.
/// `refused!(rt, NAME, alloc => CALL, value => IS_RIGHT)` is that for a call that returns a value or a fault, and leaves
/// its arguments unchanged.
macro_rules! refused {
    ($rt:ident, $name:expr, $alloc:ident => $call:expr, $value:ident => $is_right:expr) => {
        $crate::trying::refused!($rt, $name, |_: std::alloc::Global| Ok(()), |$alloc: std::alloc::Global, _: &mut ()| {
            match $call {
                Ok($value) => Ok($is_right),
                Err(fault) => Err(fault.number()),
            }
        })
    };
    ($rt:ident, $name:expr, $new_value:expr, $call:expr) => {
        $crate::trying::each_refused(&$rt, $rt.alloc(), $name, $crate::trying::Spares::Nothing, $new_value, $call)
    };
}

pub(crate) use refused;

/// What a call may do without if its allocation is refused.
#[derive(Clone, Copy, Debug, PartialEq, Eq)]
pub enum Spares {
    Nothing,
    /// A thread: its work is done by the thread that wanted it.
    Thread,
}

/// Prints how many allocations of a call were refused, and how many of these it did without. None were refused only if
/// the library is not loaded.
pub fn print_refused<R: Print + Abort>(
    rt: &R,
    alloc: Global,
    name: &str,
    requests: u32,
    spared: u32,
) -> Result<(), Fail> {
    assert!(rt;
        requests > 0 || !can_refuse(alloc),
        "{name} made no request"
    );
    println!(rt; "{name}: {requests} refused, {spared} spared")?;
    Ok(())
}

// Whether a call did without the request that was refused, which it may if that was for a thread. If not, its fault must
// be out of memory.
fn did_without<R: Print + Abort>(
    rt: &R,
    name: &str,
    spares: Spares,
    number: u32,
    outcome: Result<bool, u32>,
) -> bool {
    if let Err(fault) = outcome {
        assert_eq!(rt; fault, MEMORY, "{name} at request {number}");
        return false;
    }
    assert!(rt;
        spares == Spares::Thread,
        "{name} did without request {number}"
    );
    true
}

/// Tries a call with its first allocation refused, then its second, and so on until none is refused. Each time it is
/// made on a new value. It returns whether all is right, also that the value was unchanged before it, or the number of
/// its fault; then it is repeated on the same value, with all its memory.
pub fn each_refused<R, T, M, C>(
    rt: &R,
    alloc: Global,
    name: &str,
    spares: Spares,
    new_value: M,
    call: C,
) -> Result<(), Fail>
where
    R: Print + Abort,
    T: Drop,
    M: Fn(Global) -> Result<T, Fail>,
    C: Fn(Global, &mut T) -> Result<bool, u32>,
    requires new_value { M.IsAlwaysCallable new_value }
    requires call { C.IsAlwaysCallable call }
{
    let mut spared = 0u32;
    for number in 1..MOST_REQUESTS {
        let mut value = new_value(alloc)?;
        refuse(alloc, number);
        let outcome = call(alloc, &mut value);
        let was_refused = was_refused(alloc);
        let is_right = match outcome {
            Ok(is_right) => is_right,
            Err(_) => call(alloc, &mut value) == Ok(true),
        };
        drop(value);
        assert!(rt; is_right, "{name} is wrong at request {number}");
        if !was_refused {
            assert!(rt; outcome.is_ok(), "{name} was refused nothing");
            return print_refused(rt, alloc, name, number - 1, spared);
        }
        let is_spared = did_without(rt, name, spares, number, outcome);
        spared = spared.saturating_add(u32::from(is_spared));
    }
    Err("a call that makes requests without end".into())
}
