//! Makes calls while their allocations ("growths") are refused. That needs
//! `tests/memory/refuse.c`: where it isn't loaded nothing is refused, and only answers are tested.
use council_core::Refusal;
use std::alloc::{AllocError, Global};

// After a request for this many bytes plus N, the Nth growth is refused.
const COUNTING: usize = 77_000_000;

// More growths than any of the calls makes.
const MOST: usize = 2_000;

// Has a growth refused: the next one for 1, the one after it for 2, and so on.
fn refuse(alloc: Global, number: usize) -> Result<(), Refusal> {
    let _block: Vec<u8> = Vec::with_capacity(alloc, COUNTING.saturating_add(number))?;
    Ok(())
}

fn grows(alloc: Global) -> bool {
    let tried: Result<Vec<u8>, AllocError> = Vec::with_capacity(alloc, 8);
    tried.is_ok()
}

// Whether growths can be refused at all.
fn can_refuse(alloc: Global) -> Result<bool, Refusal> {
    refuse(alloc, 1)?;
    Ok(!grows(alloc))
}

// Makes a call with its growth of this number refused: its answer, and whether it made that growth.
// If it made fewer, one of the growths after it is refused instead.
fn call_refused<S, T: Drop, C: Fn(&mut S) -> Result<T, Refusal>>(
    alloc: Global,
    number: usize,
    state: &mut S,
    call: &C,
) -> Result<(Result<T, Refusal>, bool), Refusal>
    requires { C.IsAlwaysCallable call.now }
{
    refuse(alloc, number)?;
    let answer = call(state);
    Ok((answer, (0..number).all(|_| grows(alloc))))
}

/// Makes a call on a new state with its first growth refused, then with its second, and so on until
/// it makes no more. Returns whether there are at least `growths` of them, and the call answers
/// `OutOfMemory` to each refused one, but what is wanted when asked again and where none is refused.
pub(crate) fn survives<
    S: Drop,
    T: PartialEq + Drop,
    P: Fn(Global) -> Result<S, Refusal>,
    C: Fn(&mut S) -> Result<T, Refusal>,
>(
    alloc: Global,
    growths: usize,
    prepare: P,
    call: C,
    wanted: Result<T, Refusal>,
) -> Result<bool, Refusal>
    requires prepare { P.IsAlwaysCallable prepare }
    requires call { C.IsAlwaysCallable call }
{
    let can_refuse = can_refuse(alloc)?;
    for number in 1..MOST {
        let mut state = prepare(alloc)?;
        let (answer, made) = call_refused(alloc, number, &mut state, &call)?;
        if !made || !can_refuse {
            return Ok(answer == wanted && (growths < number || !can_refuse));
        }
        if answer != Err(Refusal::OutOfMemory) || call(&mut state) != wanted {
            return Ok(false);
        }
    }
    Ok(false)
}

/// Whether a call makes no growth, and answers as wanted while the next growth would be refused.
pub(crate) fn asks_for_none<
    S: Drop,
    T: PartialEq + Drop,
    P: Fn(Global) -> Result<S, Refusal>,
    C: Fn(&mut S) -> Result<T, Refusal>,
>(alloc: Global, prepare: P, call: C, wanted: T) -> Result<bool, Refusal>
    requires prepare { P.IsAlwaysCallable prepare }
    requires call { C.IsAlwaysCallable call }
{
    let mut state = prepare(alloc)?;
    let (answer, made) = call_refused(alloc, 1, &mut state, &call)?;
    Ok(answer == Ok(wanted) && (!made || !can_refuse(alloc)?))
}
