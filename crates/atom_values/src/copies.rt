ghost use Rattle.std.specs.Prelude.{◌≡◌, IfOk, OnOk};

use crate::memory::NoMemory;
use std::alloc::Global;

/// Values that own memory and are copied by an explicit call, which may run out of memory.
pub trait Copies {
    // The part of a value that its copy has too: the whole value, except a list's spare room.
    ghost copied: { Self → Self } = { λ value. value };

    // The rules that the type of a value keeps. A copy goes through the whole value, so its caller learns them.
    ghost rules: { Self → Type 0 };

    /// A copy that equals this value. `NoMemory` if there is no memory for it.
    fn copy(&self, alloc: Global) -> Result<Self, NoMemory>
        ensures same { IfOk result (λ copy. copied copy ≡ copied self.now) }
        ensures rules { OnOk result (rules self.now) };
}

/// Copies of two values. `NoMemory` if there is no memory for one of them.
pub(crate) fn copy_both<A: Copies + Drop, B: Copies + Drop>(
    first: &A,
    second: &B,
    alloc: Global,
) -> Result<(A, B), NoMemory>
    ensures same { IfOk result (λ both. (A.copied both.0 ≡ A.copied first.now)
        × (B.copied both.1 ≡ B.copied second.now)) }
    ensures rules { OnOk result (A.rules first.now × B.rules second.now) }
{
    let first = first.copy(alloc)?;
    let second = second.copy(alloc)?;
    Ok((first, second))
}

/// Copies of three values. `NoMemory` if there is no memory for one of them.
pub(crate) fn copy_three<A: Copies + Drop, B: Copies + Drop, C: Copies + Drop>(
    first: &A,
    second: &B,
    third: &C,
    alloc: Global,
) -> Result<(A, B, C), NoMemory>
    ensures same { IfOk result (λ all. (A.copied all.0 ≡ A.copied first.now)
        × (B.copied all.1 ≡ B.copied second.now) × (C.copied all.2 ≡ C.copied third.now)) }
    ensures rules { OnOk result (A.rules first.now × B.rules second.now × C.rules third.now) }
{
    let (first, second) = copy_both(first, second, alloc)?;
    let third = third.copy(alloc)?;
    Ok((first, second, third))
}

/// Copies of four values. `NoMemory` if there is no memory for one of them.
pub(crate) fn copy_four<A: Copies + Drop, B: Copies + Drop, C: Copies + Drop, D: Copies + Drop>(
    first: &A,
    second: &B,
    third: &C,
    fourth: &D,
    alloc: Global,
) -> Result<(A, B, C, D), NoMemory>
    ensures same { IfOk result (λ all. (A.copied all.0 ≡ A.copied first.now)
        × (B.copied all.1 ≡ B.copied second.now) × (C.copied all.2 ≡ C.copied third.now)
        × (D.copied all.3 ≡ D.copied fourth.now)) }
    ensures rules { OnOk result (A.rules first.now × B.rules second.now × C.rules third.now
        × D.rules fourth.now) }
{
    let (first, second) = copy_both(first, second, alloc)?;
    let (third, fourth) = copy_both(third, fourth, alloc)?;
    Ok((first, second, third, fourth))
}

impl<T: Copies> Copies for Option<T> {
    ghost use Rattle.std.specs.Prelude.{IfSome};
    ghost use Rattle.std.specs.Option.{option_map};

    ghost copied = { option_map T.copied };

    ghost rules = { λ value. IfSome value T.rules };

    fn copy(&self, alloc: Global) -> Result<Option<T>, NoMemory> {
        match self {
            Some(value) => Ok(Some(value.copy(alloc)?)),
            None => Ok(None),
        }
    }
}

impl Copies for u32 {
    ghost use Rattle.std.specs.Prelude.{◌<◌, ◌^◌};

    ghost rules = { λ number. number < 2 ^ 32 };

    fn copy(&self, _alloc: Global) -> Result<u32, NoMemory> {
        Ok(*self)
    }
}
