ghost use Rattle.std.specs.Prelude.{◌≡◌, IfOk, length};
ghost use Rattle.std.specs.List.{range_with_len};

use mg_value::{BlockList, NumberList};
use std::alloc::{AllocError, Global};

/// Returns how many names there are, or out of memory if they are 2^32 or more: there is no memory for so many.
pub(crate) fn count_of(names: &[&str]) -> Result<u32, AllocError>
    ensures { IfOk result (λ count. count ≡ length names.now) }
{
    if names.len() < 1 << 32 {
        Ok(names.len() as u32)
    } else {
        Err(AllocError)
    }
}

/// Returns `count` numbers from `first` on, or out of memory if they reach 2^32: there is no memory for so many.
pub(crate) fn range_of(alloc: Global, first: u32, count: u32) -> Result<NumberList, AllocError>
    ensures { IfOk result (λ numbers. numbers ≡ range_with_len first count) }
{
    let mut numbers = Vec::new(alloc);
    for i in 0..count {
        let Some(number) = first.checked_add(i) else {
            return Err(AllocError);
        };
        numbers.push(number)?;
    }
    Ok(BlockList::from_vec(numbers)?)
}
