//! Walks over lists, up to the first item that is refused.

ghost use Rattle.cpn_module.specs.Walks.{IsWalk};

use crate::refusals::ModuleError;

/// Checks each item of a list with its number, in order, up to the first that is refused.
pub(crate) fn check_each<T, F: Fn(usize, &T) -> Result<(), ModuleError>>(
    items: &[T],
    check: F,
) -> Result<(), ModuleError>
    requires callable { F.IsAlwaysCallable check }
    ensures walked { IsWalk (F.post check) 0 items.now result }
{
    for (number, item) in items.iter().enumerate() {
        check(number, item)?;
    }
    Ok(())
}
