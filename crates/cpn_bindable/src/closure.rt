//! Which variables are found from those that are known, equation by equation.

ghost use Rattle.std.specs.Prelude.{◌≡◌, ◌∷◌, ℕ, length, IfOk};
ghost use Rattle.std.specs.List.{list_all};
ghost use Rattle.cpn_typing.specs.Closure.{found_in};
ghost use Rattle.cpn_bindable.specs.Equations.{equations_view};
ghost use Rattle.cpn_bindable.specs.Known.{unlisted, is_listed, IsReadyIndex, first_not};

use crate::equations::Equation;
use cpn_core::Memory;

/// Whether the variable is one of those that are known.
#[tactic(auto, using(crate::proofs::ListedNumbers::flipped))]
pub(crate) fn is_known(known: &[u32], number: u32) -> bool
    ensures exact { result ≡ is_listed known.now number }
{
    known.contains(&number)
}

/// Whether each of the variables is.
fn are_known(known: &[u32], numbers: &[u32]) -> bool
    ensures exact { result ≡ list_all (is_listed known.now) numbers.now }
{
    for number in numbers {
        if !is_known(known, *number) {
            return false;
        }
    }
    true
}

/// The first of the variables that is not known.
pub(crate) fn first_unknown(known: &[u32], numbers: &[u32]) -> Option<u32>
    ensures exact { result ≡ first_not (is_listed known.now) numbers.now }
{
    for number in numbers {
        if !is_known(known, *number) {
            return Some(*number);
        }
    }
    None
}

/// Makes the variable known.
pub(crate) fn learn(known: &mut Vec<u32>, number: u32) -> Result<(), Memory>
    ensures known { IfOk result (λ _. (x : ℕ) → is_listed known.new.items x ≡ is_listed (number ∷ known.old.items) x) }
{
    if is_known(known, number) {
        return Ok(());
    }
    known.push(number)?;
    Ok(())
}

/// The index of the first equation whose sources are all known.
fn ready_index(equations: &[Equation], known: &[u32]) -> Option<usize>
    ensures index { IsReadyIndex (is_listed known.now) (equations_view equations.now) result }
{
    for index in 0..equations.len() {
        if are_known(known, &equations[index].sources) {
            return Some(index);
        }
    }
    None
}

/// All variables that are found: as long as an equation has all its sources known, its variable becomes known, and the
/// equation is done with.
pub(crate) fn all_found(
    mut equations: Vec<Equation>,
    mut known: Vec<u32>,
) -> Result<Vec<u32>, Memory>
    ensures found { IfOk result (λ all. (x : ℕ) → is_listed all.items x ≡ is_listed (found_in (length equations.entry.items) unlisted known.items (equations_view equations.entry.items)) x) }
{
    while let Some(index) = ready_index(&equations, &known) {
        let equation = equations.remove(index);
        learn(&mut known, equation.variable)?;
    }
    Ok(known)
}
