ghost use Rattle.std.specs.Prelude.{◌≡◌, ◌++◌, ◌∷◌, [], IfOk};
ghost use Rattle.wide_script.specs.Drawn.{chosen};

use std::alloc::AllocError;
use task_base::{Action, Step};

/// Adds those steps beside which it is said that they are there.
pub(crate) fn add_steps(steps: &mut Vec<Step>, choices: &[(bool, Step)]) -> Result<(), AllocError>
    ensures { IfOk result (λ _. steps.new.items ≡ steps.old.items ++ chosen choices.now) }
{
    for choice in choices {
        add_step(steps, *choice)?;
    }
    Ok(())
}

fn add_step(steps: &mut Vec<Step>, choice: (bool, Step)) -> Result<(), AllocError>
    ensures { IfOk result (λ _. steps.new.items ≡ steps.old.items ++ chosen (choice ∷ [])) }
{
    if !choice.0 {
        return Ok(());
    }
    steps.push(choice.1)?;
    Ok(())
}

/// Adds those actions beside which it is said that they are there.
pub(crate) fn add_actions(
    actions: &mut Vec<Action>,
    choices: &[(bool, Action)],
) -> Result<(), AllocError>
    ensures { IfOk result (λ _. actions.new.items ≡ actions.old.items ++ chosen choices.now) }
{
    for choice in choices {
        add_action(actions, *choice)?;
    }
    Ok(())
}

fn add_action(actions: &mut Vec<Action>, choice: (bool, Action)) -> Result<(), AllocError>
    ensures { IfOk result (λ _. actions.new.items ≡ actions.old.items ++ chosen (choice ∷ [])) }
{
    if !choice.0 {
        return Ok(());
    }
    actions.push(choice.1)?;
    Ok(())
}
