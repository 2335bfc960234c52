//! Whether a form leaves a register where its value is not used (C11 6.8.3p2).
ghost use Rattle.std.specs.Prelude.{◌≡◌, IfOk};
ghost use Rattle.lowering.specs.Calls.{Fills, fills_called};
ghost use Rattle.lowering.specs.Reading.{LeavesNothing, form_in};

use crate::called::{Called, called_by};
use crate::form::TreeForm;
use crate::source::Source;
use c_machine::BuiltIn;
use cbase::{Expr, NoMemory};

/// Whether what a call calls leaves no register where its value is not used.
fn fills_by(source: &Source, callee: &Expr) -> Result<bool, NoMemory>
    ensures { IfOk result (λ nothing. Fills source.now callee.now nothing) }
{
    let called = called_by(source, callee)?;
    Ok(fills_called(&called))
}

/// Whether what is called leaves no register where its value is not used.
fn fills_called(called: &Called) -> bool
    ensures { result ≡ fills_called called.now }
{
    match called {
        Called::BuiltIn { what, .. } => {
            matches!(what, BuiltIn::Memset | BuiltIn::Memcpy | BuiltIn::Memmove)
        }
        Called::Body { .. } => false,
        Called::Nothing => false,
    }
}

/// Whether a form leaves no register where its value is not used: a store, and what has no value.
pub fn leaves_nothing(source: &Source, form: &TreeForm) -> Result<bool, NoMemory>
    ensures { IfOk result (λ nothing. LeavesNothing source.now (form_in form.now) nothing) }
{
    match form {
        TreeForm::Assign { .. } => Ok(true),
        TreeForm::Count { .. } => Ok(true),
        TreeForm::Call { callee, .. } => fills_by(source, callee.get()),
        _ => Ok(false),
    }
}
