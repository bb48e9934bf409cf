//! Events that are refused.

ghost use Rattle.std.specs.Prelude.{◌≡◌, ◌∷◌, ◌++◌, [], IfErr, OnOk};
ghost use Rattle.run_text.specs.Lines.{happened_text};

use crate::fault::StepFault;
use crate::names::Names;
use reload_base::Bytes;
use run_model::Happening;
use run_text::put_happening;

/// An event is refused: its line is appended, and nothing else happens.
#[tactic(auto, unfolding(run_text::specs::Lines::happened_text))]
pub(crate) fn refused(out: &mut Bytes, names: &Names, why: Happening) -> Result<(), StepFault>
    ensures told { OnOk result (out.new ≡ out.old ++ happened_text names.now (why ∷ [])) }
    ensures err { IfErr result (λ e. e ≡ StepFault.NoMemory) }
{
    put_happening(out, names.as_slice(), &why)?;
    Ok(())
}
