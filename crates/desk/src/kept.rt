// A step that leaves the desk, the records and the area as they stood.
ghost use Rattle.std.specs.Prelude.{◌≡◌};
ghost use Rattle.desk.specs.Steps.{keeps};

use crate::{Answer, Desk, Stepped};

#[tactic(auto, unfolding(crate::specs::Steps::keeps))]
pub(crate) fn keeps(desk: Desk, answer: Answer) -> Stepped
    ensures { result ≡ keeps desk answer }
{
    Stepped {
        answer,
        laid: sending::no_laid(),
        desk,
        marks: records::no_marks(),
    }
}
