//! The server's answers among those of a tunnel.
ghost use Rattle.std.specs.Prelude.{◌≡◌};
ghost use Rattle.satip_interleave.specs.Answers.{IsInner};

use crate::events::TunnelAnswer;
use satip_plain::{Answer, Beat};

/// Returns the server's answer in one of a tunnel. The lanes answer no event of the server, so no
/// client sees the value returned for their answers.
pub(crate) fn server_answer(answer: TunnelAnswer) -> Answer
    ensures told { IsInner answer → answer ≡ TunnelAnswer.Inner result }
{
    let nobody = Answer::Beat(Beat::Going);
    match answer {
        TunnelAnswer::Inner(answer) => answer,
        TunnelAnswer::Lane(_number) => nobody,
        TunnelAnswer::Full => nobody,
        TunnelAnswer::Frames(_count) => nobody,
        TunnelAnswer::Empty => nobody,
        TunnelAnswer::Broken => nobody,
        TunnelAnswer::Gone => nobody,
        TunnelAnswer::Left => nobody,
    }
}
