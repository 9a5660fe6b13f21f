// The clause of question 4 on the newest raw bar, alone. It reads the last place of each column only,
// so that its cost is a constant.
ghost use Rattle.sound.specs.Code.NewestBar.{NewestRoom, NewestIs};

use super::soundness::newest_named;
use strokes::Stand;

// The newest raw bar, if any, is the last element of the last unfinished bar.
pub fn newest_is_last(stand: Stand, rt: &[i64], uc: &[usize], ue: &[[i64; 101]]) -> bool
    requires { NewestRoom stand rt.now uc.now ue.now }
    ensures { NewestIs stand rt.now uc.now ue.now result }
{
    let n = stand.raw;
    let m = stand.unfinished;
    newest_named(&rt[..n], &uc[..m], &ue[..m])
}
