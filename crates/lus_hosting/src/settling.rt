//! When answers that are held are due.

ghost use Rattle.std.specs.Prelude.{◌≡◌, true};
ghost use Rattle.lus_hosting.specs.declared.turns.Kind.TheVariants.{Ended, Unfinished};

use crate::turns::Kind;
use lus_bursts::Waiting;

/// Whether answers are due behind a line of this kind: all that are held, but where the log is synced those before a line that was read
/// ahead, which then are answered with it.
pub(crate) fn are_due(kind: Kind, is_synced: bool, waiting: &Waiting) -> bool
    ensures unfinished { kind ≡ Unfinished → result ≡ true }
    ensures ended { kind ≡ Ended → result ≡ true }
{
    match kind {
        Kind::Unfinished | Kind::Ended => true,
        Kind::Called | Kind::Replayed | Kind::Noted | Kind::Denied | Kind::Wrong | Kind::NoEntry =>
            !is_synced || waiting.take(),
    }
}
