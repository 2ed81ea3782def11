//! The steps of one place at the table.
ghost use Rattle.std.specs.Prelude.{◌≡◌, ◌+◌, ◌<◌, ◌++◌, ◌∷◌, MatchResult};
ghost use Rattle.lus_shared.specs.Told.{IsAlone, its_facts, Looked, Took};
ghost use Rattle.lus_shared.specs.Calls.{Called, Missed};

use crate::refusal::{Busy, TryError};
use crate::rule::{Board, Give, Look, Place, Take};
use lus_machine::{CallError, Machine};
use lus_requests::{Reply, Request};

/// Takes the machine where it is at home, and answers the word as it was found.
pub(crate) fn take(board: &Board, place: &mut Place) -> Result<u64, u64>
    requires table { (place.old.table_id ≡ board.now.shared.table_id) × (board.now.shared.table_id.words ≡ 1) }
    requires alone { IsAlone place.old.me }
    ensures same { (place.new.table_id ≡ place.old.table_id) × (place.new.id ≡ place.old.id) }
    ensures told { MatchResult result (Took (its_facts place.old.me) place.new.me) (Looked (its_facts place.old.me) place.new.me) }
{
    let shared = &board.shared;
    let word = shared.load::<Look>(place, 0);
    if word % 2 == 1 {
        return Err(word);
    }
    let found = shared.compare_exchange::<Take>(place, 0, word, word + 1);
    if found == word { Ok(found) } else { Err(found) }
}

/// Makes one call at the machine where it is at home.
pub(crate) fn call_at(
    board: &Board,
    place: &mut Place,
    number: u32,
    request: &Request,
) -> Result<Reply, TryError>
    requires table { (place.old.table_id ≡ board.now.shared.table_id) × (board.now.shared.table_id.words ≡ 1) }
    requires alone { IsAlone place.old.me × ((its_facts place.old.me).number ≡ number) }
    ensures same { (place.new.table_id ≡ place.old.table_id) × (place.new.id ≡ place.old.id) }
    ensures told { let facts = its_facts place.old.me in
        MatchResult result (Called facts place.new.me request.now) (Missed facts place.new.me) }
{
    match take(board, place) {
        Ok(found) => {
            match place.slot_mut(&board.shared, 0).call(number, request) {
                Ok(reply) => {
                    board.shared.store::<Give>(place, 0, found + 2);
                    Ok(reply)
                }
                Err(error) => {
                    board.shared.store::<Give>(place, 0, found);
                    Err(match error {
                        CallError::Memory => TryError::Memory,
                        CallError::Full => TryError::Full,
                    })
                }
            }
        }
        Err(found) => Err(TryError::Busy(Busy(found / 2))),
    }
}
