// Document 02, W7: what a call would add to the counts is known before anything lent changes. Where a count is near its
// limit, the work of the call is done on copies of the blocks first.
#![tactic(auto)]

ghost use Rattle.std.specs.Prelude.{◌≡◌, [], ◌∷◌};
ghost use Rattle.manual.specs.Lent.{as_found, as_lent, keeps_loans};
ghost use Rattle.manual.specs.Answers.{◌if◌, first_that_applies};
ghost use Rattle.judgement.specs.Checks.{check_number};
ghost use Rattle.std.specs.Borrow.{MutBor};
ghost use Rattle.manual.specs.declared.LentMut.{LentMut};
ghost use Rattle.rehearsal.specs.Copies.{AsLong, FitCopies};

use manual::{Lent, LentMut, Refusal};

// The state, copied into blocks that are as long.
pub fn copy_state(state: &Lent, copies: &mut LentMut)
    requires { AsLong (as_found state.now) (as_lent copies.old) }
    ensures loans { keeps_loans copies.old copies.new }
    ensures promise { as_lent copies.new ≡ as_found state.now }
{
    writing::copy(state.records, copies.records);
    writing::copy(state.debounce, copies.debounce);
    writing::copy(state.memory, copies.memory);
    copies.board = state.board;
}

// The work of a call, done on copies of the state that it is lent, before anything lent changes: what it answers there.
pub fn on_copies<T, F: FnOnce(&mut LentMut) -> T>(state: &Lent, work: F) -> T
    requires room { FitCopies (as_found state.now) }
    requires work { (copies : MutBor LentMut) → as_lent copies.now ≡ as_found state.now → F.pre work copies }
    ensures { (copies left : MutBor LentMut) × (as_lent copies.now ≡ as_found state.now)
        × F.post work copies result left }
{
    let mut records = [0; manual::MOST_RECORDS];
    let mut debounce = [0; manual::MOST_EVENTS];
    let mut memory = [0; manual::MOST_MEMORY];
    let mut copies = LentMut {
        records: &mut records[..state.records.len()],
        debounce: &mut debounce[..state.debounce.len()],
        memory: &mut memory[..state.memory.len()],
        board: state.board,
    };
    copy_state(state, &mut copies);
    work(&mut copies)
}

// "refused with new number 12, checked last"
pub fn limit_test(past: bool) -> Result<(), Refusal>
    ensures { check_number result ≡ first_that_applies ((12 if past) ∷ []) }
{
    if past {
        return Err(Refusal::CountsFull);
    }
    Ok(())
}
