// 02, item 6: a booked bend in a state, from newer and older string.
ghost use Rattle.std.specs.Prelude.{◌≡◌};
ghost use Rattle.model.specs.Book.{columns};
ghost use Rattle.model.specs.Lending.{the_state};
ghost use Rattle.model.specs.Refusal.{answer_of};
ghost use Rattle.booked_bend.specs.BookedBend.{bend_on};

use book::entering::with_bend;
use book::refusals::columns_ok;
use energy::stored::stored_energy;
use energy::work::bend_work;
use examination::rows::state_ok;
use model::refusal::Refusal;
use model::{Book, Setup, State};
use ranges::lengths::lengths_ok;
use setup::bend::with_tension;
use setup::examine_setup;

// Its table of refusals, row by row, and then the bend entered: its work, and the stored energy by the new setup. The old tension is not examined.
pub fn bend_state(
    setup: Setup,
    tension: u32,
    state: State,
    book: &mut Book,
) -> Result<Setup, Refusal>
    ensures { record { answer = answer_of result; book = columns book.new } ≡ bend_on setup (the_state state.entry) (columns book.old) tension }
{
    let next = with_tension(setup, tension);
    examine_setup(next)?;
    let lengths = [state.newer.len(), state.older.len(), state.contact.len()];
    if !lengths_ok(next, &lengths) {
        return Err(Refusal::BufferLength);
    }
    if !state_ok(state) {
        return Err(Refusal::State);
    }
    if !columns_ok(*book) {
        return Err(Refusal::BookColumn);
    }
    let work = bend_work(setup.tension, tension, state.newer, state.older);
    let stored = stored_energy(next, state);
    *book = with_bend(*book, stored, work);
    Ok(next)
}
