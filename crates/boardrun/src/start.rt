// The board that the program starts with.
ghost use Rattle.std.specs.Prelude.{◌≡◌};
ghost use Rattle.boardrun.specs.Starts.{Starts};

use board::size::Place;
use board::state::Board;
use board_line::serve::Answerer;
use digest::Fnv;
use lines::serve::Serving;
use sample_keys::sample_keys;
use seal::sip::SipSeal;
use store::Store;
use store::table::Table;

// Board 0 of four, of which one may lie.
fn place() -> Place
    ensures { (result.size.f ≡ 1) × (result.number ≡ 0) }
{
    match Place::new(1, 0) {
        Ok(checked) => checked,
        Err(_) => unreachable(),
    }
}

// A new board, and no line begun.
pub fn start() -> Serving<Answerer<Table, Fnv, SipSeal>>
    ensures { Starts result }
{
    let board: Board<Table, Fnv, SipSeal> = Board::new(
        place(),
        (),
        Fnv,
        SipSeal::new(sample_keys()),
    );
    Serving::new(Answerer::new(board))
}
