// What a board is made of.
ghost use Rattle.std.specs.Prelude.{◌≡◌, ◌≤◌, length};
ghost use Rattle.octets.specs.Numbers.{limit};

use crate::size::Place;
pub use answer::mark::Mark;
use numbers::clients::Clients;
use window::ring::Window;

pub mod calls;
pub mod deliver;
pub mod proofs;
pub mod share_in;
pub mod shares;

// One store, one digest and one seal; the commits so far are in the store, the count, the chain and the window.
#[derive(Drop)]
pub struct Board<S, D, L> {
    store: S,
    digest: D,
    seal: L,
    place: Place,
    count: u32,
    chain: [u8; 32],
    clients: Clients,
    window: Window,
    ghost few: { count ≤ limit 2 },
    ghost whole: { length chain ≡ 32 },
}
