// The numbers of the sixteen clients.
ghost use Rattle.std.specs.Prelude.{◌≡◌, ℕ, ◌<◌, List, [], Decides, ◌≢◌};
ghost use Rattle.numbers.specs.Sequence.{Open};
ghost use Rattle.numbers.specs.Tracking.{Untouched};
ghost use Rattle.numbers.specs.Clients.{TracksAll, UsesUpOf, numbers_of};

use crate::client::{NotOpen, Numbers};

// How many clients there are.
pub const CLIENTS: usize = 16;

#[derive(Clone, Copy)]
pub struct Clients {
    numbers: [Numbers; CLIENTS],
}

impl Clients {
    pub fn new() -> Clients
        ensures { TracksAll 2 result (λ _. []) }
    {
        let numbers = Numbers::new();
        Clients {
            numbers: [numbers; CLIENTS],
        }
    }

    pub fn is_open(&self, client: u8, s: u32) -> bool
        ensures { (used : ℕ → List ℕ) → TracksAll 2 self.now used → Decides result ((client < 16) × Open 2 (used client) s) }
    {
        let numbers = self.numbers.get(usize::from(client));
        numbers.is_some_and(|numbers| numbers.is_open(s))
    }

    // Uses up an open number of a client and answers the one that is opened, if one is left; an error, and nothing changed, where it is not open.
    pub fn use_up(&mut self, client: u8, s: u32) -> Result<Option<u32>, NotOpen>
        ensures used { (used : ℕ → List ℕ) → TracksAll 2 self.old used → UsesUpOf 2 self.old self.new used client s result }
        ensures kept { Untouched self.old self.new result }
        ensures others { (k : ℕ) → (k ≢ client) → numbers_of self.new k ≡ numbers_of self.old k }
    {
        // Indexed, since `get_mut` says nothing of the other clients' numbers.
        let client = client as usize;
        if client >= CLIENTS {
            return Err(NotOpen);
        }
        let numbers = &mut self.numbers[client];
        numbers.use_up(s)
    }
}
