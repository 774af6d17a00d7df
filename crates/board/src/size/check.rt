// The check of f and of a board's number.
ghost use Rattle.std.specs.Prelude.{◌≡◌, ◌+◌, ◌*◌, ◌<◌, ◌≤◌, Ok, Err};
ghost use Rattle.fault.specs.Codes.{fault};
ghost use Rattle.fault.specs.declared.Cause.TheVariants.{NotMember};
ghost use Rattle.fault.specs.declared.Layer.TheVariants.{Board};

use super::Place;
use cluster_size::ClusterSize;
use fault::{Cause, Fault, Layer};

impl Place {
    // Refuses f outside 1 to 5, and a number that is not below 3f + 1.
    pub fn new(f: u8, number: u8) -> Result<Place, Fault>
        ensures { elim result [ Ok p ↦ (p.size.f ≡ f) × (p.number ≡ number) × (1 ≤ f) × (f ≤ 5) × (number < 3 * f + 1) | Err e ↦ ((1 ≤ f → f ≤ 5 → 3 * f + 1 ≤ number) × (e ≡ fault NotMember Board 0)) ] }
    {
        let size = ClusterSize::new(f)?;
        if number >= size.boards() {
            return Err(Cause::NotMember.at(Layer::Board, 0));
        }
        Ok(Place { size, number })
    }

    // How many boards may lie.
    pub fn faults(self) -> u8
        ensures { result ≡ self.size.f }
    {
        self.size.faults()
    }

    // The board's number.
    pub fn number(self) -> u8
        ensures { (result ≡ self.number) × ((result < 3 * self.size.f + 1) × (result < 16)) }
    {
        self.number
    }
}
