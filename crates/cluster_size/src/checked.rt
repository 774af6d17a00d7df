// How a size is checked.
ghost use Rattle.std.specs.Prelude.{◌≡◌};
ghost use Rattle.cluster_size.specs.Sizes.{Checked, members};

use super::ClusterSize;
use fault::{Cause, Fault, Layer};

impl ClusterSize {
    // A size for up to f faulty boards; refused unless f is 1 to 5.
    pub fn new(f: u8) -> Result<ClusterSize, Fault>
        ensures { Checked f result }
    {
        if f < 1 || f > 5 {
            return Err(Cause::NotMember.at(Layer::Board, 0));
        }
        Ok(ClusterSize { f })
    }

    // How many boards may lie.
    pub fn faults(self) -> u8
        ensures { result ≡ self.f }
    {
        self.f
    }

    // How many boards there are.
    pub fn boards(self) -> u8
        ensures { result ≡ members self.f }
    {
        3 * self.f + 1
    }
}
