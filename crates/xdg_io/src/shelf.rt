//! Where files are loaded from.

ghost use Rattle.std.specs.Prelude.{◌≡◌, ◌≢◌, Option, ◌<◌, ◌≤◌, ◌+◌, ℕ, List, length, IfOk, IfErr, MatchResult};
ghost use Rattle.xdg_io.specs.Files.{HasFile, HasLongFile};
ghost use Rattle.xdg_io.specs.Rose.{Rose};

use crate::LoadStop;
use std::alloc::Global;

/// Loads whole files by their names. No call changes a file.
pub trait Shelf {
    /// The bytes of the file of each name that is there, where the files are told.
    ghost files: { Self → Option (List ℕ → Option (List ℕ)) };

    /// How often the shelf has failed for a name. It stops at the greatest number of its type.
    ghost faults: { Self → List ℕ → ℕ };

    /// The bytes of a file, of which there are to be at most `limit`. For a name that is not there
    /// the shelf fails.
    fn load(&mut self, alloc: Global, name: &str, limit: u64) -> Result<Vec<u8>, LoadStop>
        requires { limit < 18446744073709551615 }
        ensures within { IfOk result (λ bytes. length bytes.items ≤ limit) }
        ensures file { IfOk result (λ bytes. HasFile (files self.old) name.now bytes.items) }
        ensures reached { IfErr result (λ stop. (reached : ℕ) → stop ≡ LoadStop.TooLong reached →
            (reached ≡ limit + 1) × HasLongFile (files self.old) name.now limit) }
        ensures cause { IfErr result (λ stop. stop ≡ LoadStop.Failed →
            Rose (faults self.old name.now) (faults self.new name.now)) }
        ensures kept { files self.new ≡ files self.old }
        ensures lasting { (other : List ℕ) → faults self.old other ≤ faults self.new other }
        ensures quiet { (other : List ℕ) → MatchResult result (λ _. faults self.new other ≡ faults self.old other) (λ stop.
            stop ≢ LoadStop.Failed → faults self.new other ≡ faults self.old other) };
}
