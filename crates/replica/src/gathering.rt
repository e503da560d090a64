// What a query gathers from each response that counts.
ghost use Rattle.std.specs.Prelude.{◌≡◌};
ghost use Rattle.replica.specs.Gathering.{gathered_with};

use crate::Gathered;
use words::Pair;
use words::stamps::newer_of;

impl Gathered {
    // With one more response, which bears `pair`.
    pub(crate) fn with(self, pair: Pair) -> Gathered
        ensures { result ≡ gathered_with self pair }
    {
        Gathered {
            best: newer_of(self.best, pair),
        }
    }
}
