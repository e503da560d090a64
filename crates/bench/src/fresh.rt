// A bench that nothing has happened to yet.
ghost use Rattle.std.specs.Prelude.{◌≡◌};
ghost use Rattle.state.specs.State.{fresh};
ghost use Rattle.state.specs.Tabled.{bench_of};

use replica::Replica;
use state::Bench;

// A bench that was just started; of 0 processes and 0 registers it is none.
pub fn fresh_bench(n: u8, m: u8) -> Bench
    ensures { result ≡ bench_of (fresh n m) }
{
    Bench {
        n,
        m,
        accepted: 0,
        sent: 0,
        delivered: 0,
        lost: 0,
        flight: 0,
        rows: 0,
        replicas: [Replica::default(); 7],
    }
}
