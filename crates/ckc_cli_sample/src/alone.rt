ghost use Rattle.std.specs.Prelude.{◌≡◌, ◌≢◌, ◌<◌, ◌^◌, IfOk};
ghost use Rattle.ckc_rv.specs.Machine.{Parts};
ghost use Rattle.ckc_cli_sample.specs.Alone.{RunsAlone};

use ckc_base_counts::one_more;
use ckc_image::View;
use ckc_machine::{Machine, Observed, events_since};
use ckc_outside::{Failed, Sink, Source};
use std::alloc::{AllocError, Global};

/// An input of no bytes. It counts how often it was asked.
#[derive(Drop)]
struct Nothing {
    asks: u64,
}

/// An output that counts the pieces that are put, and keeps none.
#[derive(Drop)]
struct Counter {
    puts: u64,
}

impl Source for Nothing {
    ghost use Rattle.ckc_cli_sample.specs.code.Alone.{seen_nothing};

    ghost seen = { seen_nothing };

    fn next(&mut self) -> Result<Option<u8>, Failed> {
        self.asks = one_more(self.asks);
        Ok(None)
    }
}

impl Sink for Counter {
    ghost use Rattle.ckc_cli_sample.specs.code.Alone.{seen_counter};

    ghost seen = { seen_counter };

    fn put(&mut self, _piece: &[u8]) -> Result<(), Failed> {
        self.puts = one_more(self.puts);
        Ok(())
    }
}

/// What the machine of an image shows that is given no input, and how many bytes it puts.
pub fn run_alone<'a>(
    alloc: Global,
    view: View<'a>,
    limit: u64,
) -> Result<(Observed, u32), AllocError>
    requires { limit < 2 ^ 32 }
    ensures ran { IfOk result (λ ran. (parts : Parts) → parts.entry ≡ view.entry.entry
        → parts.code ≡ view.entry.code.now → parts.initial ≡ view.entry.initial.now
        → RunsAlone parts limit ran.0 ran.1) }
    ensures unfailing { IfOk result (λ ran. (ran.0 ≢ Observed.ReadFault)
        × (ran.0 ≢ Observed.WriteFault)) }
{
    let mut input = Nothing { asks: 0 };
    let mut out = Counter { puts: 0 };
    let mut machine = Machine::load(alloc, view)?;
    let observed = machine.run(limit, &mut input, &mut out);
    events_since();
    Ok((observed, out.puts as u32))
}
