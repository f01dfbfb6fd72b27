ghost use Rattle.std.specs.Prelude.{◌≡◌, ◌≢◌, Err, IsTrue};
ghost use Rattle.ckc_outside.specs.Outside.{one_more, store_faults_after};
ghost use Rattle.ckc_cli_calls.specs.Files.{Gives, OnlyFetched, KeptOnce};

use ckc_outside::{Fetched, Store, StoreError};
use std::alloc::Global;

/// What the store has under a name, by one call. Nothing is kept.
pub fn fetch_file<F: Store>(
    alloc: Global,
    name: &str,
    limit: u64,
    store: &mut F,
) -> Result<Fetched, StoreError>
    ensures gives { Gives name.now limit (F.seen store.old) result }
    ensures only { OnlyFetched (F.seen store.old) (F.seen store.new) }
    ensures faults { (F.seen store.new).faults
        ≡ store_faults_after result (F.seen store.old).faults }
    ensures asked { (F.seen store.new).fetches ≡ one_more (F.seen store.old).fetches }
    ensures limited { (F.seen store.new).limit ≡ limit }
{
    store.fetch(alloc, name, limit)
}

/// Keeps bytes under a name, in one call.
pub fn keep_file<F: Store>(name: &str, bytes: &[u8], store: &mut F) -> Result<(), StoreError>
    ensures kept { KeptOnce (F.seen store.old) (F.seen store.new) name.now bytes.now result }
    ensures faults { (F.seen store.new).faults
        ≡ store_faults_after result (F.seen store.old).faults }
    ensures unasked { (F.seen store.new).fetches ≡ (F.seen store.old).fetches }
    ensures limited { (F.seen store.new).limit ≡ (F.seen store.old).limit }
    ensures steady { IsTrue (F.seen store.old).steady → result ≢ Err StoreError.Failed }
{
    store.keep(name, bytes)
}
