ghost use Rattle.std.specs.Prelude.{◌≡◌, ◌≢◌, ℕ, List, Ok, Err, None, Some, IsTrue, IsErrOf};
ghost use Rattle.std.specs.FinMap as map;
ghost use Rattle.ckc_outside.specs.Outside.{one_more, faults_after, store_faults_after, Files, SeenSink, SeenSource, Stored, GivesNext, GivesNothing, after_next, Puts, IsWithin, GivesFile, TakesFile, after_keep};

use ckc_base::Bytes;
use std::alloc::Global;
use thiserror::Error;

/// The system, or an object in its place, refused a call.
#[derive(Clone, Copy, Debug, Error)]
#[error("the object failed")]
pub struct Failed;

/// Why a store did not fetch or keep.
#[derive(Clone, Copy, Debug, Error)]
pub enum StoreError {
    #[error("the store failed")]
    Failed,
    #[error("out of memory")]
    Memory,
}

/// What a store fetched: the whole file, or the word that it is longer than the limit.
#[derive(Drop)]
pub enum Fetched {
    Whole(Bytes),
    Longer,
}

/// A source of input bytes.
pub trait Source {
    /// What is seen of it. It may tell the bytes that are left. Once it said that there is none it gives none. The
    /// counts of the calls, of the bytes that it gave and of the faults stand still at 2^64 - 1.
    ghost seen: { Self → SeenSource };

    /// Takes the next byte, or says that there is none.
    fn next(&mut self) -> Result<Option<u8>, Failed>
        ensures faults { (seen self.new).faults ≡ faults_after result (seen self.old).faults }
        ensures asked { (seen self.new).asks ≡ one_more (seen self.old).asks }
        ensures told { (bytes : List ℕ) → (seen self.old).left ≡ Some bytes
            → GivesNext bytes result (seen self.new).left }
        ensures end { result ≡ Ok None → IsTrue (seen self.new).ended }
        ensures stays { IsTrue (seen self.old).ended → IsTrue (seen self.new).ended }
        ensures nothing { IsTrue (seen self.old).ended → GivesNothing result }
        ensures answered { (seen self.new).answers ≡ after_next result (seen self.old).answers };
}

/// A sink of output bytes.
pub trait Sink {
    /// What is seen of it. It may tell the bytes that were written. The counts of the faults and of the pieces that
    /// were put, those that failed too, stand still at 2^64 - 1.
    ghost seen: { Self → SeenSink };

    /// Writes a piece after what was written. A failure may leave a prefix of it there.
    fn put(&mut self, piece: &[u8]) -> Result<(), Failed>
        ensures faults { (seen self.new).faults ≡ faults_after result (seen self.old).faults }
        ensures told { (bytes : List ℕ) → (seen self.old).written ≡ Some bytes
            → Puts bytes piece.now result (seen self.new).written }
        ensures once { (seen self.new).puts ≡ one_more (seen self.old).puts };
}

/// A store of named files.
pub trait Store {
    /// What is seen of it. It may tell its files by name. If it is steady it stays so, never fails to keep, and
    /// fails to fetch only a name that it lacks. The counts of the faults, of the calls of `fetch` and of `keep` and
    /// of those that were done stand still at 2^64 - 1.
    ghost seen: { Self → Stored };

    /// The bytes under a name, if they are at most `limit` many. A missing name is a fault.
    fn fetch(&mut self, alloc: Global, name: &str, limit: u64) -> Result<Fetched, StoreError>
        ensures faults { (seen self.new).faults ≡ store_faults_after result (seen self.old).faults }
        ensures asked { (seen self.new).fetches ≡ one_more (seen self.old).fetches }
        ensures limited { (seen self.new).limit ≡ limit }
        ensures within { IsWithin limit result }
        ensures unchanged { (seen self.new).files ≡ (seen self.old).files }
        ensures told { (here : Files) → (seen self.old).files ≡ Some here
            → GivesFile (map.get here name.now) limit result }
        ensures steady { IsTrue (seen self.old).steady → IsTrue (seen self.new).steady }
        ensures lacks { (here : Files) → IsTrue (seen self.old).steady
            → (seen self.old).files ≡ Some here
            → IsErrOf result StoreError.Failed → map.get here name.now ≡ None }
        ensures unkept { (seen self.new).keeps ≡ (seen self.old).keeps }
        ensures undone { (seen self.new).kept ≡ (seen self.old).kept };

    /// Puts bytes under a name, in place of what was there. After an `Err` that name may hold anything.
    fn keep(&mut self, name: &str, bytes: &[u8]) -> Result<(), StoreError>
        ensures faults { (seen self.new).faults ≡ store_faults_after result (seen self.old).faults }
        ensures unasked { (seen self.new).fetches ≡ (seen self.old).fetches }
        ensures limited { (seen self.new).limit ≡ (seen self.old).limit }
        ensures told { (here : Files) → (seen self.old).files ≡ Some here
            → TakesFile here name.now bytes.now result (seen self.new).files }
        ensures steady { IsTrue (seen self.old).steady → IsTrue (seen self.new).steady
            × (result ≢ Err StoreError.Failed) }
        ensures once { (seen self.new).keeps ≡ one_more (seen self.old).keeps }
        ensures done { (seen self.new).kept ≡ after_keep result (seen self.old).kept };
}
