ghost use Rattle.std.specs.Prelude.{◌≡◌, ◌≢◌, ℕ, List, take, Option, Some, None, Bool, IsTrue, OnOk, OnErr, IsErrOf, Err, is_none, ◌||◌};
ghost use Rattle.std.specs.FinMap as map;
ghost use Rattle.std.specs.Option.{option_copied};
ghost use Rattle.ckc_outside.specs.Outside.{one_more, store_faults_after, Files, IsWithin, GivesFile, TakesFile, after_keep};
ghost use Rattle.ckc_outside.specs.Memory.{is_listed, after_call};
ghost use Rattle.ckc_outside.specs.MemStore.{files_of, files_in, plan_of, cut_of, is_steady, seen_of, has_failed, Torn, LeftByKeep};

use super::plan::Plan;
use crate::traits::{Fetched, Store, StoreError};
use ckc_base::Bytes;
use ckc_base_counts::one_more;
use std::alloc::{AllocError, Global};
use std::collections::BTreeMap;

/// A store in memory, which fails at the calls that are listed and if a name is missing.
#[derive(Drop)]
pub struct MemStore<'a> {
    alloc: Global,
    files: BTreeMap<String, Vec<u8>>,
    plan: Plan<'a>,
    cut: Option<u64>,
    fetches: u64,
    limit: u64,
    keeps: u64,
    kept: u64,
}

impl<'a> MemStore<'a> {
    /// An empty store. `fail` lists the numbers of the calls of both kinds, from 1, that answer `Failed`.
    pub fn new(alloc: Global, fail: &'a [u64]) -> MemStore<'a>
        ensures files { files_of result ≡ map.empty }
        ensures listed { (plan_of result).listed ≡ fail.now }
        ensures calls { (plan_of result).calls ≡ 0 }
        ensures faults { (plan_of result).faults ≡ 0 }
        ensures cut { cut_of result ≡ None }
        ensures fetches { (seen_of result).fetches ≡ 0 }
        ensures keeps { (seen_of result).keeps ≡ 0 }
        ensures kept { (seen_of result).kept ≡ 0 }
    {
        MemStore {
            alloc,
            files: BTreeMap::new(alloc),
            plan: Plan::new(fail),
            cut: None,
            fetches: 0,
            limit: 0,
            keeps: 0,
            kept: 0,
        }
    }

    /// The same, but a listed `keep` leaves the first `cut` bytes of its file under the name, or all if it has fewer,
    /// unless memory runs out.
    pub fn torn(alloc: Global, fail: &'a [u64], cut: u64) -> MemStore<'a>
        ensures files { files_of result ≡ map.empty }
        ensures listed { (plan_of result).listed ≡ fail.now }
        ensures calls { (plan_of result).calls ≡ 0 }
        ensures faults { (plan_of result).faults ≡ 0 }
        ensures cut { cut_of result ≡ Some cut }
        ensures fetches { (seen_of result).fetches ≡ 0 }
        ensures keeps { (seen_of result).keeps ≡ 0 }
        ensures kept { (seen_of result).kept ≡ 0 }
    {
        MemStore {
            alloc,
            files: BTreeMap::new(alloc),
            plan: Plan::new(fail),
            cut: Some(cut),
            fetches: 0,
            limit: 0,
            keeps: 0,
            kept: 0,
        }
    }

    /// Puts a file there. This is no counted call.
    pub fn set(&mut self, name: &str, bytes: &[u8]) -> Result<(), AllocError>
        ensures ok { OnOk result (files_of self.new ≡ map.insert
            (files_of self.old) name.now bytes.now) }
        ensures err { OnErr result (files_of self.new ≡ files_of self.old) }
        ensures plan { plan_of self.new ≡ plan_of self.old }
        ensures cut { cut_of self.new ≡ cut_of self.old }
        ensures fetches { (seen_of self.new).fetches ≡ (seen_of self.old).fetches }
        ensures limit { (seen_of self.new).limit ≡ (seen_of self.old).limit }
        ensures keeps { (seen_of self.new).keeps ≡ (seen_of self.old).keeps }
        ensures kept { (seen_of self.new).kept ≡ (seen_of self.old).kept }
    {
        let key = String::from_str(self.alloc, name)?;
        let bytes = Vec::from_slice(self.alloc, bytes)?;
        self.files.insert(key, bytes)?;
        Ok(())
    }

    /// Leaves what a listed `keep` leaves.
    fn tear(&mut self, name: &str, bytes: &[u8])
        ensures files { Torn (cut_of self.old) (files_of self.old) name.now bytes.now
            (files_of self.new) }
        ensures plan { plan_of self.new ≡ plan_of self.old }
        ensures cut { cut_of self.new ≡ cut_of self.old }
        ensures fetches { (seen_of self.new).fetches ≡ (seen_of self.old).fetches }
        ensures limit { (seen_of self.new).limit ≡ (seen_of self.old).limit }
        ensures keeps { (seen_of self.new).keeps ≡ (seen_of self.old).keeps }
        ensures kept { (seen_of self.new).kept ≡ (seen_of self.old).kept }
    {
        if let Some(cut) = self.cut {
            let _ = self.set(name, front_of(bytes, cut));
        }
    }
}

impl<'a> Store for MemStore<'a> {
    ghost seen = { seen_of };

    fn fetch(&mut self, alloc: Global, name: &str, limit: u64) -> Result<Fetched, StoreError>
        ensures faults { (plan_of self.new).faults
            ≡ store_faults_after result (plan_of self.old).faults }
        ensures asked { (seen_of self.new).fetches ≡ one_more (seen_of self.old).fetches }
        ensures limited { (seen_of self.new).limit ≡ limit }
        ensures within { IsWithin limit result }
        ensures unchanged { Some (files_of self.new) ≡ Some (files_of self.old) }
        ensures told { (here : Files) → Some (files_of self.old) ≡ Some here
            → GivesFile (map.get here name.now) limit result }
        ensures steady { IsTrue (is_steady self.old) → IsTrue (is_steady self.new) }
        ensures lacks { (here : Files) → IsTrue (is_steady self.old)
            → Some (files_of self.old) ≡ Some here
            → IsErrOf result StoreError.Failed → map.get here name.now ≡ None }
        ensures unkept { (seen_of self.new).keeps ≡ (seen_of self.old).keeps }
        ensures undone { (seen_of self.new).kept ≡ (seen_of self.old).kept }
        // A call fails exactly when it is listed or the name is missing, and then the count of faults goes up by
        // one.
        ensures fails { has_failed result
            ≡ (is_listed (plan_of self.old).listed (plan_of self.old).calls || is_none (map.get
            (files_of self.old) name.now)) }
        ensures plan { plan_of self.new ≡ after_call (plan_of self.old) (has_failed result) }
        ensures cut { cut_of self.new ≡ cut_of self.old }
    {
        self.fetches = one_more(self.fetches);
        self.limit = limit;
        if self.plan.fails() {
            return Err(StoreError::Failed);
        }
        let Some(bytes) = bytes_under(&self.files, name) else {
            self.plan.fault();
            return Err(StoreError::Failed);
        };
        if bytes.len() as u64 > limit {
            return Ok(Fetched::Longer);
        }
        match Bytes::from_slice(alloc, bytes) {
            Ok(bytes) => Ok(Fetched::Whole(bytes)),
            Err(_) => Err(StoreError::Memory),
        }
    }

    fn keep(&mut self, name: &str, bytes: &[u8]) -> Result<(), StoreError>
        ensures faults { (plan_of self.new).faults
            ≡ store_faults_after result (plan_of self.old).faults }
        ensures unasked { (seen_of self.new).fetches ≡ (seen_of self.old).fetches }
        ensures limited { (seen_of self.new).limit ≡ (seen_of self.old).limit }
        ensures told { (here : Files) → Some (files_of self.old) ≡ Some here
            → TakesFile here name.now bytes.now result (Some (files_of self.new)) }
        ensures steady { IsTrue (is_steady self.old) → IsTrue (is_steady self.new)
            × (result ≢ Err StoreError.Failed) }
        ensures once { (seen_of self.new).keeps ≡ one_more (seen_of self.old).keeps }
        ensures done { (seen_of self.new).kept ≡ after_keep result (seen_of self.old).kept }
        // A call fails exactly when it is listed, and then the count of faults goes up by one. An `Err` changes
        // nothing here, but for a call that fails in a store that tears.
        ensures fails { has_failed result ≡ is_listed (plan_of self.old).listed
            (plan_of self.old).calls }
        ensures plan { plan_of self.new ≡ after_call (plan_of self.old) (has_failed result) }
        ensures cut { cut_of self.new ≡ cut_of self.old }
        ensures err { LeftByKeep (cut_of self.old) (files_of self.old) name.now bytes.now result
            (files_of self.new) }
    {
        self.keeps = one_more(self.keeps);
        if self.plan.fails() {
            self.tear(name, bytes);
            return Err(StoreError::Failed);
        }
        match self.set(name, bytes) {
            Ok(()) => {
                self.kept = one_more(self.kept);
                Ok(())
            }
            Err(_) => Err(StoreError::Memory),
        }
    }
}

/// The bytes under a name.
fn bytes_under<'f>(files: &'f BTreeMap<String, Vec<u8>>, name: &str) -> Option<&'f [u8]>
    ensures { option_copied result ≡ map.get (files_in files.now) name.now }
{
    match files.get(name) {
        Some(bytes) => Some(bytes.as_slice()),
        None => None,
    }
}

/// The first `cut` bytes, or all if there are fewer.
fn front_of(bytes: &[u8], cut: u64) -> &[u8]
    ensures { result.now ≡ take cut bytes.now }
{
    if cut < bytes.len() as u64 {
        &bytes[..cut as usize]
    } else {
        bytes
    }
}
