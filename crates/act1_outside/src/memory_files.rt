ghost use Rattle.std.specs.Prelude.{◌≡◌, ◌≢◌, ◌∷◌, ◌++◌, ◌+◌, [], ℕ, List, None, Some, OnOk, OnErr, take};
ghost use Rattle.act1_outside.specs.Failures.{failures_of};
ghost use Rattle.act1_outside.specs.Faults.{OnlyAt, Rose};
ghost use Rattle.act1_outside.specs.MemoryFiles.{content_of};

use crate::calls::Calls;
use crate::failures::Failures;
use crate::files::{FileFault, Files};
use crate::tear::{Tear, front, left_by};
use act1_base::Memory;
use std::alloc::Global;
use std::collections::BTreeMap;

/// Files in memory. Its calls of `read` and `write` are counted together, from 1, and those that
/// `fail` and `tear` list fail.
#[derive(Drop)]
pub struct MemoryFiles {
    alloc: Global,
    files: BTreeMap<String, Vec<u8>>,
    calls: Calls,
    tears: Vec<Tear>,
    failed_reads: Failures,
    failed_writes: Failures,
    unwritten: u64,
}

// Puts the bytes in the place of the whole content of a name.
#[tactic(auto, using(std::proofs::lemmas::Map::Text::text_keys))]
fn store(
    alloc: Global,
    files: &mut BTreeMap<String, Vec<u8>>,
    name: &str,
    bytes: &[u8],
) -> Result<(), Memory>
    ensures ok { OnOk result (content_of files.new name.now ≡ Some bytes.now) }
    ensures others { (n : List ℕ) → n ≢ name.now → content_of files.new n ≡ content_of files.old n }
    ensures err { OnErr result ((n : List ℕ) → content_of files.new n ≡ content_of files.old n) }
{
    let key = String::from_str(alloc, name)?;
    let content = Vec::from_slice(alloc, bytes)?;
    files.insert(key, content)?;
    Ok(())
}

// Leaves the first so many bytes under the name, where a call leaves any.
fn leave(
    alloc: Global,
    files: &mut BTreeMap<String, Vec<u8>>,
    name: &str,
    bytes: &[u8],
    left: Option<u64>,
) -> Result<(), Memory>
    ensures none { left ≡ None → (n : List ℕ) → content_of files.new n ≡ content_of files.old n }
    ensures torn { (n : ℕ) → left ≡ Some n → OnOk result (content_of files.new name.now ≡ Some (take n bytes.now)) }
    ensures others { (n : List ℕ) → n ≢ name.now → content_of files.new n ≡ content_of files.old n }
{
    match left {
        Some(n) => store(alloc, files, name, front(bytes, n)),
        None => Ok(()),
    }
}

// A write that fails: it leaves the first so many bytes, where the call leaves any, and is noted.
fn fail_write(
    alloc: Global,
    files: &mut BTreeMap<String, Vec<u8>>,
    failed: &mut Failures,
    name: &str,
    bytes: &[u8],
    left: Option<u64>,
) -> Result<(), Memory>
    ensures none { left ≡ None → (n : List ℕ) → content_of files.new n ≡ content_of files.old n }
    ensures torn { (n : ℕ) → left ≡ Some n → OnOk result (content_of files.new name.now ≡ Some (take n bytes.now)) }
    ensures others { (n : List ℕ) → n ≢ name.now → content_of files.new n ≡ content_of files.old n }
    ensures one { OnOk result (failures_of failed.new name.now ≡ failures_of failed.old name.now + 1) }
    ensures rose { OnOk result (Rose (failures_of failed.old name.now) (failures_of failed.new name.now)) }
    ensures at { OnOk result (OnlyAt name.now (failures_of failed.old) (failures_of failed.new)) }
    ensures err { OnErr result (failed.new ≡ failed.old) }
{
    leave(alloc, files, name, bytes, left)?;
    failed.note(name)
}

impl MemoryFiles {
    ghost use Rattle.std.specs.Option.{option_map};
    ghost use Rattle.act1_outside.specs.Outside.{SameHeld, OthersHeld, SameFaults};
    ghost use Rattle.act1_outside.specs.Calls.{with_failing};
    ghost use Rattle.act1_outside.specs.MemoryFiles.{shelf_of, calls_of, tears_of};

    /// No files: no name is there, no call was made, none is to fail, and nothing is counted. It
    /// takes no memory.
    pub fn new(alloc: Global) -> MemoryFiles
        ensures held { (name : List ℕ) → (shelf_of result).held name ≡ None }
        ensures reads { (name : List ℕ) → (shelf_of result).read_faults name ≡ 0 }
        ensures writes { (name : List ℕ) → (shelf_of result).write_faults name ≡ 0 }
        ensures memory { (shelf_of result).unwritten ≡ 0 }
        ensures calls { calls_of result ≡ record { made = 0; failing = [] } }
        ensures tears { tears_of result ≡ [] }
    {
        MemoryFiles {
            alloc,
            files: BTreeMap::new(alloc),
            calls: Calls::new(alloc),
            tears: Vec::new(alloc),
            failed_reads: Failures::new(alloc),
            failed_writes: Failures::new(alloc),
            unwritten: 0,
        }
    }

    /// Puts the bytes in the place of the whole content of a name, which needn't be there before.
    /// It is no counted call. After `Memory` every name holds what it held.
    pub fn set(&mut self, name: &str, bytes: &[u8]) -> Result<(), Memory>
        ensures holds { OnOk result ((shelf_of self.new).held name.now ≡ Some bytes.now) }
        ensures others { OthersHeld name.now (shelf_of self.old) (shelf_of self.new) }
        ensures err { OnErr result (SameHeld (shelf_of self.old) (shelf_of self.new)) }
        ensures faults { SameFaults (shelf_of self.old) (shelf_of self.new) }
        ensures calls { calls_of self.new ≡ calls_of self.old }
        ensures tears { tears_of self.new ≡ tears_of self.old }
    {
        store(self.alloc, &mut self.files, name, bytes)?;
        Ok(())
    }

    /// Lists a call that is to fail, by its number. A listed read gives nothing, and a listed write
    /// leaves its name as it was. After `Memory` the list is as it was.
    pub fn fail(&mut self, call: u64) -> Result<(), Memory>
        ensures ok { OnOk result (calls_of self.new ≡ with_failing call (calls_of self.old)) }
        ensures err { OnErr result (calls_of self.new ≡ calls_of self.old) }
        ensures kept { shelf_of self.new ≡ shelf_of self.old }
        ensures tears { tears_of self.new ≡ tears_of self.old }
    {
        self.calls.fail(call)
    }

    /// Lists a call that is to fail, by its number, and if it is a write, to leave the first `left` bytes of its
    /// content, or all if there are fewer. Where a call is listed more than once, its last `tear` decides. After
    /// `Memory` the lists are as they were.
    pub fn tear(&mut self, call: u64, left: u64) -> Result<(), Memory>
        ensures ok { OnOk result (calls_of self.new ≡ with_failing call (calls_of self.old)) }
        ensures torn { OnOk result (tears_of self.new ≡ tears_of self.old ++ record { call = call; left = left } ∷ []) }
        ensures err { OnErr result (calls_of self.new ≡ calls_of self.old) }
        ensures untorn { OnErr result (tears_of self.new ≡ tears_of self.old) }
        ensures kept { shelf_of self.new ≡ shelf_of self.old }
    {
        self.tears.reserve(1)?;
        self.calls.fail(call)?;
        self.tears.push_reserved(Tear { call, left });
        Ok(())
    }

    /// The content of a name, or `None` exactly where the name isn't there. It is no counted call.
    pub fn held(&self, name: &str) -> Option<&[u8]>
        ensures { option_map (λ bytes. bytes.now) result ≡ (shelf_of self.now).held name.now }
    {
        match self.files.get(name) {
            Some(bytes) => Some(bytes.as_slice()),
            None => None,
        }
    }
}

impl Files for MemoryFiles {
    ghost use Rattle.std.specs.Prelude.{◌⊎◌, ◌+◌, IsTrue, IsErrOf, None};
    ghost use Rattle.act1_outside.specs.Outside.{Reads, Writes, SameHeld};
    ghost use Rattle.act1_outside.specs.Faults.{Fails, file_faults};
    ghost use Rattle.act1_outside.specs.Calls.{one_more, next_fails};
    ghost use Rattle.act1_outside.specs.MemoryFiles.{left_next, shelf_of, calls_of, tears_of};

    ghost seen = { shelf_of };

    /// The content of a name. It fails exactly where the call is listed or the name isn't there,
    /// but for want of memory.
    fn read(&mut self, alloc: Global, name: &str, most: u64) -> Result<Vec<u8>, FileFault>
        ensures reads { Reads name.now most (shelf_of self.old) result (shelf_of self.new) }
        ensures listed { IsTrue (next_fails (calls_of self.old)) → Fails result }
        ensures cause { IsErrOf result FileFault.Failed →
            IsTrue (next_fails (calls_of self.old)) ⊎ ((shelf_of self.old).held name.now ≡ None) }
        ensures faults { (shelf_of self.new).read_faults name.now ≡
            (shelf_of self.old).read_faults name.now + file_faults result }
        ensures calls { calls_of self.new ≡ one_more (calls_of self.old) }
        ensures tears { tears_of self.new ≡ tears_of self.old }
    {
        let listed = self.calls.count();
        match self.files.get(name) {
            Some(bytes) if !listed => {
                if bytes.len() as u64 > most {
                    return Err(FileFault::TooLong);
                }
                Ok(bytes.as_slice().to_vec(alloc)?)
            }
            _ => {
                self.failed_reads.note(name)?;
                Err(FileFault::Failed)
            }
        }
    }

    /// Writes a name. It fails exactly where the call is listed, but for want of memory. Then a call that is torn leaves
    /// the first bytes of its content, and at any other error every name holds what it held.
    fn write(&mut self, name: &str, bytes: &[u8]) -> Result<(), FileFault>
        ensures writes { Writes name.now bytes.now (shelf_of self.old) result (shelf_of self.new) }
        ensures listed { IsTrue (next_fails (calls_of self.old)) → Fails result }
        ensures cause { IsErrOf result FileFault.Failed → IsTrue (next_fails (calls_of self.old)) }
        ensures err { left_next self.old ≡ None → OnErr result (SameHeld (shelf_of self.old) (shelf_of self.new)) }
        ensures torn { (n : ℕ) → left_next self.old ≡ Some n → IsErrOf result FileFault.Failed →
            (shelf_of self.new).held name.now ≡ Some (take n bytes.now) }
        ensures faults { (shelf_of self.new).write_faults name.now ≡
            (shelf_of self.old).write_faults name.now + file_faults result }
        ensures calls { calls_of self.new ≡ one_more (calls_of self.old) }
        ensures tears { tears_of self.new ≡ tears_of self.old }
    {
        if self.calls.count() {
            let left = left_by(self.tears.as_slice(), self.calls.made);
            return match fail_write(
                self.alloc,
                &mut self.files,
                &mut self.failed_writes,
                name,
                bytes,
                left,
            ) {
                Ok(()) => Err(FileFault::Failed),
                Err(Memory) => {
                    self.unwritten = self.unwritten.saturating_add(1);
                    Err(FileFault::Memory)
                }
            };
        }
        match store(self.alloc, &mut self.files, name, bytes) {
            Ok(()) => Ok(()),
            Err(Memory) => {
                self.unwritten = self.unwritten.saturating_add(1);
                Err(FileFault::Memory)
            }
        }
    }
}
