ghost use Rattle.std.specs.Prelude.{◌≡◌, ℕ, ◌<◌, ◌≤◌, ◌↔◌, List, [], ◌∷◌, ◌++◌, Some, None, length, MatchOption, OnOk, IfOk, IfSome, OnErr, IsErrOf, IsTrue};
ghost use Rattle.std.specs.List.{Contains};
ghost use Rattle.yds_model.specs.Document.{name_at};
ghost use Rattle.base.specs.Spelling.{is_name};
ghost use Rattle.yds_model.specs.Within.{AreNamedJobs};
ghost use Rattle.yds_instance.specs.Named.{Named, number_of};

use crate::fault::AddFault;
use indexmap::IndexSet;
use std::alloc::{AllocError, Global};
use std::hash::RandomState;
use std::marker::Model;
use yds_model::limits::MAX_JOBS;
use yds_model::{JobRow, Memory};

/// The jobs of a document, in its order, with their names.
///
/// A job's number, from 0, is its place. Names are lent from the input, and no two are the same. There
/// are at most `MAX_JOBS` jobs. Names are looked up by a digest with secret keys, so that whoever chooses them
/// can't choose how long a look-up takes. No answer depends on the keys.
#[derive(Drop)]
pub struct Instance<'a> {
    names: IndexSet<&'a str, RandomState>,
    rows: Vec<JobRow>,
}

impl<'a> Model for Instance<'a> {
    ghost use Rattle.std.specs.Prelude.{map};
    ghost use Rattle.yds_model.specs.Within.{AreNamedJobs};
    ghost use Rattle.yds_instance.specs.Named.{Named};

    ghost Value = { Named };

    ghost view = { λ i. record { names = map (λ name. name.now) i.names.keys; jobs = i.rows.items } };

    ghost invariant = { λ i. AreNamedJobs (map (λ name. name.now) i.names.keys) i.rows.items };
}

impl<'a> Instance<'a> {
    /// No jobs, whose names will be looked up with these keys. Takes no memory.
    pub fn new(alloc: Global, keys: RandomState) -> Instance<'a>
        ensures { result ≡ record { names = []; jobs = [] } }
    {
        Instance {
            names: IndexSet::with_hasher(alloc, keys),
            rows: Vec::new(alloc),
        }
    }

    /// The keys that the names are looked up with.
    pub fn keys(&self) -> RandomState {
        *self.names.hasher()
    }

    /// Adds a job after the others, and answers its number.
    ///
    /// Fails as `Duplicate` exactly where the name stands already, as `Full` exactly where the name is
    /// new and `MAX_JOBS` jobs are there, and as `Memory` for want of memory, tried in this order: so `Memory`
    /// tells that the name is new. After each of them the instance is unchanged.
    pub fn add(&mut self, name: &'a str, row: JobRow) -> Result<u32, AddFault>
        requires { IsTrue (is_name name.now) }
        ensures number { IfOk result (λ number. number ≡ length self.old.jobs) }
        ensures last { OnOk result (self.new ≡ record { names = self.old.names ++ name.entry.now ∷ []; jobs = self.old.jobs ++ row ∷ [] }) }
        ensures new { OnOk result (number_of self.old.names name.entry.now ≡ None) }
        ensures duplicate { (earlier : ℕ) → IsErrOf result (AddFault.Duplicate earlier) ↔ (number_of self.old.names name.entry.now ≡ Some earlier) }
        ensures full { IsErrOf result AddFault.Full ↔ ((number_of self.old.names name.entry.now ≡ None) × (length self.old.jobs ≡ MAX_JOBS)) }
        ensures memory { IsErrOf result AddFault.Memory → number_of self.old.names name.entry.now ≡ None }
        ensures unchanged { OnErr result (self.new ≡ self.old) }
    {
        if self.rows.len() >= MAX_JOBS {
            return Err(self.refusal(name));
        }
        match self.put(name, row) {
            Ok(number) => Ok(number),
            Err(AddFault::Duplicate(earlier)) => Err(AddFault::Duplicate(earlier)),
            Err(_) => Err(self.refusal(name)),
        }
    }

    /// Why a job of this name can't be added, where there are too many jobs or too little memory for a new one.
    fn refusal(&self, name: &str) -> AddFault
        ensures duplicate { (earlier : ℕ) → (result ≡ AddFault.Duplicate earlier) ↔ (number_of self.now.names name.now ≡ Some earlier) }
        ensures full { (result ≡ AddFault.Full) ↔ ((number_of self.now.names name.now ≡ None) × (length self.now.jobs ≡ MAX_JOBS)) }
        ensures memory { (result ≡ AddFault.Memory) → number_of self.now.names name.now ≡ None }
    {
        match self.find(name) {
            Some(earlier) => AddFault::Duplicate(earlier),
            None if self.rows.len() >= MAX_JOBS => AddFault::Full,
            None => AddFault::Memory,
        }
    }

    /// The same for a name that is known to be new, where there is room.
    pub fn add_new(&mut self, name: &'a str, row: JobRow) -> Result<u32, Memory>
        requires named { IsTrue (is_name name.now) }
        requires new { number_of self.old.names name.now ≡ None }
        requires room { length self.old.jobs < MAX_JOBS }
        ensures number { IfOk result (λ number. number ≡ length self.old.jobs) }
        ensures last { OnOk result (self.new ≡ record { names = self.old.names ++ name.entry.now ∷ []; jobs = self.old.jobs ++ row ∷ [] }) }
        ensures unchanged { OnErr result (self.new ≡ self.old) }
    {
        // Reading a field shows that the row is within the limits.
        let _release = row.release;
        match self.put(name, row) {
            Ok(number) => Ok(number),
            Err(_) => Err(Memory),
        }
    }

    /// Adds a job, where there is room: its number, or the fault of a name that stands already or of too little memory.
    fn put(&mut self, name: &'a str, row: JobRow) -> Result<u32, AddFault>
        requires named { IsTrue (is_name name.now) }
        requires room { length self.old.jobs < MAX_JOBS }
        ensures number { IfOk result (λ number. number ≡ length self.old.jobs) }
        ensures last { OnOk result (self.new ≡ record { names = self.old.names ++ name.entry.now ∷ []; jobs = self.old.jobs ++ row ∷ [] }) }
        ensures new { OnOk result (number_of self.old.names name.entry.now ≡ None) }
        ensures duplicate { (earlier : ℕ) → IsErrOf result (AddFault.Duplicate earlier) → number_of self.old.names name.entry.now ≡ Some earlier }
        ensures unchanged { OnErr result (self.new ≡ self.old) }
    {
        // Reading a field shows that the row is within the limits.
        let _release = row.release;
        self.make_room()?;
        self.rows.reserve(1)?;
        let (number, is_new) = self.names.insert_full(name)?;
        if !is_new {
            return Err(AddFault::Duplicate(number as u32));
        }
        self.rows.push_reserved(row);
        Ok(number as u32)
    }

    /// Makes room before the first job, for as many as may come: so names and rows needn't be moved.
    fn make_room(&mut self) -> Result<(), AllocError>
        ensures same { self.new ≡ self.old }
    {
        if self.rows.is_empty() {
            self.names.reserve(MAX_JOBS)?;
            self.rows.reserve(MAX_JOBS)?;
        }
        Ok(())
    }

    /// The name of the job with this number.
    pub fn name(&self, job: u32) -> &'a str
        requires { job < length self.now.jobs }
        ensures name { result.now ≡ name_at self.now.names job }
        ensures kept { AreNamedJobs self.now.names self.now.jobs }
    {
        self.names.as_slice()[job as usize]
    }

    /// The jobs, each at the place of its number.
    pub fn rows(&self) -> &[JobRow]
        ensures jobs { result.now ≡ self.now.jobs }
        ensures kept { AreNamedJobs self.now.names self.now.jobs }
    {
        self.rows.as_slice()
    }

    /// The number of the job with this name, or `None` exactly where no job has it.
    pub fn find(&self, name: &str) -> Option<u32>
        ensures number { result ≡ number_of self.now.names name.now }
        ensures found { MatchOption result (¬ (Contains self.now.names name.now)) (λ number. (number < length self.now.jobs) × (name_at self.now.names number ≡ name.now)) }
        ensures kept { AreNamedJobs self.now.names self.now.jobs }
    {
        match self.names.get_index_of(name) {
            Some(number) => Some(number as u32),
            None => None,
        }
    }

    /// The number of the job with this name, where the name ends with that number. Names are mostly numbered, and this
    /// takes less time than a look-up. `None` tells nothing.
    pub fn find_at_once(&self, name: &[u8]) -> Option<u32>
        ensures number { IfSome result (λ number. number_of self.now.names name.now ≡ Some number) }
        ensures named { IfSome result (λ number. IsTrue (is_name name.now)) }
        ensures known { IfSome result (λ number. number < length self.now.jobs) }
    {
        let number = number_at_end(name);
        let names = self.names.as_slice();
        if (number as usize) < names.len() && names[number as usize].as_bytes() == name {
            Some(number)
        } else {
            None
        }
    }
}

/// The number that a name ends with, as far as 32 bits hold it; 0 where its last byte is no digit.
fn number_at_end(name: &[u8]) -> u32 {
    let mut number: u32 = 0;
    let mut factor: u32 = 1;
    for byte in name.iter().rev() {
        if !byte.is_ascii_digit() {
            break;
        }
        number = number.wrapping_add(factor.wrapping_mul(u32::from(*byte - b'0')));
        factor = factor.wrapping_mul(10);
    }
    number
}

#[cfg(test)]
mod tests {
    use super::*;
    use std::test::Fail;

    #[test]
    fn names_are_numbered_in_order(rt: HostRuntime) -> Result<(), Fail> {
        let [first, second] = [JobRow::new(0, 10, 10), JobRow::new(4, 6, 0)];
        assert!(rt; JobRow::fits(4, 6, 0));
        assert!(rt; !JobRow::fits(6, 6, 0));
        let mut instance = Instance::new(rt.alloc(), RandomState::new(&rt)?);
        assert_eq!(rt; instance.add("a", first)?, 0);
        assert_eq!(rt; instance.add("b", second)?, 1);
        assert_eq!(rt; instance.add("a", second), Err(AddFault::Duplicate(0)));
        assert_eq!(rt; instance.rows(), [first, second].as_slice());
        assert_eq!(rt; instance.find("b"), Some(1));
        assert_eq!(rt; instance.find("c"), None);
        assert_eq!(rt; instance.find_at_once(b"a"), Some(0));
        assert_eq!(rt; Instance::new(rt.alloc(), instance.keys()).find("a"), None);
        assert_eq!(rt; instance.rows().len(), 2);
        assert_eq!(rt; instance.name(1), "b");
        Ok(())
    }
}
