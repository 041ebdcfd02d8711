ghost use Rattle.std.specs.Prelude.{◌≡◌, ◌≤◌, ◌<◌, ◌-◌, ◌^◌, ◌+◌, ◌∷◌, ◌++◌, [], length, slice_get, Some, IfOk, OnOk, OnErr};
ghost use Rattle.act1_outside.specs.declared.helpers.Entry.TheVariants as entry;

use crate::calls::Calls;
use crate::helpers::{Entry, HelperFault, Helpers};
use crate::tickets::Tickets;
use act1_base::{Items, Memory};
use std::alloc::Global;

/// An answer of a helper in memory.
#[derive(Debug, Drop)]
pub struct FakeAnswer {
    /// Its bytes, at most 268,435,456.
    pub bytes: Items<u8>,
    pub ghost short: { length bytes ≤ 268435456 },
}

/// Helpers in memory, which tell their story. The start that succeeds as the first has ticket 0 and the first of the
/// answers, the next one ticket 1 and the second answer, and so on. Their calls of `start` and `finish` are counted
/// together, from 1, and those that `fail` lists fail.
#[derive(Debug, Drop)]
pub struct FakeHelpers {
    alloc: Global,
    answers: Items<FakeAnswer>,
    story: Items<Entry>,
    tickets: Tickets,
    calls: Calls,
    faults: u64,
}

// Adds the entry of a start that failed.
fn add_refused(
    alloc: Global,
    story: &mut Items<Entry>,
    program: &str,
    job: &[u8],
) -> Result<(), Memory>
    ensures ok { OnOk result (story.new ≡ story.old ++ entry.Refused program.now job.now ∷ []) }
    ensures err { OnErr result (story.new ≡ story.old) }
{
    let program = Items::from_slice(alloc, program.as_bytes())?;
    let job = Items::from_slice(alloc, job)?;
    story.push(Entry::Refused { program, job })
}

// Adds the entry of a start that succeeded.
fn add_started(
    alloc: Global,
    story: &mut Items<Entry>,
    program: &str,
    job: &[u8],
    ticket: u64,
) -> Result<(), Memory>
    ensures ok { OnOk result (story.new ≡ story.old ++ entry.Started program.now job.now ticket ∷ []) }
    ensures err { OnErr result (story.new ≡ story.old) }
{
    let program = Items::from_slice(alloc, program.as_bytes())?;
    let job = Items::from_slice(alloc, job)?;
    story.push(Entry::Started {
        program,
        job,
        ticket,
    })
}

// Adds the entry of an answer, and gives it.
fn give_answer(
    alloc: Global,
    own: Global,
    story: &mut Items<Entry>,
    ticket: u64,
    answer: &[u8],
) -> Result<Vec<u8>, Memory>
    ensures given { IfOk result (λ bytes. bytes.items ≡ answer.now) }
    ensures ok { OnOk result (story.new ≡ story.old ++ entry.Answered ticket answer.now ∷ []) }
    ensures err { OnErr result (story.new ≡ story.old) }
{
    let given = answer.to_vec(alloc)?;
    let bytes = Items::from_slice(own, answer)?;
    story.push(Entry::Answered { ticket, bytes })?;
    Ok(given)
}

impl FakeHelpers {
    ghost use Rattle.act1_outside.specs.Calls.{with_failing};
    ghost use Rattle.act1_outside.specs.FakeHelpers.{answers_of, bench_of, calls_of};

    /// No answers, no call was made, none is to fail, no fault is counted, the next ticket is 0, and the story has no
    /// entry. It takes no memory.
    pub fn new(alloc: Global) -> FakeHelpers
        ensures bench { bench_of result ≡ record { open_tickets = []; next = 0; faults = 0; story = Some [] } }
        ensures answers { answers_of result ≡ [] }
        ensures calls { calls_of result ≡ record { made = 0; failing = [] } }
    {
        FakeHelpers {
            alloc,
            answers: Items::new(alloc),
            story: Items::new(alloc),
            tickets: Tickets::new(alloc),
            calls: Calls::new(alloc),
            faults: 0,
        }
    }

    /// Adds an answer, of at most 268,435,456 bytes. After `Memory` nothing has changed.
    pub fn answer(&mut self, bytes: &[u8]) -> Result<(), Memory>
        requires { length bytes.now ≤ 268435456 }
        ensures ok { OnOk result (answers_of self.new ≡ answers_of self.old ++ bytes.now ∷ []) }
        ensures err { OnErr result (answers_of self.new ≡ answers_of self.old) }
        ensures bench { bench_of self.new ≡ bench_of self.old }
        ensures calls { calls_of self.new ≡ calls_of self.old }
    {
        let bytes = Items::from_slice(self.alloc, bytes)?;
        self.answers.push(FakeAnswer { bytes })
    }

    /// Lists a call that is to fail, by its number. After `Memory` the list is as it was.
    pub fn fail(&mut self, call: u64) -> Result<(), Memory>
        ensures ok { OnOk result (calls_of self.new ≡ with_failing call (calls_of self.old)) }
        ensures err { OnErr result (calls_of self.new ≡ calls_of self.old) }
        ensures bench { bench_of self.new ≡ bench_of self.old }
        ensures answers { answers_of self.new ≡ answers_of self.old }
    {
        self.calls.fail(call)
    }

    /// The story so far.
    pub fn story(&self) -> &[Entry]
        ensures { (bench_of self.now).story ≡ Some result.now }
    {
        self.story.as_slice()
    }
}

impl Helpers for FakeHelpers {
    ghost use Rattle.std.specs.Prelude.{◌⊎◌, IsTrue, IsErrOf};
    ghost use Rattle.act1_outside.specs.Outside.{Starts, Finishes};
    ghost use Rattle.act1_outside.specs.Faults.{count_after};
    ghost use Rattle.act1_outside.specs.Calls.{one_more, next_fails};
    ghost use Rattle.act1_outside.specs.FakeHelpers.{Refuses, answers_of, bench_of, calls_of, is_failed, stay_above};

    ghost seen = { bench_of };

    /// Starts a helper. It fails exactly where the call is listed or the next ticket is the greatest `u64`, but for want
    /// of memory.
    fn start(&mut self, program: &str, job: &[u8]) -> Result<u64, HelperFault>
        ensures starts { Starts program.now job.now (bench_of self.old) result (bench_of self.new) }
        ensures next { OnOk result ((bench_of self.new).next ≡ (bench_of self.old).next + 1) }
        ensures listed { IsTrue (next_fails (calls_of self.old)) → Refuses result }
        ensures cause { IsErrOf result HelperFault.Failed →
            IsTrue (next_fails (calls_of self.old)) ⊎ (2 ^ 64 - 1 ≤ (bench_of self.old).next) }
        ensures faults { (bench_of self.new).faults ≡ count_after (is_failed result) (bench_of self.old).faults }
        ensures calls { calls_of self.new ≡ one_more (calls_of self.old) }
        ensures answers { answers_of self.new ≡ answers_of self.old }
    {
        let listed = self.calls.count();
        let ticket = self.tickets.next;
        if listed || ticket == u64::MAX {
            add_refused(self.alloc, &mut self.story, program, job)?;
            self.faults = self.faults.saturating_add(1);
            return Err(HelperFault::Failed);
        }
        self.tickets.make_room()?;
        add_started(self.alloc, &mut self.story, program, job, ticket)?;
        self.tickets.open_next();
        Ok(ticket)
    }

    /// Gives the answer of the ticket's number. It fails exactly where the call is listed or there is no such answer, but
    /// for want of memory.
    fn finish(&mut self, alloc: Global, ticket: u64) -> Result<Vec<u8>, HelperFault>
        ensures finishes { Finishes ticket (bench_of self.old) result (bench_of self.new) }
        ensures answer { IfOk result (λ bytes. slice_get (answers_of self.old) ticket ≡ Some bytes.items) }
        ensures listed { IsTrue (next_fails (calls_of self.old)) → Refuses result }
        ensures beyond { length (answers_of self.old) ≤ ticket → Refuses result }
        ensures cause { IsErrOf result HelperFault.Failed →
            IsTrue (next_fails (calls_of self.old)) ⊎ (length (answers_of self.old) ≤ ticket) }
        ensures faults { (bench_of self.new).faults ≡ count_after (is_failed result) (bench_of self.old).faults }
        ensures calls { calls_of self.new ≡ one_more (calls_of self.old) }
        ensures answers { answers_of self.new ≡ answers_of self.old }
    {
        let listed = self.calls.count();
        self.tickets.close(ticket);
        match self.answers.get(ticket as usize) {
            Some(answer) if !listed => {
                Ok(give_answer(
                    alloc,
                    self.alloc,
                    &mut self.story,
                    ticket,
                    answer.bytes.as_slice(),
                )?)
            }
            _ => {
                self.story.push(Entry::Lost { ticket })?;
                self.faults = self.faults.saturating_add(1);
                Err(HelperFault::Failed)
            }
        }
    }

    ghost next_above = { stay_above };
}
